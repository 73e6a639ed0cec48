/// A local of a thread: its name, as an index into the tree's names, and its value.
#[derive(Clone, Copy, Debug, Default, Drop, PartialEq)]
pub struct Local {
    pub name: u32,
    pub value: u32,
}
