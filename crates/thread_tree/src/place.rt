/// A place in a text: lines and bytes of the line, both counted from 1.
#[derive(Clone, Copy, Debug, Drop, PartialEq)]
pub struct Place {
    pub line: u32,
    pub column: u32,
}

/// A name where it stands: its index in [`crate::Tree`]'s names, and the place of its first byte.
#[derive(Clone, Copy, Debug, Drop, PartialEq)]
pub struct At {
    pub name: u32,
    pub place: Place,
}

/// A number where it stands.
#[derive(Clone, Copy, Debug, Drop, PartialEq)]
pub struct Num {
    pub value: u32,
    pub place: Place,
}
