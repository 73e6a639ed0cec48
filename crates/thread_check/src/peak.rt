/// The most locals in scope at once and the most blocks open at once, those of callees counted.
#[derive(Clone, Copy, Debug, Drop, PartialEq)]
pub(crate) struct Peak {
    pub locals: u8,
    pub blocks: u8,
}

/// What a function needs, by its name.
#[derive(Clone, Copy, Debug, Drop, PartialEq)]
pub(crate) struct FunctionPeak {
    pub name: u32,
    pub peak: Peak,
}
