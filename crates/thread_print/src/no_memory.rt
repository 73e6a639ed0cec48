/// No memory was left.
#[derive(Clone, Copy, Debug, Drop, PartialEq)]
pub struct NoMemory;
