/// There is no live object of this type at this place.
#[derive(Debug, Clone, Copy, PartialEq, Eq)]
pub struct BadReference;

/// Why a store was not made.
#[derive(Debug, Clone, Copy, PartialEq, Eq)]
pub enum Stop {
    /// Power was lost: fewer than four writes were left.
    Cut,
    /// There is no live object of this type at this place. Nothing has changed.
    BadReference,
}
