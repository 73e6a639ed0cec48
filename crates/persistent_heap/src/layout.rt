// Where the heap lies in the words.

/// The word that holds the place of the first hole, or 0.
pub(crate) const FIRST: u32 = 6;

/// The word of place 0. Places 2 to 4,095 are the heap's.
pub(crate) const HEAP: u32 = 7_808;
