// A hole of the heap.

/// A hole of the heap: a run of free places (docs/HEAP.md).
#[derive(Clone, Copy)]
pub struct Hole {
    /// The place of the first one, which is even.
    pub place: u32,
    /// How many there are, an even number.
    pub size: u32,
}
