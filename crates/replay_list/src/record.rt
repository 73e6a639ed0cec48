use arrayvec::ArrayVec;

/// A record of a thread.
#[derive(Debug, Drop)]
pub struct Record {
    /// The kind word of the action (docs/KERNEL.md).
    pub kind: u32,
    /// The results of the action.
    pub results: ArrayVec<u32, 4>,
    /// The word of the next record, counted from the first word of the list.
    pub after: u32,
}
