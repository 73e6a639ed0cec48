use arrayvec::ArrayVec;

/// What becomes of the caller of an action.
#[derive(Debug, Drop)]
pub enum Outcome {
    /// The action is finished with these results.
    Results(ArrayVec<u32, 4>),
    /// The caller sleeps or waits.
    Blocked,
    /// The caller has ended or its row is free, so it has no more context.
    Gone,
}
