use arrayvec::ArrayVec;
use thread_tree::{LOCALS, Local};

/// A block at work: its locals, with those of the frame outside, how many operations on objects were made, and how
/// many moves are left.
#[derive(Drop)]
pub(crate) struct Work {
    pub(crate) locals: ArrayVec<Local, LOCALS>,
    pub(crate) operations: u32,
    pub(crate) moves: u32,
}
