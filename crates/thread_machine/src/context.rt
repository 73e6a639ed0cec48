use arrayvec::ArrayVec;
use thread_tree::{BLOCKS, LOCALS, Local};

/// Which block of a statement was entered, or the body that it calls.
#[derive(Clone, Copy, Debug, Default, Drop, PartialEq)]
pub enum Way {
    /// The first block of an `if` or the block of a loop.
    #[default]
    First,
    /// The block behind `else`.
    Else,
    /// The body of a function.
    Call,
}

/// A statement that was entered: its place in its block, which way, and how many locals the frame had then.
#[derive(Clone, Copy, Debug, Default, Drop)]
pub struct Cursor {
    pub at: usize,
    pub way: Way,
    pub keep: usize,
}

/// The context of a thread: where it stands in its program, and what its locals hold.
///
/// `slots` has the locals of all frames, the outermost first; the innermost frame's begin at
/// `base`. `cursors` are the statements that were entered, from the body of this number inwards, counted over all bodies of the text. `at` is
/// the place of the next statement in the innermost block, and `again` says that it is a loop whose
/// block has just ended.
#[derive(Debug, Drop)]
pub struct Ctx {
    pub(crate) slots: ArrayVec<Local, LOCALS>,
    pub(crate) base: usize,
    pub(crate) body: usize,
    pub(crate) cursors: ArrayVec<Cursor, BLOCKS>,
    pub(crate) at: usize,
    pub(crate) again: bool,
}
