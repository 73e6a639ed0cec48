// The codes of a thread's end (docs/KERNEL.md).

/// The thread came to the end of its body.
pub const ORDINARY_END: u32 = 0;

/// It, or an `atomic` block of its own, made too many moves.
pub const TOO_MANY_MOVES: u32 = 1;

/// An `atomic` block made too many operations on objects.
pub const TOO_MANY_OPERATIONS: u32 = 2;

/// An `atomic` block named a place where no object of the type begins.
pub const BAD_REFERENCE: u32 = 3;

/// Its records have no room for its next action.
pub const NO_RECORD_ROOM: u32 = 4;
