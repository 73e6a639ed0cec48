use crate::wait::Wait;

/// The state of a thread's row. A thread is live where it is ready, delayed or waiting.
#[derive(Debug, Clone, Copy, PartialEq, Eq)]
pub enum RowState {
    /// No thread is there.
    Free,
    /// The thread can be chosen.
    Ready,
    /// The thread is ready again at this tick.
    Delayed(u32),
    /// The thread waits in a call.
    Waiting(Wait),
    /// The thread has ended with this code: 0 by itself, 1 to 4 by a fault.
    Ended(u32),
}
