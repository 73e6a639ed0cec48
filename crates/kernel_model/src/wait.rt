use crate::what::What;

/// The tick that never comes: the end of a wait that has no end.
pub const NEVER: u32 = 4_294_967_295;

/// What a waiting thread waits for, and how long.
#[derive(Debug, Clone, Copy, PartialEq, Eq)]
pub struct Wait {
    /// The call in which it waits.
    pub what: What,
    /// The number of the queue or the semaphore, from 0 to 15.
    pub target: u32,
    /// The value that a sender waits to hand over; 0 for the others.
    pub value: u32,
    /// The tick at which the wait ends, or `NEVER`.
    pub until: u32,
}
