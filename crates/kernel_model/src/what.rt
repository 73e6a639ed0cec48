/// The call in which a thread waits.
#[derive(Debug, Clone, Copy, PartialEq, Eq)]
pub enum What {
    /// It waits for space in a queue.
    Send,
    /// It waits for an item of a queue.
    Receive,
    /// It waits for a semaphore.
    Take,
}
