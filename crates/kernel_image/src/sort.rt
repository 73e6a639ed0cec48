/// What a declaration declares, but for functions.
#[derive(Debug, Clone, Copy, PartialEq, Eq)]
pub enum Sort {
    /// An object type.
    Kind,
    /// A static object.
    Object,
    /// A queue.
    Queue,
    /// A semaphore.
    Semaphore,
    /// A thread template.
    Thread,
    /// A thread that runs from the start.
    Start,
}
