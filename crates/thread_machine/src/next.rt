/// Where a thread that runs ahead arrives.
#[derive(Clone, Copy, Debug, Drop, PartialEq)]
pub enum Next {
    /// At an action, by its number in order of the text.
    Action(u32),
    /// At the end of the thread.
    Finished,
    /// At the bound of 10,000 moves, where another move is next.
    Watchdog,
}
