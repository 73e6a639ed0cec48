/// What drives the kernel from outside. One event is one transaction.
#[derive(Debug, Clone, Copy, PartialEq, Eq)]
pub enum Event {
    /// The chosen thread runs up to its next action and performs it.
    Step,
    /// The tick count rises by one.
    Tick,
    /// A value arrives at a channel: the channel, from 0 to 15, and the value.
    Input(u32, u32),
}
