// The numbers of an event.
/// How many writes an event takes at most, its commit among them (docs/EVENTS.md).
pub const EVENT_WRITES: u32 = 6_400;
