// The room of a kernel call.

/// How many words a kernel call stores at most, so many entries of the journal have to be free; each takes four writes.
pub const CALL_ROOM: u32 = 64;
