// The words of the journal.

/// The word that tells whether a device is formatted.
pub const MAGIC_WORD: u32 = 0;

/// That word of a formatted device.
pub const MAGIC: u32 = 1_229_870_129;

/// The word that counts the entries.
pub const COUNT: u32 = 4;

/// The first entry: its address, and behind it the old value.
pub const ENTRIES: u32 = 11_968;

/// How many entries the journal has room for.
pub const CAPACITY: u32 = 1_280;
