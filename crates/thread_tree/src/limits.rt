// The limits of the language and of the kernel, each once.

/// How many threads the kernel has rows for, and how many `start` lines a program may have (docs/KERNEL.md).
pub const ROWS: usize = 16;

/// How many queues a program may declare, and how many semaphores: what a thread waits for has a number below.
pub const TARGETS: usize = 16;

/// How many items a queue may hold.
pub const ITEMS: u32 = 48;

/// How many values a thread starts with at most: those of its parameters, or of the locals in scope at a persistent loop.
pub const START_VALUES: usize = 16;

/// How many words the records of a thread have room for (docs/RECORDS.md).
pub const RECORD_WORDS: u32 = 256;

/// How many bytes the console holds.
pub const CONSOLE_BYTES: u32 = 8_192;

/// How many locals a thread has at once in all its frames.
pub const LOCALS: usize = 48;

/// How many blocks of a thread are open at once.
pub const BLOCKS: usize = 24;

/// How many persistent loops a program has at most.
pub const LOOPS: u32 = 64;

/// How many objects, and how many functions, a program may declare: no sort of declarations has more.
pub const DECLARED: u32 = 64;

/// How many moves a thread makes up to its next action, and how many an `atomic` block makes.
pub const MOVES: u32 = 10_000;

/// How many operations on objects an `atomic` block makes.
pub const OPERATIONS: u32 = 64;
