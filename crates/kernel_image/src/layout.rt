// Where each part of the kernel lies in the nonvolatile words, and the words of each part (docs/IMAGE.md).

/// The word that counts the events.
pub const EVENTS: u32 = 1;

/// The word that counts the ticks.
pub const TICKS: u32 = 2;

/// The word with the next stamp.
pub const NEXT_STAMP: u32 = 3;

/// The word with the length of the console in bytes.
pub const CONSOLE_LENGTH: u32 = 5;

/// The word with the place of the first hole of the heap.
pub const FIRST_HOLE: u32 = 6;

/// The first unused word of the header.
pub const SPARE_HEADER_AT: u32 = 16;

/// The first word of the queues.
pub const QUEUES_AT: u32 = 64;

/// The first item of the first queue.
pub const QUEUE_ITEMS_AT: u32 = 68;

/// The first unused word of the first queue.
pub const QUEUE_SPARE_AT: u32 = 116;

/// How many words a queue has.
pub const QUEUE_STRIDE: u32 = 64;

/// Of a queue: the word with the slot of its front item.
pub const FRONT: u32 = 1;

/// The first word of the semaphores.
pub const SEMAPHORES_AT: u32 = 1_088;

/// How many words a semaphore has.
pub const SEMAPHORE_STRIDE: u32 = 4;

/// The first word of the rows.
pub const ROWS_AT: u32 = 1_152;

/// The first start value of the first row.
pub const START_VALUES_AT: u32 = 1_168;

/// The first word of the records of the first row.
pub const RECORDS_AT: u32 = 1_184;

/// How many words a row has.
pub const ROW_STRIDE: u32 = 288;

/// How many words of a row stand before its start values.
pub const ROW_WORDS: u32 = 16;

/// Of a row: its state, one of `FREE` to `ENDED`.
pub const STATE: u32 = 0;

/// Of a row: the number of the thread's template.
pub const TEMPLATE: u32 = 1;

/// Of a row: the thread's priority.
pub const PRIORITY: u32 = 2;

/// Of a row: the code of the end, where the thread has ended.
pub const CODE: u32 = 3;

/// Of a row: the tick at which a delay or a wait ends.
pub const UNTIL: u32 = 4;

/// Of a row: the number of the queue or the semaphore that the thread waits for.
pub const TARGET: u32 = 5;

/// Of a row: what the thread waits for, one of `SENDS` to `TAKES`.
pub const WHAT: u32 = 6;

/// Of a row: the value that the thread waits to send.
pub const VALUE: u32 = 7;

/// Of a row: the thread's stamp.
pub const STAMP: u32 = 8;

/// Of a row: where the thread starts: 0 at its birth, else the number of a persistent loop and one.
pub const START: u32 = 13;

/// Of a row: with how many values the thread starts.
pub const START_COUNT: u32 = 14;

/// Of a row: how many words of the records are used.
pub const USED: u32 = 15;

/// The state of a row without a thread.
pub const FREE: u32 = 0;

/// The state of a thread that can be chosen.
pub const READY: u32 = 1;

/// The state of a thread in a delay.
pub const DELAYED: u32 = 2;

/// The state of a thread that waits in a call.
pub const WAITING: u32 = 3;

/// The state of a thread that has ended.
pub const ENDED: u32 = 4;

/// What is waited for: room in a queue, to send.
pub const SENDS: u32 = 1;

/// What is waited for: an item of a queue, to receive.
pub const RECEIVES: u32 = 2;

/// What is waited for: a semaphore, to take.
pub const TAKES: u32 = 3;

/// The first word of the console.
pub const CONSOLE_AT: u32 = 5_760;

/// How many words the console has, each of four bytes.
pub const CONSOLE_WORDS: u32 = 2_048;

/// The first word of the heap.
pub const HEAP_AT: u32 = 7_808;

/// How many words the heap has.
pub const HEAP_WORDS: u32 = 4_096;

/// The first word of the live bits.
pub const LIVE_AT: u32 = 11_904;

/// How many words of live bits there are.
pub const LIVE_WORDS: u32 = 64;

/// How many places of the heap a word of live bits is for: a bit for each even one.
pub const PLACES: u32 = 64;

/// The first unused word behind the journal.
pub const SPARE_AT: u32 = 14_528;
