/// A word of the image that a transaction may change, by what it is. The second number is the word within
/// its region, counted from 0.
#[derive(Debug, Clone, Copy, PartialEq, Eq)]
pub enum Cell {
    /// A word of the header that is in use, 1 to 15 but for the journal's word 4.
    Header(u32),
    /// A word of the header behind those, 0 to 47: unused.
    SpareHeader(u32),
    /// A word of a queue: 0 its length, 1 the place of its front, 2 and 3 the heads of its waiting lists.
    QueueWord(u32, u32),
    /// A slot of a queue, 0 to 47.
    QueueItem(u32, u32),
    /// A word of a queue behind its slots, 0 to 11: unused.
    QueueSpare(u32, u32),
    /// A word of a semaphore: 0 its count, 1 the head of its waiting list, 2 and 3 unused.
    SemaphoreWord(u32, u32),
    /// A word of a thread's row, 0 to 15.
    RowWord(u32, u32),
    /// A start value of a thread, 0 to 15.
    StartValue(u32, u32),
    /// A record word of a thread, 0 to 255.
    RecordWord(u32, u32),
    /// A word of the console, 0 to 2,047.
    ConsoleWord(u32),
    /// A word of the heap, by its place from 0 to 4,095.
    HeapWord(u32),
    /// A word of live bits, 0 to 63.
    LiveWord(u32),
    /// A word behind the journal, 0 to 1,855: unused.
    Spare(u32),
}
