// The reports of runs over boots, worked out by hand: formatting makes 16,384 writes, a store 4, a commit 1,
// undoing e entries e + 1.

/// Two prints on mains.
pub const TWO_PRINTS: &str = "boot 1 start at 0 undone 0 replayed 0\n\
    boot 1 thread 0 t:\n\
    boot 1 end at 2\n\
    events 2\n\
    ticks 0\n\
    thread 0 t priority 1 ready\n\
    list ready 1: 0\n\
    console 4\n\
    | a\n\
    | b\n";

/// A thread of another name and priority.
pub const SPELLED: &str = "boot 1 start at 0 undone 0 replayed 0\n\
    boot 1 thread 0 alpha_7:\n\
    boot 1 end at 1\n\
    events 1\n\
    ticks 0\n\
    thread 0 alpha_7 priority 7 ready\n\
    list ready 7: 0\n\
    console 2\n\
    | x\n";

/// A thread that ends at once, cut in an event, in its undoing and in the event again.
pub const NOTHING_CUT: &str = "boot 1 start at 0 undone 0 replayed 0\n\
    boot 1 thread 0 t:\n\
    boot 1 cut at 0\n\
    boot 2 cut in undo\n\
    boot 3 start at 0 undone 1 replayed 0\n\
    boot 3 thread 0 t:\n\
    boot 3 cut at 0\n\
    boot 4 start at 0 undone 0 replayed 0\n\
    boot 4 thread 0 t:\n\
    boot 4 end at 1\n\
    events 1\n\
    ticks 0\n\
    thread 0 t priority 1 ended 0\n\
    console 0\n";

/// A cut behind the third event.
pub const BLOCKS_CUT: &str = "boot 1 start at 0 undone 0 replayed 0\n\
    boot 1 thread 0 t:\n\
    boot 1 cut at 3\n\
    boot 2 start at 3 undone 4 replayed 3\n\
    boot 2 thread 0 t: ok=1 x=6\n\
    boot 2 end at 4\n\
    events 4\n\
    ticks 0\n\
    thread 0 t priority 1 ready\n\
    list ready 1: 0\n\
    object 2 T static v=6\n\
    console 6\n\
    | 0\n\
    | 1 6\n";

/// Cuts in blocks and in their undoing.
pub const BLOCKS_CUT_IN_UNDO: &str = "boot 1 start at 0 undone 0 replayed 0\n\
    boot 1 thread 0 t:\n\
    boot 1 cut at 0\n\
    boot 2 cut in undo\n\
    boot 3 start at 0 undone 2 replayed 0\n\
    boot 3 thread 0 t:\n\
    boot 3 cut at 0\n\
    boot 4 start at 0 undone 0 replayed 0\n\
    boot 4 thread 0 t:\n\
    boot 4 cut at 1\n\
    boot 5 cut in undo\n\
    boot 6 start at 1 undone 1 replayed 1\n\
    boot 6 thread 0 t: ok=0 x=9\n\
    boot 6 end at 4\n\
    events 4\n\
    ticks 0\n\
    thread 0 t priority 1 ready\n\
    list ready 1: 0\n\
    object 2 T static v=6\n\
    console 6\n\
    | 0\n\
    | 1 6\n";

/// Cuts in a block with too many stores, and in its undoing.
pub const FAULT_CUT: &str = "boot 1 start at 0 undone 0 replayed 0\n\
    boot 1 thread 0 t:\n\
    boot 1 cut at 0\n\
    boot 2 cut in undo\n\
    boot 3 start at 0 undone 64 replayed 0\n\
    boot 3 thread 0 t:\n\
    boot 3 cut at 0\n\
    boot 4 start at 0 undone 0 replayed 0\n\
    boot 4 thread 0 t:\n\
    boot 4 end at 1\n\
    events 1\n\
    ticks 0\n\
    thread 0 t priority 1 ended 2\n\
    object 2 T static v=0\n\
    console 0\n";

/// A cut in each event.
pub const LOCALS: &str = "boot 1 start at 0 undone 0 replayed 0\n\
    boot 1 thread 0 t:\n\
    boot 1 cut at 1\n\
    boot 2 start at 1 undone 2 replayed 1\n\
    boot 2 thread 0 t: x=3 y=4\n\
    boot 2 cut at 2\n\
    boot 3 start at 2 undone 0 replayed 2\n\
    boot 3 thread 0 t: x=3 y=4 a=3 b=4 c=7\n\
    boot 3 cut at 3\n\
    boot 4 start at 3 undone 1 replayed 3\n\
    boot 4 thread 0 t: x=7 y=4\n\
    boot 4 cut at 4\n\
    boot 5 start at 4 undone 2 replayed 4\n\
    boot 5 thread 0 t: x=7\n\
    boot 5 cut at 5\n\
    boot 6 start at 5 undone 0 replayed 0\n\
    boot 6 end at 6\n\
    events 6\n\
    ticks 0\n\
    thread 0 t priority 1 ended 0\n\
    console 11\n\
    | in\n\
    | 7\n\
    | 7\n\
    | out\n";

/// Cuts behind and in an event.
pub const OBJECTS: &str = "boot 1 start at 0 undone 0 replayed 0\n\
    boot 1 thread 0 b:\n\
    boot 1 cut at 1\n\
    boot 2 start at 1 undone 0 replayed 1\n\
    boot 2 thread 0 b: ok=1 d=9 e=49\n\
    boot 2 cut at 1\n\
    boot 3 start at 1 undone 6 replayed 1\n\
    boot 3 thread 0 b: ok=1 d=9 e=49\n\
    boot 3 end at 3\n\
    events 3\n\
    ticks 0\n\
    thread 0 b priority 3 ended 0\n\
    object 2 T static v=7\n\
    object 4 U static w=9\n\
    object 6 T static v=49\n\
    console 5\n\
    | 9<49\n";

/// Cuts in an event of nobody and in its undoing.
pub const NOBODY_CUT: &str = "boot 1 start at 0 undone 0 replayed 0\n\
    boot 1 cut at 0\n\
    boot 2 cut in undo\n\
    boot 3 start at 0 undone 1 replayed 0\n\
    boot 3 cut at 0\n\
    boot 4 start at 0 undone 0 replayed 0\n\
    boot 4 end at 1\n\
    events 1\n\
    ticks 0\n\
    console 0\n";

/// Three events of nobody.
pub const NOBODY: &str = "boot 1 start at 0 undone 0 replayed 0\n\
    boot 1 end at 3\n\
    events 3\n\
    ticks 0\n\
    console 0\n";
