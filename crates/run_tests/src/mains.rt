// Whole runs of a program of thread `t` on mains, by all bytes that they write.
use crate::programs::{
    BLOCKS, CALL, ENDLESS, ENDLESS_BLOCK, ENDLESS_PRINTS, FILLING, MOST_STORES, OPERATORS,
    TOO_MANY_STORES,
};
use crate::worlds::{World, device_left_by};
use std::alloc::Global;
use std::process::Abort;

/// A line of the console that `FILLING` prints, which is 65 bytes there.
const FILLED: &str = "| xxxxxxxxxxxxxxxxxxxxxxxxxxxxxxxxxxxxxxxxxxxxxxxxxxxxxxxxxxxxxxxx\n";

/// Runs a program for so many steps, and compares all that is written. The console has a line so many times, and then
/// an end.
fn check_dump(
    rt: &impl Abort,
    alloc: Global,
    steps: u32,
    program: &[u8],
    state: &str,
    (line, times, end): (&str, usize, &str),
) {
    let lines = line.repeat(alloc, times).expect(rt, "no memory");
    let words = format!(in alloc; "run p {steps}").expect(rt, "no memory");
    let report = format!(in alloc;
        "boot 1 start at 0 undone 0 replayed 0\nboot 1 thread 0 t:\nboot 1 end at {steps}\nevents {steps}\nticks 0\nthread 0 t priority 1 {state}{lines}{end}"
    ).expect(rt, "no memory");
    let _nv = device_left_by(rt, alloc, &World::of(&words, program), 0, &report);
}

/// How the thread, its list and the objects stand behind so many steps, and what the console has.
const ROWS: [(u32, &[u8], &str, (&str, usize, &str)); 13] = [
    (
        4,
        BLOCKS,
        "ready\nlist ready 1: 0\nobject 2 T static v=6\nconsole 6\n",
        ("", 0, "| 0\n| 1 6\n"),
    ),
    (
        3,
        BLOCKS,
        "ready\nlist ready 1: 0\nobject 2 T static v=6\nconsole 2\n",
        ("", 0, "| 0\n"),
    ),
    (
        1,
        BLOCKS,
        "ready\nlist ready 1: 0\nobject 2 T static v=0\nconsole 0\n",
        ("", 0, ""),
    ),
    (
        1,
        MOST_STORES,
        "ready\nlist ready 1: 0\nobject 2 T static v=63\nconsole 0\n",
        ("", 0, ""),
    ),
    (1, ENDLESS, "ended 1\nconsole 0\n", ("", 0, "")),
    (
        1,
        ENDLESS_BLOCK,
        "ended 1\nobject 2 T static v=0\nconsole 0\n",
        ("", 0, ""),
    ),
    (
        1,
        TOO_MANY_STORES,
        "ended 2\nobject 2 T static v=0\nconsole 0\n",
        ("", 0, ""),
    ),
    (
        128,
        ENDLESS_PRINTS,
        "ready\nlist ready 1: 0\nconsole 256\n",
        ("| x\n", 128, ""),
    ),
    (
        129,
        ENDLESS_PRINTS,
        "ended 4\nconsole 256\n",
        ("| x\n", 128, ""),
    ),
    (
        1,
        OPERATORS,
        "ready\nlist ready 1: 0\nconsole 26\n",
        ("", 0, "| 4294967295 7 4294967295 2\n"),
    ),
    (
        1,
        CALL,
        "ready\nlist ready 1: 0\nconsole 2\n",
        ("", 0, "| 8\n"),
    ),
    (
        127,
        FILLING,
        "ready\nlist ready 1: 0\nconsole 8190\n",
        (FILLED, 126, ""),
    ),
    (
        128,
        FILLING,
        "ready\nlist ready 1: 0\nconsole 8192\n",
        (FILLED, 126, "| 0\n"),
    ),
];

#[test]
fn runs_on_mains(rt: HostRuntime) {
    for (steps, program, state, console) in ROWS {
        check_dump(&rt, rt.alloc(), steps, program, state, console);
    }
}
