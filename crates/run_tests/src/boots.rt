// Whole runs of programs with locals, functions and blocks over boots that are cut, by all bytes that they write.
use crate::worlds::{TWO_PRINTS, World, device_left_by};
use crate::{programs, reports};
use std::alloc::Global;
use std::process::Abort;

/// Runs a program with these words, and compares all that is written, and how many boots were cut.
fn check_row(
    rt: &impl Abort,
    alloc: Global,
    line: &str,
    program: &[u8],
    report: &str,
    cuts: usize,
) {
    let nv = device_left_by(rt, alloc, &World::of(line, program), 0, report);
    assert_eq!(rt; nv.ends().len(), cuts, "{line}");
}

#[test]
fn runs_over_boots(rt: HostRuntime) {
    let cases: [(&str, &[u8], &str, usize); 13] = [
        ("run p 2", TWO_PRINTS, reports::TWO_PRINTS, 0),
        ("run p 1", programs::SPELLED, reports::SPELLED, 0),
        (
            "run p 1 16387 1 2",
            programs::NOTHING,
            reports::NOTHING_CUT,
            3,
        ),
        (
            "run p 4 16484 100 100",
            programs::BLOCKS,
            reports::BLOCKS_CUT,
            1,
        ),
        (
            "run p 4 16394 2 16 31 0",
            programs::BLOCKS,
            reports::BLOCKS_CUT_IN_UNDO,
            5,
        ),
        (
            "run p 1 16670 64 386",
            programs::TOO_MANY_STORES,
            reports::FAULT_CUT,
            3,
        ),
        (
            "run p 6 16419 33 28 39 18",
            programs::LOCALS,
            reports::LOCALS,
            5,
        ),
        ("run p 3 16421 25", programs::OBJECTS, reports::OBJECTS, 2),
        ("run p 1 16387 1 2", b"", reports::NOBODY_CUT, 3),
        ("run p 3", b"", reports::NOBODY, 0),
        ("run p 3", b" ", reports::NOBODY, 0),
        (
            "run p 3",
            b"thread t() priority 1 { print \"a\"; }",
            reports::NOBODY,
            0,
        ),
        ("run p 3", b"fn f(a) { return a; }", reports::NOBODY, 0),
    ];
    for (line, program, report, cuts) in cases {
        check_row(&rt, rt.alloc(), line, program, report, cuts);
    }
}
