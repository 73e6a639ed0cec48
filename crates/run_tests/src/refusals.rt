// Runs that aren't begun.
use crate::worlds::{TWO_PRINTS, World, device_left_by};
use std::alloc::Global;
use std::process::Abort;

/// The line of words that aren't the defined ones.
const USAGE: &str = "usage: intos run PROGRAM STEPS [CUT ..]\n";

/// The line of a program that can't be read.
const UNREAD: &str = "cannot read program\n";

/// The line of a program that is right, but isn't served.
const NOT_YET: &str = "program NotYet\n";

/// Runs in a world where the run is refused with this line, and leaves the device untouched.
fn check_unbegun(rt: &impl Abort, alloc: Global, world: &World, status: u8, told: &str) {
    let nv = device_left_by(rt, alloc, world, status, told);
    assert_eq!(rt; (nv.words().iter().max(), nv.ends().len()), (Some(&0), 0));
}

/// Runs in a world where the run is refused, and again where the sink fails at the line of that: the status stays.
fn check_refusal(rt: &impl Abort, alloc: Global, world: &World, status: u8, told: &str) {
    check_unbegun(rt, alloc, world, status, told);
    let untold = World {
        failing_puts: &[1],
        ..*world
    };
    check_unbegun(rt, alloc, &untold, status, "");
}

/// Words, a file and a reading that are refused.
#[test]
fn refusals(rt: HostRuntime) {
    let cases = [
        ("", TWO_PRINTS, [].as_slice(), 2, USAGE),
        ("run p 02", TWO_PRINTS, [].as_slice(), 2, USAGE),
        ("run -p 2", TWO_PRINTS, [].as_slice(), 2, USAGE),
        ("run p 2 -1", TWO_PRINTS, [].as_slice(), 2, USAGE),
        ("run missing 2", TWO_PRINTS, [].as_slice(), 3, UNREAD),
        ("run p 2", TWO_PRINTS, [1].as_slice(), 3, UNREAD),
    ];
    for (line, program, failing_readings, status, told) in cases {
        let world = World {
            failing_readings,
            ..World::of(line, program)
        };
        check_refusal(&rt, rt.alloc(), &world, status, told);
    }
}

/// Programs that are refused, with the line that says why.
const REFUSED: [(&[u8], &str); 44] = [
    (
        b"thread t() priority 1 { let a = 0; atomic { a = 1; } }",
        "program 1:45 NotAllowedHere\n",
    ),
    (b"fn f() { ploop { } }", "program 1:10 NotAllowedHere\n"),
    (
        b"thread t() priority 1 { print x; }",
        "program 1:31 UnknownName\n",
    ),
    (
        b"thread t() priority 4294967296 { }",
        "program 1:21 NumberTooLarge\n",
    ),
    (b"thread t() priority 8 { }", "program 1:21 OutOfRange 8\n"),
    (
        b"thread t() priority 9 { print x; }",
        "program 1:21 OutOfRange 9\n",
    ),
    (b"thread t(", "program 1:10 Expected\n"),
    (b"\xff", "program 1:1 BadToken\n"),
    (
        b"fn f(a, b, c, d, e, g, h, i, j) { }",
        "program 1:30 TooMany parameters 9\n",
    ),
    (
        b"type T { a }\n// a comment\nobject o: T;\nobject o: T;",
        "program 4:8 TwiceNamed\n",
    ),
    (
        b"fn f(a) { return a; } thread t() priority 1 { f(); }",
        "program 1:47 WrongCount\n",
    ),
    // Declarations that are not served yet.
    (b"type T { a, b }", NOT_YET),
    (b"queue q[1];", NOT_YET),
    (b"queue q[1] input 3;", NOT_YET),
    (b"semaphore s = 0 max 1;", NOT_YET),
    (b"thread t(a) priority 1 { }", NOT_YET),
    (b"thread t(a) priority 1 { } start t(1);", NOT_YET),
    (b"thread t() priority 1 { } start t(); start t();", NOT_YET),
    (
        b"thread t() priority 1 { } thread u() priority 1 { } start t(); start u();",
        NOT_YET,
    ),
    // Calls that are not.
    (b"thread t() priority 1 { spawn t(); }", NOT_YET),
    (b"thread t() priority 1 { delete self; }", NOT_YET),
    (b"thread t() priority 1 { delete 1; }", NOT_YET),
    (b"thread t() priority 1 { setprio self, 2; }", NOT_YET),
    (b"thread t() priority 1 { getprio 0; }", NOT_YET),
    (b"thread t() priority 1 { yield; }", NOT_YET),
    (b"thread t() priority 1 { delay 1; }", NOT_YET),
    (b"thread t() priority 1 { now; }", NOT_YET),
    (
        b"queue q[1]; thread t() priority 1 { send q, 1, 0; }",
        NOT_YET,
    ),
    (
        b"queue q[1]; thread t() priority 1 { receive q, 0; }",
        NOT_YET,
    ),
    (b"queue q[1]; thread t() priority 1 { waiting q; }", NOT_YET),
    (
        b"semaphore s = 0 max 1; thread t() priority 1 { take s, 0; }",
        NOT_YET,
    ),
    (
        b"semaphore s = 0 max 1; thread t() priority 1 { give s; }",
        NOT_YET,
    ),
    (b"thread t() priority 1 { ploop { print \"a\"; } }", NOT_YET),
    // Operations of blocks that are not.
    (
        b"type T { v } thread t() priority 1 { atomic { let x = new T; } }",
        NOT_YET,
    ),
    (
        b"type T { v } thread t() priority 1 { atomic { let x = 0; x = new T; } }",
        NOT_YET,
    ),
    (
        b"type T { v } thread t() priority 1 { atomic { free 2; } }",
        NOT_YET,
    ),
    (
        b"type T { v } thread t() priority 1 { atomic { let x = 2; x.T.v = 1; } }",
        NOT_YET,
    ),
    (
        b"type T { v } thread t() priority 1 { let k = 2; let x = 0; atomic -> k, x { give k.T.v; } }",
        NOT_YET,
    ),
    (
        b"type T { v } thread t() priority 1 { atomic { let x = 2; if !x.T.v { abort; } } }",
        NOT_YET,
    ),
    // Calls that are not served, where no run comes to.
    (b"fn f() { now; }", NOT_YET),
    (b"fn f() { if 0 { while 0 { yield; } } }", NOT_YET),
    (
        b"fn f() { atomic { if 0 { } else { while 0 { free 0; } } } }",
        NOT_YET,
    ),
    (
        b"thread t() priority 1 { if 0 { } else { delay 0; } }",
        NOT_YET,
    ),
    (b"thread t() priority 1 { return; now; }", NOT_YET),
];

#[test]
fn refused_programs(rt: HostRuntime) {
    for (program, told) in REFUSED {
        let world = World::of("run p 2", program);
        check_refusal(&rt, rt.alloc(), &world, 4, told);
    }
}

/// The longest program there is, which has no thread, and one that is a byte longer.
#[test]
fn long_programs(rt: HostRuntime) {
    let longest = " ".repeat(rt.alloc(), 65_536).expect(&rt, "no memory");
    let report = "boot 1 start at 0 undone 0 replayed 0\n\
        boot 1 end at 2\n\
        events 2\n\
        ticks 0\n\
        console 0\n";
    let world = World::of("run p 2", longest.as_bytes());
    let _nv = device_left_by(&rt, rt.alloc(), &world, 0, report);
    let too_long = " ".repeat(rt.alloc(), 65_537).expect(&rt, "no memory");
    let world = World::of("run p 2", too_long.as_bytes());
    check_refusal(&rt, rt.alloc(), &world, 4, "program TooLong\n");
}
