// Programs that keep the rules of names and the limits, and some that don't.
use crate::fixtures::{fault_of_program, program_of};
use thread_check::{CheckFault, Kind};
use thread_tree::Place;

// Each kind of fault with its place. In the last two rows the ninth item of a print is one too many: at its place an
// unknown name comes first, and one that stands further on doesn't.
#[test]
fn a_program_is_refused_at_its_first_fault(rt: HostRuntime) {
    let cases: [(&[u8], CheckFault); 10] = [
        (
            b"thread t() priority 8 { }",
            CheckFault::OutOfRange(
                Place {
                    line: 1,
                    column: 21,
                },
                8,
            ),
        ),
        (
            b"thread t() priority 1 { print x; }",
            CheckFault::UnknownName(Place {
                line: 1,
                column: 31,
            }),
        ),
        (
            b"thread t() priority 1 { print t; }",
            CheckFault::NotAllowedHere(Place {
                line: 1,
                column: 31,
            }),
        ),
        (
            b"fn f() { ploop { } }",
            CheckFault::NotAllowedHere(Place {
                line: 1,
                column: 10,
            }),
        ),
        (
            b"fn f(f) { }",
            CheckFault::TwiceNamed(Place { line: 1, column: 6 }),
        ),
        (
            b"fn f(a, b, c, d, e, g, h, i, j) { }",
            CheckFault::TooMany(
                Place {
                    line: 1,
                    column: 30,
                },
                Kind::Parameters,
                9,
            ),
        ),
        (
            b"thread t(a) priority 1 { } start t();",
            CheckFault::WrongCount(Place {
                line: 1,
                column: 34,
            }),
        ),
        (
            b"thread t() priority 1 { let a = 0; atomic { a = 1; } }",
            CheckFault::NotAllowedHere(Place {
                line: 1,
                column: 45,
            }),
        ),
        (
            b"thread t() priority 1 { print 0, 0, 0, 0, 0, 0, 0, 0, x; }",
            CheckFault::UnknownName(Place {
                line: 1,
                column: 55,
            }),
        ),
        (
            b"thread t() priority 1 { print 0, 0, 0, 0, 0, 0, 0, 0, 1 + x; }",
            CheckFault::TooMany(
                Place {
                    line: 1,
                    column: 55,
                },
                Kind::Items,
                9,
            ),
        ),
    ];
    for (text, fault) in cases {
        assert_eq!(rt; fault_of_program(&rt, rt.alloc(), text), Some(fault));
    }
}

#[test]
fn a_program_is_accepted(rt: HostRuntime) {
    let program = program_of(
        &rt,
        rt.alloc(),
        b"thread t() priority 1 { print 7; } start t();",
    );
    assert_eq!(rt; program.tree().decls.len(), 2);
    thread_check::discard(program);
}
