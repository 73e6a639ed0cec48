// Texts that aren't read.
use crate::fixtures::fault_of_text;
use crate::sensor_program::SENSOR_PROGRAM;
use thread_text::TextFault;
use thread_tree::Place;

// The first fault is answered with its place, also where others stand behind it. The last three rows pass the bounds of
// operators, parentheses and blocks by one.
#[test]
fn a_text_is_refused_at_its_first_fault(rt: HostRuntime) {
    let cases: [(&[u8], TextFault); 14] = [
        (
            b"thread t(",
            TextFault::Expected(Place {
                line: 1,
                column: 10,
            }),
        ),
        (
            b"thread t() priority 4294967296 { }",
            TextFault::NumberTooLarge(Place {
                line: 1,
                column: 21,
            }),
        ),
        (b"\xff", TextFault::BadToken(Place { line: 1, column: 1 })),
        (
            b"type 4294967296",
            TextFault::NumberTooLarge(Place { line: 1, column: 6 }),
        ),
        (
            b"} nnnnnnnnnnnnnnnnnnnnnnnnn",
            TextFault::Expected(Place { line: 1, column: 1 }),
        ),
        (
            b"thread t() priority 1 { x = y z; }",
            TextFault::Expected(Place {
                line: 1,
                column: 31,
            }),
        ),
        (
            b"thread t() priority 1 { print a->b c; }",
            TextFault::Expected(Place {
                line: 1,
                column: 36,
            }),
        ),
        (
            b"thread t() priority 1 { x = r.v; }",
            TextFault::Expected(Place {
                line: 1,
                column: 30,
            }),
        ),
        (
            b"thread t() priority 1 { x = 1 + + 1; }",
            TextFault::Expected(Place {
                line: 1,
                column: 33,
            }),
        ),
        (
            b"thread t() priority 1 { print nnnnnnnnnnnnnnnnnnnnnnnnn; }",
            TextFault::TooLong(Place {
                line: 1,
                column: 31,
            }),
        ),
        (
            b"start t() @",
            TextFault::BadToken(Place {
                line: 1,
                column: 11,
            }),
        ),
        (
            b"thread t() priority 1 { let a = 1+1+1+1+1+1+1+1+1+1+1+1+1+1+1+1+1+1+1+1+1+1+1+1+1+1+1+1+1+1+1+1+1+1; }",
            TextFault::TooLong(Place {
                line: 1,
                column: 98,
            }),
        ),
        (
            b"thread t() priority 1 { let a = (((((((((((((((((((((((((((((((((((((((((((((((((((((((((((((((((1))))))))))))))))))))))))))))))))))))))))))))))))))))))))))))))))); }",
            TextFault::TooLong(Place {
                line: 1,
                column: 97,
            }),
        ),
        (
            b"thread t() priority 1 {if 1{if 1{if 1{if 1{if 1{if 1{if 1{if 1{if 1{if 1{if 1{if 1{if 1{if 1{if 1{if 1{if 1{if 1{if 1{if 1{if 1{if 1{if 1{if 1{}}}}}}}}}}}}}}}}}}}}}}}}}",
            TextFault::TooLong(Place {
                line: 1,
                column: 143,
            }),
        ),
    ];
    for (text, fault) in cases {
        assert_eq!(rt; fault_of_text(rt.alloc(), text), Some(fault));
    }
}

// Where the text is cut off it is read, more is expected, or a string isn't closed.
#[test]
fn each_beginning_of_a_program_has_an_answer(rt: HostRuntime) {
    for end in 0..SENSOR_PROGRAM.len() {
        let fault = fault_of_text(rt.alloc(), &SENSOR_PROGRAM[..end]);
        assert!(rt;
            matches!(
                fault,
                None | Some(TextFault::Expected(_) | TextFault::BadToken(_))
            )
        );
    }
}
