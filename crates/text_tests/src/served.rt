// Programs that are served, and some that aren't yet.
use crate::fixtures::program_of;
use served_program::{is_served, served_laws};

// A block of `atomic` is served, and `yield` isn't.
#[test]
fn served_programs_are_told_apart(rt: HostRuntime) {
    let cases: [(&[u8], bool); 2] = [
        (b"thread t() priority 1 { atomic { abort; } }", true),
        (b"thread t() priority 1 { yield; }", false),
    ];
    for (text, served) in cases {
        let program = program_of(&rt, rt.alloc(), text);
        assert_eq!(rt; is_served(&program), served);
        thread_check::discard(program);
    }
    served_laws();
}
