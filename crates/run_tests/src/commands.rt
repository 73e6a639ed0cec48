// Which words are a command's, and what they ask for.
use crate::words::words_of;
use intos_run::{CommandFault, read_command};
use std::alloc::Global;
use std::process::Abort;

/// A line asks for a run of `p` with so many steps and these budgets, or its words are no command's.
fn check_line(rt: &impl Abort, alloc: Global, line: &str, asked: Option<(u32, &[u32])>) {
    let words = words_of(alloc, line).expect(rt, "no memory");
    match read_command(alloc, &words) {
        Ok(command) => {
            assert_eq!(rt; command.program, "p");
            assert_eq!(rt; Some((command.steps, command.cuts.as_slice())), asked);
        }
        Err(fault) => {
            assert_eq!(rt; fault, CommandFault::Usage, "{line}");
            assert!(rt; asked.is_none(), "{line}");
        }
    }
}

#[test]
fn commands(rt: HostRuntime) {
    let cases = [
        ("run p 2", 2, [].as_slice()),
        ("run p 0 0 1", 0, [0, 1].as_slice()),
        (
            "run p 1000000 4294967295",
            1_000_000,
            [4_294_967_295].as_slice(),
        ),
    ];
    for (line, steps, cuts) in cases {
        check_line(&rt, rt.alloc(), line, Some((steps, cuts)));
    }
}

#[test]
fn other_words(rt: HostRuntime) {
    let lines = [
        "",
        "run",
        "run p",
        "go p 2",
        "run  2",
        "run -p 2",
        "run p 02",
        "run p +1",
        "run p ",
        "run p 1000001",
        "run p 2 4294967296",
        "run p 2 0 one",
    ];
    for line in lines {
        check_line(&rt, rt.alloc(), line, None);
    }
}

/// A thousand budgets are taken, and one more is refused.
#[test]
fn most_cuts(rt: HostRuntime) {
    let words = " 7".repeat(rt.alloc(), 1_000).expect(&rt, "no memory");
    let cuts = vec![in rt.alloc(); 7u32; 1_000].expect(&rt, "no memory");
    let line = format!(in rt.alloc(); "run p 2{words}").expect(&rt, "no memory");
    check_line(&rt, rt.alloc(), &line, Some((2, cuts.as_slice())));
    let line = format!(in rt.alloc(); "run p 2{words} 7").expect(&rt, "no memory");
    check_line(&rt, rt.alloc(), &line, None);
}
