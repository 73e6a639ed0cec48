// The lines of a boot in a sink in memory, to the byte. The kernel is that of a device that was just formatted.
ghost use Rattle.std.specs.Prelude.{◌≡◌, slice_index};

use crate::fixtures::{checked, device, recovered};
use boot_recovery::formatting_stands;
use boot_report::{put_begin, put_cut, put_dark, put_end};
use nv_memory::Nv;
use outer_world::MemSink;
use replay_list::Kernel;
use std::alloc::Global;
use std::marker::Brand;
use std::process::Abort;
use std::sync::ledger::Blank;
use thread_check::{Checked, discard};

/// Two threads that are started, the second one first.
const TWO_THREADS: &[u8] =
    b"thread one(a, b) priority 1 { yield; }\nthread other() priority 2 { yield; }\nstart other();\nstart one(7, 40);\n";

/// A sink that has taken nothing.
fn sink(rt: &impl Abort, alloc: Global) -> MemSink {
    MemSink::new(alloc, 1_000, Vec::new(alloc)).expect(rt, "no memory")
}

/// Formats a device, and puts the lines behind that.
fn begun<N: Nv + Drop>(rt: &impl Abort, nv: N, program: &Checked, sink: &mut MemSink)
    requires blank { slice_index (N.words nv) 0 ≡ 0 }
{
    formatting_stands();
    match recovered::<N, Brand>(nv, program, Blank::new(1)) {
        Ok(kernel) => {
            assert!(rt; put_begin(&kernel, program, sink, 12, 3).is_ok());
            let Kernel { idle, contexts: _ } = kernel;
            idle.rest();
        }
        Err(dark) => {
            dark.leave();
            panic!(rt; "dark")
        }
    }
}

#[test]
fn where_a_boot_starts(rt: HostRuntime) {
    let program = checked(&rt, rt.alloc(), TWO_THREADS);
    let mut sink = sink(&rt, rt.alloc());
    let nv = device(&rt, rt.alloc(), &[]);
    begun(&rt, nv, &program, &mut sink);
    discard(program);
    assert_eq!(rt;
        sink.bytes(),
        b"boot 12 start at 0 undone 3 replayed 0\nboot 12 thread 0 other:\nboot 12 thread 1 one: a=7 b=40\n".as_slice()
    );
}

#[test]
fn how_a_boot_ends(rt: HostRuntime) {
    let mut sink = sink(&rt, rt.alloc());
    assert!(rt; put_dark(&mut sink, 1, false).is_ok());
    assert!(rt; put_dark(&mut sink, 2, true).is_ok());
    assert!(rt; put_cut(&mut sink, 3, 70).is_ok());
    assert!(rt; put_end(&mut sink, 4, 1_000_000).is_ok());
    assert_eq!(rt;
        sink.bytes(),
        b"boot 1 cut in format\nboot 2 cut in undo\nboot 3 cut at 70\nboot 4 end at 1000000\n".as_slice()
    );
}
