// The parts of a dump on a device in memory, against texts worked out by hand. Names are empty here: the program
// declares nothing.
use crate::fixtures::{close, program_of, put, transaction};
use kernel_dump::{Line, put_console, put_objects, put_ready, put_rows};
use kernel_image::Cell;
use nv_memory::Nv;
use outer_world::MemSink;
use std::alloc::Global;
use std::process::Abort;
use thread_check::{Checked, discard};
use undo_journal::Open;

fn sink(rt: &impl Abort, alloc: Global) -> MemSink {
    MemSink::new(alloc, 1_000, Vec::new(alloc)).expect(rt, "no memory")
}

#[test]
fn one_piece_for_a_line(rt: HostRuntime) {
    let mut sink = sink(&rt, rt.alloc());
    assert!(rt;
        Line::new("a")
            .word(" b")
            .bytes(b"c")
            .number(70)
            .put(&mut sink)
            .is_ok()
    );
    assert_eq!(rt; sink.bytes(), b"a bc70\n".as_slice());
}

// Two ready threads of one priority, the later one first, and one that has ended.
fn puts_threads<N: Nv>(rt: &impl Abort, tx: &mut Open<N>, program: &Checked, sink: &mut MemSink) {
    for (thread, word, value) in [
        (1, 0, 1),
        (1, 2, 3),
        (1, 8, 9),
        (2, 0, 4),
        (2, 3, 2),
        (15, 0, 1),
        (15, 2, 3),
        (15, 8, 4),
    ] {
        put(rt, tx, Cell::RowWord(thread, word), value);
    }
    assert!(rt; put_rows(tx, program, sink).is_ok());
    assert!(rt; put_ready(tx, sink).is_ok());
}

#[test]
fn threads_and_lists(rt: HostRuntime) {
    let program = program_of(&rt, rt.alloc(), b"");
    let mut sink = sink(&rt, rt.alloc());
    let mut tx = transaction(&rt, rt.alloc());
    puts_threads(&rt, &mut tx, &program, &mut sink);
    assert_eq!(rt;
        sink.bytes(),
        b"thread 1  priority 3 ready\nthread 2  priority 0 ended 2\nthread 15  priority 3 ready\nlist ready 3: 15 1\n".as_slice()
    );
    close(&rt, tx);
    discard(program);
}

// The first and the last place at which an object can be.
fn puts_objects<N: Nv>(rt: &impl Abort, tx: &mut Open<N>, program: &Checked, sink: &mut MemSink) {
    put(rt, tx, Cell::HeapWord(2), 65_537);
    put(rt, tx, Cell::HeapWord(4_094), 1);
    put(rt, tx, Cell::LiveWord(0), 2);
    put(rt, tx, Cell::LiveWord(63), 2_147_483_648);
    assert!(rt; put_objects(tx, program, sink).is_ok());
}

// A whole line, and one that has not ended.
fn puts_console<N: Nv>(rt: &impl Abort, tx: &mut Open<N>, sink: &mut MemSink) {
    put(rt, tx, Cell::Header(5), 4);
    put(rt, tx, Cell::ConsoleWord(0), 1_684_146_785);
    assert!(rt; console_store::length(tx) <= 8_192);
    assert!(rt; put_console(tx, sink).is_ok());
}

#[test]
fn objects_and_console(rt: HostRuntime) {
    let program = program_of(&rt, rt.alloc(), b"");
    let mut sink = sink(&rt, rt.alloc());
    let mut tx = transaction(&rt, rt.alloc());
    puts_objects(&rt, &mut tx, &program, &mut sink);
    puts_console(&rt, &mut tx, &mut sink);
    assert_eq!(rt;
        sink.bytes(),
        b"object 2  static\nobject 4094  made\nconsole 4\n| a\n| bd\n".as_slice()
    );
    close(&rt, tx);
    discard(program);
}
