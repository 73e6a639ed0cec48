// Who is chosen, of rows written by hand on a device in memory.
use crate::fixtures::{close, put, transaction};
use kernel_image::Cell;
use nv_memory::Nv;
use ready_delay_lists::chosen;
use std::process::Abort;
use undo_journal::Open;

// The state, the priority and the stamp of a thread.
fn put_row<N: Nv>(
    rt: &impl Abort,
    tx: &mut Open<N>,
    thread: u32,
    state: u32,
    priority: u32,
    stamp: u32,
) {
    put(rt, tx, Cell::RowWord(thread, 0), state);
    put(rt, tx, Cell::RowWord(thread, 2), priority);
    put(rt, tx, Cell::RowWord(thread, 8), stamp);
}

// Of three ready threads two have the greatest priority; a waiting and a delayed one have a greater.
#[test]
fn the_first_of_two_equals(rt: HostRuntime) {
    let mut tx = transaction(&rt, rt.alloc());
    assert_eq!(rt; chosen(&tx), None);
    put_row(&rt, &mut tx, 0, 1, 2, 1);
    assert_eq!(rt; chosen(&tx), Some(0));
    for (thread, state, priority, stamp) in [
        (3, 1, 5, 9),
        (15, 1, 5, 4),
        (7, 3, 7, 2),
        (8, 2, 7, 3),
    ] {
        put_row(&rt, &mut tx, thread, state, priority, stamp);
    }
    assert_eq!(rt; chosen(&tx), Some(15));
    put_row(&rt, &mut tx, 15, 1, 5, 10);
    assert_eq!(rt; chosen(&tx), Some(3));
    close(&rt, tx);
}
