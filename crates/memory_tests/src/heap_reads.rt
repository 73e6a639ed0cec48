// How many words the calls of the heap read, besides one that `taken_at` and `given_back` read each time to see the
// room.
ghost use Rattle.std.specs.Prelude.{ℕ, ◌+◌, ◌*◌, ◌<◌};
ghost use Rattle.undo_journal.specs.Undo.{outside};
ghost use Rattle.persistent_heap.specs.Holes.{IsHeap, IsTaken, holes, free};

use crate::blocks::{ended, formatted, given_back, opened, taken_at};
use crate::counted::Counted;
use std::cell::Cell;

// A block at the front of the one hole costs 15 words, and the answer that none fits 3.
#[test]
fn words_read(rt: HostRuntime) {
    let reads = Cell::new(0u32);
    let nv = formatted(&rt, rt.alloc());
    let mut tx = opened(&rt, Counted { nv, reads: &reads });
    for block in 0..341 {
        reads.set(0);
        taken_at(&rt, &mut tx, 12, 2 + 12 * block);
        assert_eq!(rt; reads.get(), 15 + 1);
    }
    reads.set(0);
    taken_at(&rt, &mut tx, 12, 0);
    assert_eq!(rt; reads.get(), 3 + 1);
    ended(&rt, tx);
}

// The same behind 100 holes that are too small.
#[test]
fn words_read_behind_holes(rt: HostRuntime) {
    let reads = Cell::new(0u32);
    let nv = formatted(&rt, rt.alloc());
    let mut tx = opened(&rt, Counted { nv, reads: &reads });
    for hole in 0..100u32 {
        taken_at(&rt, &mut tx, 2, 2 + 4 * hole);
        taken_at(&rt, &mut tx, 2, 4 + 4 * hole);
    }
    for hole in 0..100u32 {
        given_back(&rt, &mut tx, 2 + 4 * hole, 2);
    }
    reads.set(0);
    taken_at(&rt, &mut tx, 12, 402);
    assert_eq!(rt; reads.get(), 215 + 1);
    reads.set(0);
    given_back(&rt, &mut tx, 402, 12);
    assert_eq!(rt; reads.get(), 218 + 1);
    ended(&rt, tx);
}
