// Where blocks are taken, and what becomes of the holes that they leave.
use crate::blocks::{assert_empty, ended, formatted, given_back, opened, taken_at};

// Each block is taken at the least place where it fits, also in holes that were given back.
#[test]
fn least_place(rt: HostRuntime) {
    let mut tx = opened(&rt, formatted(&rt, rt.alloc()));
    taken_at(&rt, &mut tx, 12, 2);
    taken_at(&rt, &mut tx, 2, 14);
    taken_at(&rt, &mut tx, 4, 16);
    given_back(&rt, &mut tx, 2, 12);
    taken_at(&rt, &mut tx, 4, 2);
    taken_at(&rt, &mut tx, 12, 20);
    given_back(&rt, &mut tx, 14, 2);
    taken_at(&rt, &mut tx, 10, 6);
    ended(&rt, tx);
}

// All 4,094 places can be taken, and then none.
#[test]
fn full_heap(rt: HostRuntime) {
    let mut tx = opened(&rt, formatted(&rt, rt.alloc()));
    for block in 0..341 {
        taken_at(&rt, &mut tx, 12, 2 + 12 * block);
    }
    taken_at(&rt, &mut tx, 12, 0);
    taken_at(&rt, &mut tx, 2, 4_094);
    taken_at(&rt, &mut tx, 2, 0);
    ended(&rt, tx);
}

// A block that is given back between two holes makes one of the three.
#[test]
fn merged_on_both_sides(rt: HostRuntime) {
    let mut tx = opened(&rt, formatted(&rt, rt.alloc()));
    taken_at(&rt, &mut tx, 2, 2);
    taken_at(&rt, &mut tx, 2, 4);
    given_back(&rt, &mut tx, 2, 2);
    given_back(&rt, &mut tx, 4, 2);
    assert_empty(&rt, &tx);
    ended(&rt, tx);
}
