// Transactions on a device in memory, of which word 1 is 3 at first.
ghost use Rattle.std.specs.Prelude.{◌≡◌};
ghost use Rattle.undo_journal.specs.Undo.{IsJournalled, room_of};

use crate::fixtures::{dark_of, idle_of, settled};
use nv_memory::{Nv, SimNv};
use std::alloc::Global;
use std::process::Abort;
use undo_journal::{Dark, Idle, MAGIC, Open, Words};

// A formatted device under budgets.
#[tactic(auto, using(undo_journal::proofs::Callers::at_rest_laws))]
fn device(rt: &impl Abort, alloc: Global, budgets: &[u32]) -> SimNv
    ensures journalled { IsJournalled (⟦<SimNv as Nv>⟧.words result) }
{
    let mut nv = SimNv::blank(alloc).expect(rt, "no memory");
    assert!(rt; nv.write(0, MAGIC).is_ok());
    assert!(rt; nv.write(1, 3).is_ok());
    assert!(rt; nv.plan(alloc, budgets).is_ok());
    assert_eq!(rt; nv.read(0), MAGIC);
    assert_eq!(rt; nv.read(4), 0);
    nv
}

// A transaction on that device.
fn opened(rt: &impl Abort, alloc: Global, budgets: &[u32]) -> Open<SimNv>
    ensures room { room_of (⟦<SimNv as Nv>⟧.words result) ≡ 1280 }
{
    idle_of(rt, settled(device(rt, alloc, budgets))).begin()
}

// Word 1 of a device that is to be idle.
fn first_word<N: Nv + Drop>(rt: &impl Abort, end: Result<Idle<N>, Dark<N>>) -> u32 {
    let idle = idle_of(rt, end);
    let word = idle.word(1);
    idle.rest();
    word
}

// What a transaction stored is undone, and until then it is there, in one entry of the journal each.
#[test]
fn undone(rt: HostRuntime) {
    let mut tx = opened(&rt, rt.alloc(), &[]);
    assert!(rt; tx.put(1, 5).is_ok());
    assert!(rt; tx.put(1, 6).is_ok());
    assert_eq!(rt; (tx.word(1), tx.room()), (6, 1_278));
    assert_eq!(rt; first_word(&rt, tx.undo()), 3);
}

// What a transaction stored is there once it is committed.
#[test]
fn committed(rt: HostRuntime) {
    let mut tx = opened(&rt, rt.alloc(), &[]);
    assert!(rt; tx.put(1, 5).is_ok());
    assert_eq!(rt; first_word(&rt, tx.commit()), 5);
}

// A cut before each of the four writes of a store leaves the word as it was.
#[test]
fn cut_within_a_store(rt: HostRuntime) {
    for writes in 0..4 {
        let mut tx = opened(&rt, rt.alloc(), &[writes]);
        assert!(rt; tx.put(1, 5).is_err());
        let nv = tx.lose().again();
        assert_eq!(rt; first_word(&rt, settled(nv)), 3);
    }
}

// A cut of the undoing, and one of the next boot's, leave the word as it was.
#[test]
fn cut_while_undoing(rt: HostRuntime) {
    let mut tx = opened(&rt, rt.alloc(), &[5, 1]);
    assert!(rt; tx.put(1, 5).is_ok());
    let dark = dark_of(&rt, tx.undo());
    let dark = dark_of(&rt, settled(dark.again()));
    let dark = Dark::of(dark.leave());
    assert_eq!(rt; first_word(&rt, settled(dark.again())), 3);
}
