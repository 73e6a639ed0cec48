// A heap on a device in memory, and its blocks taken and given back.
ghost use Rattle.std.specs.Prelude.{◌≡◌, ℕ, ◌+◌, ◌<◌, ◌≤◌};
ghost use Rattle.undo_journal.specs.Undo.{IsJournalled, outside};
ghost use Rattle.persistent_heap.specs.Holes.{IsEven, IsHeap, IsTaken, holes, free};

use crate::fixtures::{idle_of, settled};
use nv_memory::{Nv, SimNv};
use persistent_heap::{give_back, take};
use std::alloc::Global;
use std::process::Abort;
use undo_journal::{MAGIC, Open, Words};

// A device whose heap is one hole.
#[tactic(auto, using(undo_journal::proofs::Callers::at_rest_laws))]
pub(crate) fn formatted(rt: &impl Abort, alloc: Global) -> SimNv
    ensures journalled { IsJournalled (⟦<SimNv as Nv>⟧.words result) }
{
    let mut nv = SimNv::blank(alloc).expect(rt, "no memory");
    assert!(rt; nv.write(0, MAGIC).is_ok());
    assert!(rt; nv.write(6, 2).is_ok());
    assert!(rt; nv.write(7_810, 4_094).is_ok());
    assert_eq!(rt; nv.read(0), MAGIC);
    assert_eq!(rt; nv.read(4), 0);
    nv
}

// A transaction on a device whose heap is one hole.
pub(crate) fn opened<N: Nv + Drop>(rt: &impl Abort, nv: N) -> Open<N>
    requires journalled { IsJournalled (N.words nv) }
    ensures heap { IsHeap (holes (outside (N.words result))) }
{
    let tx = idle_of(rt, settled(nv)).begin();
    assert_empty(rt, &tx);
    tx
}

// The heap is one hole.
#[tactic(auto, using(persistent_heap::proofs::Callers::formatted_laws, undo_journal::proofs::Callers::outside_laws))]
pub(crate) fn assert_empty<N: Nv>(rt: &impl Abort, tx: &Open<N>)
    ensures heap { IsHeap (holes (outside (N.words tx.now))) }
{
    let (first, size, next) = (tx.word(6), tx.word(7_810), tx.word(7_811));
    assert_eq!(rt; first, 2);
    assert_eq!(rt; size, 4_094);
    assert_eq!(rt; next, 0);
}

// Takes a block that must lie at this place, or nowhere, which is 0.
#[tactic(auto, using(persistent_heap::proofs::Callers::taken_laws))]
pub(crate) fn taken_at<N: Nv>(rt: &impl Abort, tx: &mut Open<N>, words: u32, place: u32)
    requires even { IsEven words }
    requires some { 2 ≤ words }
    requires few { words ≤ 12 }
    requires heap { IsHeap (holes (outside (N.words tx.old))) }
    ensures heap { IsHeap (holes (outside (N.words tx.new))) }
    ensures block { 0 < place → IsTaken (free (outside (N.words tx.new))) place words }
    ensures others { (first count : ℕ) → IsTaken (free (outside (N.words tx.old))) first count → IsTaken (free (outside (N.words tx.new))) first count }
{
    assert!(rt; tx.room() >= 3);
    match take(tx, words) {
        Ok(found) => assert!(rt; found == place, "{words} words at {found}, not {place}"),
        Err(_) => panic!(rt; "cut"),
    }
}

// Gives a block back.
#[tactic(auto, using(persistent_heap::proofs::Callers::taken_laws))]
pub(crate) fn given_back<N: Nv>(rt: &impl Abort, tx: &mut Open<N>, place: u32, words: u32)
    requires even_place { IsEven place }
    requires even_words { IsEven words }
    requires some { 2 ≤ words }
    requires few { words ≤ 12 }
    requires low { 2 ≤ place }
    requires high { place + words ≤ 4096 }
    requires heap { IsHeap (holes (outside (N.words tx.old))) }
    requires taken { IsTaken (free (outside (N.words tx.old))) place words }
    ensures heap { IsHeap (holes (outside (N.words tx.new))) }
    ensures others { (first count : ℕ) → place + words ≤ first → IsTaken (free (outside (N.words tx.old))) first count → IsTaken (free (outside (N.words tx.new))) first count }
{
    assert!(rt; tx.room() >= 3);
    assert!(rt; give_back(tx, place, words).is_ok());
}

// Undoes all that was done, and lets the device go.
pub(crate) fn ended<N: Nv + Drop>(rt: &impl Abort, tx: Open<N>) {
    idle_of(rt, tx.undo()).rest();
}
