// Giving a block back.
ghost use Rattle.std.specs.Prelude.{◌≡◌, ◌+◌, ◌<◌, ◌≤◌, IsErr, OnOk, OnErr, Some, false};
ghost use Rattle.nv_memory.specs.Budget.{IsShort};
ghost use Rattle.undo_journal.specs.Undo.{outside, room_of};
ghost use Rattle.undo_journal.specs.Lending.{IsLent, IsWithin};
ghost use Rattle.persistent_heap.specs.Holes.{IsEven, IsHole, IsHeap, IsTaken, HeapBecomes, holes, free, with_block};
ghost use Rattle.persistent_heap.specs.Walk.{Parts, Joins, Touches};

use crate::hole::Hole;
use crate::link::Link;
use crate::walk::{next_hole, parting};
use crate::words::{heap_word, insert, store_hole};
use nv_memory::{Cut, Nv};
use undo_journal::Open;

/// The block as a hole, with the hole behind it where the two touch, and the place of the hole behind both, or 0.
fn joined<N: Nv>(tx: &Open<N>, link: Link, block: Hole) -> (Hole, u32)
    requires block { IsHole 2 block }
    requires heap { IsHeap (holes (outside (N.words tx.now))) }
    requires taken { IsTaken (free (outside (N.words tx.now))) block.place block.size }
    requires parts { Parts (outside (N.words tx.now)) block.place link }
    ensures joined { (at : Parts (outside (N.words tx.now)) block.place link) → Joins (outside (N.words tx.now)) block at.passed.stands.rest result.0 result.1 }
{
    let Some(hole) = next_hole(tx, link) else {
        return (block, 0);
    };
    if block.place + block.size < hole.place {
        return (block, hole.place);
    }
    let next = heap_word(tx, hole.place + 1);
    let both = Hole {
        place: block.place,
        size: block.size + hole.size,
    };
    (both, next)
}

/// The hole that ends at a place, where one does.
fn touching<N: Nv>(tx: &Open<N>, link: Link, place: u32) -> Option<Hole>
    requires low { 2 ≤ place }
    requires heap { IsHeap (holes (outside (N.words tx.now))) }
    requires taken { free (outside (N.words tx.now)) place ≡ false }
    requires parts { Parts (outside (N.words tx.now)) place link }
    ensures touches { (at : Parts (outside (N.words tx.now)) place link) → Touches at.passed.stands.before place result }
{
    let Link::Behind(last) = link else {
        return None;
    };
    let size = heap_word(tx, last);
    if last + size < place {
        return None;
    }
    Some(Hole { place: last, size })
}

/// Gives back a block of 2 to 12 words, an even number, at an even place: its places become free, and neighbouring
/// holes are merged. `Cut` comes only where fewer than 12 writes were left.
#[tactic(auto, using(undo_journal::proofs::Callers::weakening_laws))]
pub fn give_back<N: Nv>(tx: &mut Open<N>, place: u32, words: u32) -> Result<(), Cut>
    requires even_place { IsEven place }
    requires even_words { IsEven words }
    requires some { 2 ≤ words }
    requires few { words ≤ 12 }
    requires low { 2 ≤ place }
    requires high { place + words ≤ 4096 }
    requires heap { IsHeap (holes (outside (N.words tx.old))) }
    requires taken { IsTaken (free (outside (N.words tx.old))) place words }
    requires room { 3 ≤ room_of (N.words tx.old) }
    ensures cut { IsErr result → IsShort (N.left tx.old) 12 }
    ensures dark { OnErr result (N.left tx.new ≡ Some 0) }
    ensures lent { IsLent N.Nv tx.old tx.new }
    ensures within { OnOk result (IsWithin N.Nv tx.old tx.new 3) }

    // The free places become those before the call and the block; no word changes but those that hold the holes.
    ensures given_back { OnOk result (HeapBecomes (outside (N.words tx.old)) (outside (N.words tx.new)) (with_block (free (outside (N.words tx.old))) place words)) }
{
    let link = parting(tx, place);
    let (hole, next) = joined(tx, link, Hole { place, size: words });
    if let Some(last) = touching(tx, link, place) {
        let both = Hole {
            place: last.place,
            size: last.size + hole.size,
        };
        store_hole(tx, both, next)?;
        return Ok(());
    }
    insert(tx, link, hole, next)?;
    Ok(())
}
