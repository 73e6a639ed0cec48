// Taking a block.
ghost use Rattle.std.specs.Prelude.{◌≡◌, ◌+◌, ◌<◌, ◌≤◌, IsErr, OnOk, OnErr, IfOk, Ok, Some};
ghost use Rattle.nv_memory.specs.Budget.{IsShort};
ghost use Rattle.undo_journal.specs.Undo.{outside, room_of};
ghost use Rattle.undo_journal.specs.Lending.{IsLent, IsWithin};
ghost use Rattle.persistent_heap.specs.Holes.{IsEven, IsHeap, IsLeast, HeapBecomes, holes, free, without_block};
ghost use Rattle.persistent_heap.specs.Walk.{Fits};

use crate::hole::Hole;
use crate::link::Link;
use crate::walk::first_fit;
use crate::words::{heap_word, insert, store_link};
use nv_memory::{Cut, Nv};
use undo_journal::Open;

/// Takes a block from the front of a larger hole.
fn shorten<N: Nv>(tx: &mut Open<N>, link: Link, hole: Hole, words: u32) -> Result<(), Cut>
    requires even { IsEven words }
    requires larger { words < hole.size }
    requires heap { IsHeap (holes (outside (N.words tx.old))) }
    requires fits { Fits (outside (N.words tx.old)) words link hole }
    requires room { 3 ≤ room_of (N.words tx.old) }
    ensures cut { IsErr result → IsShort (N.left tx.old) 12 }
    ensures dark { OnErr result (N.left tx.new ≡ Some 0) }
    ensures lent { IsLent N.Nv tx.old tx.new }
    ensures within { OnOk result (IsWithin N.Nv tx.old tx.new 3) }
    ensures taken { OnOk result (HeapBecomes (outside (N.words tx.old)) (outside (N.words tx.new)) (without_block (free (outside (N.words tx.old))) hole.place words)) }
{
    let next = heap_word(tx, hole.place + 1);
    let rest = Hole {
        place: hole.place + words,
        size: hole.size - words,
    };
    insert(tx, link, rest, next)?;
    Ok(())
}

/// Takes a block that is a whole hole.
#[tactic(auto, using(undo_journal::proofs::Callers::weakening_laws))]
fn use_up<N: Nv>(tx: &mut Open<N>, link: Link, hole: Hole, words: u32) -> Result<(), Cut>
    requires whole { hole.size ≤ words }
    requires heap { IsHeap (holes (outside (N.words tx.old))) }
    requires fits { Fits (outside (N.words tx.old)) words link hole }
    requires room { 3 ≤ room_of (N.words tx.old) }
    ensures cut { IsErr result → IsShort (N.left tx.old) 12 }
    ensures dark { OnErr result (N.left tx.new ≡ Some 0) }
    ensures lent { IsLent N.Nv tx.old tx.new }
    ensures within { OnOk result (IsWithin N.Nv tx.old tx.new 3) }
    ensures taken { OnOk result (HeapBecomes (outside (N.words tx.old)) (outside (N.words tx.new)) (without_block (free (outside (N.words tx.old))) hole.place words)) }
{
    let next = heap_word(tx, hole.place + 1);
    store_link(tx, link, next)?;
    Ok(())
}

/// Takes a block from the front of a hole.
fn take_front<N: Nv>(tx: &mut Open<N>, link: Link, hole: Hole, words: u32) -> Result<(), Cut>
    requires even { IsEven words }
    requires heap { IsHeap (holes (outside (N.words tx.old))) }
    requires fits { Fits (outside (N.words tx.old)) words link hole }
    requires room { 3 ≤ room_of (N.words tx.old) }
    ensures cut { IsErr result → IsShort (N.left tx.old) 12 }
    ensures dark { OnErr result (N.left tx.new ≡ Some 0) }
    ensures lent { IsLent N.Nv tx.old tx.new }
    ensures within { OnOk result (IsWithin N.Nv tx.old tx.new 3) }
    ensures taken { OnOk result (HeapBecomes (outside (N.words tx.old)) (outside (N.words tx.new)) (without_block (free (outside (N.words tx.old))) hole.place words)) }
{
    if words < hole.size {
        shorten(tx, link, hole, words)?;
    } else {
        use_up(tx, link, hole, words)?;
    }
    Ok(())
}

/// Takes a block of 2 to 12 words, an even number, at the least place from which so many places are free, and
/// answers that place. It is even. Where there is none, the answer is 0 and nothing has changed. The words of the
/// block may hold anything. `Cut` comes only where fewer than 12 writes were left.
#[tactic(auto, using(undo_journal::proofs::Callers::weakening_laws))]
pub fn take<N: Nv>(tx: &mut Open<N>, words: u32) -> Result<u32, Cut>
    requires even { IsEven words }
    requires some { 2 ≤ words }
    requires few { words ≤ 12 }
    requires heap { IsHeap (holes (outside (N.words tx.old))) }
    requires room { 3 ≤ room_of (N.words tx.old) }
    ensures cut { IsErr result → IsShort (N.left tx.old) 12 }
    ensures dark { OnErr result (N.left tx.new ≡ Some 0) }
    ensures lent { IsLent N.Nv tx.old tx.new }
    ensures within { OnOk result (IsWithin N.Nv tx.old tx.new 3) }
    ensures least { IfOk result (λ place. IsLeast (free (outside (N.words tx.old))) words place) }
    ensures none { result ≡ Ok 0 → tx.new ≡ tx.old }

    // The free places become those before the call but for the block; no word changes but those that hold the holes.
    ensures taken { IfOk result (λ place. 0 < place → HeapBecomes (outside (N.words tx.old)) (outside (N.words tx.new)) (without_block (free (outside (N.words tx.old))) place words)) }
    ensures heap { OnOk result (IsHeap (holes (outside (N.words tx.new)))) }
{
    match first_fit(tx, words) {
        None => Ok(0),
        Some((link, hole)) => {
            take_front(tx, link, hole, words)?;
            Ok(hole.place)
        }
    }
}
