// The heap's words, read and stored through an open transaction.
ghost use Rattle.std.specs.Prelude.{◌≡◌, ◌+◌, ◌<◌, ◌≤◌, IsErr, OnOk, OnErr, Some};
ghost use Rattle.nv_memory.specs.Budget.{IsShort};
ghost use Rattle.undo_journal.specs.Undo.{outside, room_of};
ghost use Rattle.undo_journal.specs.Lending.{IsLent, IsWithin};
ghost use Rattle.persistent_heap.specs.Holes.{link_word, with_link, with_hole};

use crate::hole::Hole;
use crate::layout::{FIRST, HEAP};
use crate::link::Link;
use nv_memory::{Cut, Nv};
use undo_journal::{Open, Words};

/// The word that a link stands in.
fn word_of(link: Link) -> u32
    requires within { link_word link < 11904 }
    ensures word { result ≡ link_word link }
{
    match link {
        Link::First => FIRST,
        Link::Behind(place) => HEAP + (place + 1),
    }
}

/// The word at a place of the heap.
#[tactic(auto, using(undo_journal::proofs::Callers::outside_laws))]
pub(crate) fn heap_word<N: Nv>(tx: &Open<N>, place: u32) -> u32
    requires within { place < 4096 }
    ensures word { result ≡ outside (N.words tx.now) (7808 + place) }
{
    tx.word(HEAP + place)
}

/// The place that a link leads to, or 0.
#[tactic(auto, using(undo_journal::proofs::Callers::outside_laws))]
pub(crate) fn led_to<N: Nv>(tx: &Open<N>, link: Link) -> u32
    requires within { link_word link < 11904 }
    ensures place { result ≡ outside (N.words tx.now) (link_word link) }
{
    tx.word(word_of(link))
}

/// Leads a link to a place, or to 0.
pub(crate) fn store_link<N: Nv>(tx: &mut Open<N>, link: Link, place: u32) -> Result<(), Cut>
    requires within { link_word link < 11904 }
    requires room { 1 ≤ room_of (N.words tx.old) }
    ensures cut { IsErr result → IsShort (N.left tx.old) 4 }
    ensures dark { OnErr result (N.left tx.new ≡ Some 0) }
    ensures stored { OnOk result (outside (N.words tx.new) ≡ with_link (outside (N.words tx.old)) link place) }
    ensures lent { IsLent N.Nv tx.old tx.new }
    ensures within { OnOk result (IsWithin N.Nv tx.old tx.new 1) }
{
    tx.put(word_of(link), place)?;
    Ok(())
}

/// Stores a hole: its size, and the place of the hole behind it, or 0.
pub(crate) fn store_hole<N: Nv>(tx: &mut Open<N>, hole: Hole, next: u32) -> Result<(), Cut>
    requires within { hole.place + 2 ≤ 4096 }
    requires room { 2 ≤ room_of (N.words tx.old) }
    ensures cut { IsErr result → IsShort (N.left tx.old) 8 }
    ensures dark { OnErr result (N.left tx.new ≡ Some 0) }
    ensures stored { OnOk result (outside (N.words tx.new) ≡ with_hole (outside (N.words tx.old)) hole next) }
    ensures lent { IsLent N.Nv tx.old tx.new }
    ensures within { OnOk result (IsWithin N.Nv tx.old tx.new 2) }
{
    tx.put(HEAP + hole.place, hole.size)?;
    tx.put(HEAP + (hole.place + 1), next)?;
    Ok(())
}

/// Stores a hole and leads a link to it.
pub(crate) fn insert<N: Nv>(tx: &mut Open<N>, link: Link, hole: Hole, next: u32) -> Result<(), Cut>
    requires link { link_word link < 11904 }
    requires hole { hole.place + 2 ≤ 4096 }
    requires room { 3 ≤ room_of (N.words tx.old) }
    ensures cut { IsErr result → IsShort (N.left tx.old) 12 }
    ensures dark { OnErr result (N.left tx.new ≡ Some 0) }
    ensures stored { OnOk result (outside (N.words tx.new) ≡ with_link (with_hole (outside (N.words tx.old)) hole next) link hole.place) }
    ensures lent { IsLent N.Nv tx.old tx.new }
    ensures within { OnOk result (IsWithin N.Nv tx.old tx.new 3) }
{
    store_hole(tx, hole, next)?;
    store_link(tx, link, hole.place)?;
    Ok(())
}
