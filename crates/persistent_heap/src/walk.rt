// Walks along the holes, in order of place.
ghost use Rattle.std.specs.Prelude.{◌≡◌, ℕ, ◌+◌, ◌<◌, ◌≤◌, ◌≢◌, MatchOption, Some};
ghost use Rattle.undo_journal.specs.Undo.{outside};
ghost use Rattle.persistent_heap.specs.Holes.{IsHeap, holes, free, link_word};
ghost use Rattle.persistent_heap.specs.Walk.{Stands, Each, Fits, Parts, first_of};

use crate::hole::Hole;
use crate::link::Link;
use crate::words::{heap_word, led_to};
use nv_memory::Nv;
use undo_journal::Open;

/// The hole that a link leads to.
pub(crate) fn next_hole<N: Nv>(tx: &Open<N>, link: Link) -> Option<Hole>
    requires heap { IsHeap (holes (outside (N.words tx.now))) }
    requires stands { Stands (outside (N.words tx.now)) link }
    ensures hole { (at : Stands (outside (N.words tx.now)) link) → result ≡ first_of at.rest }
{
    let place = led_to(tx, link);
    if place == 0 {
        return None;
    }
    let size = heap_word(tx, place);
    Some(Hole { place, size })
}

/// The first hole of at least so many places, and the link that leads to it.
pub(crate) fn first_fit<N: Nv>(tx: &Open<N>, words: u32) -> Option<(Link, Hole)>
    requires heap { IsHeap (holes (outside (N.words tx.now))) }
    ensures fit { MatchOption result (Each (λ hole. hole.size < words) (holes (outside (N.words tx.now)))) (λ found. Fits (outside (N.words tx.now)) words found.0 found.1) }
{
    let mut link = Link::First;
    while let Some(hole) = next_hole(tx, link) {
        if words <= hole.size {
            return Some((link, hole));
        }
        link = Link::Behind(hole.place);
    }
    None
}

/// The link that leads to the holes behind a place.
pub(crate) fn parting<N: Nv>(tx: &Open<N>, place: u32) -> Link
    requires heap { IsHeap (holes (outside (N.words tx.now))) }
    ensures parts { Parts (outside (N.words tx.now)) place result }
{
    let mut link = Link::First;
    while let Some(hole) = next_hole(tx, link) {
        if place < hole.place {
            return link;
        }
        link = Link::Behind(hole.place);
    }
    link
}
