// What is read of the image at a place.
ghost use Rattle.std.specs.Prelude.{◌≡◌, ◌<◌, length, slice_index};
ghost use Rattle.thread_tree.specs.Program.{program_of};
ghost use Rattle.kernel_model.specs.Calls.{capacity_of};
ghost use Rattle.kernel_image.specs.Decoded.{image_in, row_at, queue_at};
ghost use Rattle.kernel_image.specs.Shown.{items_of, state_of, wait_of, what_of};

use crate::cell::Cell;
use crate::cells::load;
use crate::layout::{
    CODE, DELAYED, EVENTS, FREE, FRONT, READY, RECEIVES, SENDS, STATE, TARGET, TICKS, UNTIL, VALUE,
    WAITING, WHAT,
};
use crate::parts::declared_capacity;
use kernel_model::{RowState, Wait, What};
use thread_check::Checked;
use thread_tree::ROWS;
use undo_journal::Words;

/// The event counter.
#[tactic(auto, unfolding(crate::specs::Decoded::decoded_of))]
pub fn counter<W: Words>(words: &W) -> u32
    ensures events { result ≡ (image_in (W.present words.now)).events }
{
    load(words, Cell::Header(EVENTS))
}

/// The tick count.
#[tactic(auto, unfolding(crate::specs::Decoded::decoded_of))]
pub fn ticks<W: Words>(words: &W) -> u32
    ensures ticks { result ≡ (image_in (W.present words.now)).ticks }
{
    load(words, Cell::Header(TICKS))
}

// The call in which a thread waits, by its number.
fn what_of(word: u32) -> What
    ensures what { result ≡ what_of word }
{
    match word {
        SENDS => What::Send,
        RECEIVES => What::Receive,
        _ => What::Take,
    }
}

// The value that a waiting thread sends; 0 where it doesn't send.
#[tactic(auto, using(crate::proofs::LawSets::image_laws))]
fn value_in<W: Words>(words: &W, thread: u32) -> u32
    requires thread { thread < ROWS }
    ensures value { result ≡ (wait_of (row_at (image_in (W.present words.now)) thread)).value }
{
    if load(words, Cell::RowWord(thread, WHAT)) == SENDS {
        load(words, Cell::RowWord(thread, VALUE))
    } else {
        0
    }
}

// The wait of a thread.
#[tactic(auto, using(crate::proofs::LawSets::image_laws))]
fn wait_in<W: Words>(words: &W, thread: u32) -> Wait
    requires thread { thread < ROWS }
    ensures wait { result ≡ wait_of (row_at (image_in (W.present words.now)) thread) }
{
    Wait {
        what: what_of(load(words, Cell::RowWord(thread, WHAT))),
        target: load(words, Cell::RowWord(thread, TARGET)),
        value: value_in(words, thread),
        until: load(words, Cell::RowWord(thread, UNTIL)),
    }
}

/// The state of the row of a thread, 0 to 15.
#[tactic(auto, using(crate::proofs::LawSets::image_laws))]
pub fn row_state<W: Words>(words: &W, thread: u32) -> RowState
    requires thread { thread < ROWS }
    ensures state { result ≡ state_of (row_at (image_in (W.present words.now)) thread) }
{
    match load(words, Cell::RowWord(thread, STATE)) {
        FREE => RowState::Free,
        READY => RowState::Ready,
        DELAYED => RowState::Delayed(load(words, Cell::RowWord(thread, UNTIL))),
        WAITING => RowState::Waiting(wait_in(words, thread)),
        _ => RowState::Ended(load(words, Cell::RowWord(thread, CODE))),
    }
}

/// The item of a queue at this place from its front, counted from 0. The queue is declared and has more items.
#[tactic(auto, using(crate::proofs::LawSets::item_laws))]
pub fn queue_item<W: Words>(words: &W, program: &Checked, queue: u32, place: u32) -> u32
    requires declared { queue < length (program_of program.now).queues }
    requires place { place < (queue_at (image_in (W.present words.now)) queue).count }
    ensures item { result ≡ slice_index (items_of (capacity_of (program_of program.now) queue) (queue_at (image_in (W.present words.now)) queue)) place }
{
    let capacity = declared_capacity(program, queue);
    let front = load(words, Cell::QueueWord(queue, FRONT));
    let slot = (u64::from(front) + u64::from(place)) % u64::from(capacity);
    load(words, Cell::QueueItem(queue, slot as u32))
}
