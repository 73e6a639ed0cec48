// The ready threads.
ghost use Rattle.std.specs.Prelude.{◌≡◌, ◌+◌, ◌<◌, ◌≤◌, ◌↔◌, IsTrue, IfSome};
ghost use Rattle.kernel_model.specs.Kernel.{State};
ghost use Rattle.kernel_model.specs.Order.{chosen};
ghost use Rattle.kernel_image.specs.Agree.{Agrees, Both};
ghost use Rattle.kernel_image.specs.Decoded.{image_in, row_at};
ghost use Rattle.ready_delay_lists.specs.Best.{AreFormed, IsReady, IsBest, comes_before};

use kernel_image::{Cell, PRIORITY, READY, STAMP, STATE, load};
use kernel_model::order;
use thread_tree::ROWS;
use undo_journal::Words;

// Whether a thread is ready.
#[tactic(auto, using(kernel_image::proofs::Callers::image_laws))]
fn is_ready<W: Words>(words: &W, thread: u32) -> bool
    requires thread { thread < ROWS }
    ensures ready { IsTrue result ↔ IsReady (image_in (W.present words.now)) thread }
{
    load(words, Cell::RowWord(thread, STATE)) == READY
}

// Whether a thread is more urgent than another: of a greater priority, or of the same and with a lesser stamp.
#[tactic(auto, using(kernel_image::proofs::Callers::image_laws), unfolding(crate::specs::Best::comes_before))]
fn comes_before<W: Words>(words: &W, thread: u32, other: u32) -> bool
    requires thread { thread < ROWS }
    requires other { other < ROWS }
    ensures before { result ≡ comes_before (image_in (W.present words.now)) thread other }
{
    let priority = load(words, Cell::RowWord(thread, PRIORITY));
    let other_priority = load(words, Cell::RowWord(other, PRIORITY));
    let stamp = load(words, Cell::RowWord(thread, STAMP));
    let other_stamp = load(words, Cell::RowWord(other, STAMP));
    other_priority < priority || (priority == other_priority && stamp < other_stamp)
}

// The best of the rows up to this one, from the best of those before it.
#[tactic(auto, using(crate::proofs::LawSets::best_laws))]
fn best_with<W: Words>(words: &W, best: Option<u32>, thread: u32) -> Option<u32>
    requires thread { thread < ROWS }
    requires best { IsBest (image_in (W.present words.now)) thread best }
    requires within { IfSome best (λ t. t < ROWS) }
    ensures best { IsBest (image_in (W.present words.now)) (thread + 1) result }
    ensures within { IfSome result (λ t. t < ROWS) }
{
    if !is_ready(words, thread) {
        return best;
    }
    match best {
        None => Some(thread),
        Some(first) => {
            if comes_before(words, thread, first) {
                Some(thread)
            } else {
                Some(first)
            }
        }
    }
}

/// The ready thread that a step runs: the one of the greatest priority, and among equals the one that stands first in
/// its ready list, which has the least stamp. `None` exactly where nobody is ready. It answers so for any sixteen rows whose
/// stamps differ in each list, of a sound kernel or not.
#[tactic(auto, using(crate::proofs::LawSets::best_laws))]
pub fn chosen<W: Words>(words: &W) -> Option<u32>
    ensures chosen { (K : State) → AreFormed K.rows → Both Agrees (image_in (W.present words.now)).rows K.rows → result ≡ chosen K }
    ensures thread { IfSome result (λ t. t < ROWS) }
    ensures ready { IfSome result (λ t. (row_at (image_in (W.present words.now)) t).state ≡ 1) }
{
    order();
    let mut best = None;
    for thread in 0..ROWS as u32 {
        best = best_with(words, best, thread);
    }
    best
}
