// Undoing whatever the journal holds.
ghost use Rattle.std.specs.Prelude.{◌≡◌, ◌+◌, ◌<◌, ◌≤◌, ◌↔◌, IsErr, IfOk, IfErr, MatchResult, Some, slice_index};
ghost use Rattle.nv_memory.specs.Budget.{spent, IsShort};
ghost use Rattle.undo_journal.specs.Undo.{IsJournalled, IsAtRest, undone, durable, undoing};

use crate::dark::Dark;
use crate::idle::Idle;
use crate::layout::COUNT;
use crate::writes::{clear, restore};
use nv_memory::Nv;
use std::sync::ledger::{Blank, Ledger};
use step_counter::Steps;

/// Undoes what a cut left in the journal of a formatted device: the entries are restored from the last to the
/// first, and then the count becomes 0. It writes nothing where there are no entries. `Dark` comes exactly where
/// fewer writes are left than undoing takes; the undone words are kept then, and so is the count.
#[tactic(auto, using(crate::proofs::LawSets::settles))]
pub fn settle<N: Nv, L: Ledger>(nv: N, steps: &mut Steps<L>) -> Result<Idle<N>, Dark<N>>
    requires journalled { IsJournalled (N.words nv) }
    ensures dark { IsErr result ↔ IsShort (N.left nv) (undoing (N.words nv)) }
    ensures no_write_left { IfErr result (λ dark. N.left dark ≡ Some 0) }
    ensures settled { IfOk result (λ idle. N.words idle ≡ undone (N.words nv)) }
    ensures at_rest { IfOk result (λ idle. IsAtRest (N.words idle)) }
    ensures journalled { IfErr result (λ dark. IsJournalled (N.words dark)) }
    ensures count { IfErr result (λ dark. slice_index (N.words dark) 4 ≡ slice_index (N.words nv) 4) }
    ensures undone { MatchResult result (λ idle. durable (N.words idle) ≡ durable (N.words nv)) (λ dark. durable (N.words dark) ≡ durable (N.words nv)) }
    ensures left { MatchResult result (λ idle. N.left idle ≡ spent (N.left nv) (undoing (N.words nv))) (λ dark. N.left dark ≡ spent (N.left nv) (undoing (N.words nv))) }
    ensures to_come { MatchResult result (λ idle. N.to_come idle ≡ N.to_come nv) (λ dark. N.to_come dark ≡ N.to_come nv) }
    ensures ends { MatchResult result (λ idle. N.ends idle ≡ N.ends nv) (λ dark. N.ends dark ≡ N.ends nv) }
    ensures counted { steps.old ≤ steps.new }
    ensures steps { steps.new ≤ steps.old + undoing (N.words nv) }
{
    let mut nv = nv;
    let count = nv.read(COUNT);
    if count == 0 {
        return Ok(Idle::of(nv));
    }
    for entry in (0..count).rev() {
        steps.tick();
        if restore(&mut nv, entry).is_err() {
            return Err(Dark::of(nv));
        }
    }
    steps.tick();
    if clear(&mut nv).is_err() {
        return Err(Dark::of(nv));
    }
    Ok(Idle::of(nv))
}

/// As `settle`, for a caller that counts no steps.
pub(crate) fn settle_uncounted<N: Nv, L: Ledger>(nv: N, blank: Blank) -> Result<Idle<N>, Dark<N>>
    requires name { blank.name ≡ L.name }
    requires parts { blank.parts ≡ L.parts }
    requires some { 0 < L.parts }
    requires journalled { IsJournalled (N.words nv) }
    ensures dark { IsErr result ↔ IsShort (N.left nv) (undoing (N.words nv)) }
    ensures no_write_left { IfErr result (λ dark. N.left dark ≡ Some 0) }
    ensures settled { IfOk result (λ idle. N.words idle ≡ undone (N.words nv)) }
    ensures at_rest { IfOk result (λ idle. IsAtRest (N.words idle)) }
    ensures journalled { IfErr result (λ dark. IsJournalled (N.words dark)) }
    ensures count { IfErr result (λ dark. slice_index (N.words dark) 4 ≡ slice_index (N.words nv) 4) }
    ensures undone { MatchResult result (λ idle. durable (N.words idle) ≡ durable (N.words nv)) (λ dark. durable (N.words dark) ≡ durable (N.words nv)) }
    ensures left { MatchResult result (λ idle. N.left idle ≡ spent (N.left nv) (undoing (N.words nv))) (λ dark. N.left dark ≡ spent (N.left nv) (undoing (N.words nv))) }
    ensures to_come { MatchResult result (λ idle. N.to_come idle ≡ N.to_come nv) (λ dark. N.to_come dark ≡ N.to_come nv) }
    ensures ends { MatchResult result (λ idle. N.ends idle ≡ N.ends nv) (λ dark. N.ends dark ≡ N.ends nv) }
{
    let mut steps = Steps::<L>::of(blank);
    let idle = settle(nv, &mut steps)?;
    Ok(idle)
}
