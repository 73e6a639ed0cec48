// Recovery: a blank device is formatted, on a formatted one the journal is undone, and then the threads are restored.
ghost use Rattle.std.specs.Prelude.{◌≡◌, ◌≢◌, ◌+◌, ◌≤◌, ◌==◌, ◌↔◌, IsErr, IfOk, IfErr, MatchResult, Some, slice_index};
ghost use Rattle.nv_memory.specs.Budget.{spent, IsShort};
ghost use Rattle.undo_journal.specs.Undo.{magic, undoing, IsAtRest};
ghost use Rattle.thread_tree.specs.Program.{program_of};
ghost use Rattle.kernel_model.specs.Kernel.{State};
ghost use Rattle.kernel_model.specs.Run.{initial};
ghost use Rattle.kernel_image.specs.Decoded.{image_in};
ghost use Rattle.replay_list.specs.Kept.{IsKept, recovering, recovery_steps};
ghost use Rattle.replay_list.specs.Stands.{Stands, KernelStands};
ghost use Rattle.boot_recovery.specs.Formatting.{IsBegunWith};

use crate::formatting::format;
use crate::rows::restore_all;
use crate::starting::formatting_stands;
use kernel_image::formatting_shows_the_start;
use nv_memory::{Nv, WORDS};
use replay_list::Kernel;
use std::sync::ledger::Ledger;
use step_counter::Steps;
use thread_check::Checked;
use undo_journal::{Dark, Idle, MAGIC, MAGIC_WORD, settle};

// Undoes the journal of a formatted device.
fn undo<N: Nv, L: Ledger>(
    nv: N,
    program: &Checked,
    steps: &mut Steps<L>,
) -> Result<Idle<N>, Dark<N>>
    requires formatted { slice_index (N.words nv) 0 ≡ magic }
    requires kept { (K : State) × IsKept (program_of program.now) (N.words nv) K }
    ensures dark { IsErr result ↔ IsShort (N.left nv) (undoing (N.words nv)) }
    ensures stands { IfOk result (λ idle. (K : State) → IsKept (program_of program.now) (N.words nv) K → Stands (program_of program.now) (image_in (N.words idle)) K) }
    ensures at_rest { IfOk result (λ idle. IsAtRest (N.words idle)) }
    ensures kept { IfErr result (λ dark. (K : State) → IsKept (program_of program.now) (N.words nv) K → IsKept (program_of program.now) (N.words dark) K) }
    ensures formatted { IfErr result (λ dark. slice_index (N.words dark) 0 ≡ magic) }
    ensures count { IfErr result (λ dark. slice_index (N.words dark) 4 ≡ slice_index (N.words nv) 4) }
    ensures left { MatchResult result (λ idle. N.left idle ≡ spent (N.left nv) (undoing (N.words nv))) (λ dark. N.left dark ≡ Some 0) }
    ensures to_come { MatchResult result (λ idle. N.to_come idle ≡ N.to_come nv) (λ dark. N.to_come dark ≡ N.to_come nv) }
    ensures ends { MatchResult result (λ idle. N.ends idle ≡ N.ends nv) (λ dark. N.ends dark ≡ N.ends nv) }
    ensures counted { steps.old ≤ steps.new }
    ensures steps { steps.new ≤ steps.old + undoing (N.words nv) }
{
    let _ = program;
    let idle = settle(nv, steps)?;
    Ok(idle)
}

// Formats a blank device.
fn make<N: Nv, L: Ledger>(
    nv: N,
    program: &Checked,
    steps: &mut Steps<L>,
) -> Result<Idle<N>, Dark<N>>
    requires blank { slice_index (N.words nv) 0 ≡ 0 }
    ensures dark { IsErr result ↔ IsShort (N.left nv) WORDS }
    ensures stands { IfOk result (λ idle. Stands (program_of program.now) (image_in (N.words idle)) (initial (program_of program.now))) }
    ensures at_rest { IfOk result (λ idle. IsAtRest (N.words idle)) }
    ensures blank { IfErr result (λ dark. slice_index (N.words dark) 0 ≡ 0) }
    ensures begun { IfErr result (λ dark. IsBegunWith (program_of program.now) (N.left nv) (N.words nv) (N.words dark)) }
    ensures left { MatchResult result (λ idle. N.left idle ≡ spent (N.left nv) WORDS) (λ dark. N.left dark ≡ Some 0) }
    ensures to_come { MatchResult result (λ idle. N.to_come idle ≡ N.to_come nv) (λ dark. N.to_come dark ≡ N.to_come nv) }
    ensures ends { MatchResult result (λ idle. N.ends idle ≡ N.ends nv) (λ dark. N.ends dark ≡ N.ends nv) }
    ensures counted { steps.old ≤ steps.new }
    ensures steps { steps.new ≤ steps.old + WORDS }
{
    formatting_shows_the_start();
    formatting_stands();
    let _ = program.tree();
    let mut nv = nv;
    match format(&mut nv, program, steps) {
        Ok(()) => {
            let idle = settle(nv, steps)?;
            Ok(idle)
        }
        Err(_) => Err(Dark::of(nv)),
    }
}

// Makes a device ready: a blank one is formatted, and on a formatted one the journal is undone.
fn ready<N: Nv, L: Ledger>(
    nv: N,
    program: &Checked,
    steps: &mut Steps<L>,
) -> Result<Idle<N>, Dark<N>>
    requires kept { (K : State) × IsKept (program_of program.now) (N.words nv) K }
    ensures dark { IsErr result ↔ IsShort (N.left nv) (recovering (N.words nv)) }
    ensures stands { IfOk result (λ idle. (K : State) → IsKept (program_of program.now) (N.words nv) K → Stands (program_of program.now) (image_in (N.words idle)) K) }
    ensures at_rest { IfOk result (λ idle. IsAtRest (N.words idle)) }
    ensures kept { IfErr result (λ dark. (K : State) → IsKept (program_of program.now) (N.words nv) K → IsKept (program_of program.now) (N.words dark) K) }
    ensures formatted { IfErr result (λ dark. (slice_index (N.words dark) 0 == magic) ≡ (slice_index (N.words nv) 0 == magic)) }
    ensures begun { IfErr result (λ dark. slice_index (N.words nv) 0 ≡ 0 → IsBegunWith (program_of program.now) (N.left nv) (N.words nv) (N.words dark)) }
    ensures count { IfErr result (λ dark. slice_index (N.words nv) 0 ≡ magic → slice_index (N.words dark) 4 ≡ slice_index (N.words nv) 4) }
    ensures left { MatchResult result (λ idle. N.left idle ≡ spent (N.left nv) (recovering (N.words nv))) (λ dark. N.left dark ≡ Some 0) }
    ensures to_come { MatchResult result (λ idle. N.to_come idle ≡ N.to_come nv) (λ dark. N.to_come dark ≡ N.to_come nv) }
    ensures ends { MatchResult result (λ idle. N.ends idle ≡ N.ends nv) (λ dark. N.ends dark ≡ N.ends nv) }
    ensures counted { steps.old ≤ steps.new }
    ensures steps { steps.new ≤ steps.old + recovering (N.words nv) }
{
    if nv.read(MAGIC_WORD) == MAGIC {
        let idle = undo(nv, program, steps)?;
        return Ok(idle);
    }
    let idle = make(nv, program, steps)?;
    Ok(idle)
}

/// Recovers a kernel from the words of a device alone: a blank device is formatted, on a formatted one the journal is
/// undone, and then each live thread is restored by its start and its records (docs/BOOTS.md).
///
/// # Errors
///
/// `Dark` exactly where fewer writes are left than recovery needs. The words are kept as before then. Of a blank device
/// that was cut with n writes left words 1 to n are the initial ones, and all others as before.
pub fn recover<N: Nv, L: Ledger>(
    nv: N,
    program: &Checked,
    steps: &mut Steps<L>,
) -> Result<Kernel<N>, Dark<N>>
    requires kept { (K : State) × IsKept (program_of program.now) (N.words nv) K }
    ensures dark { IsErr result ↔ IsShort (N.left nv) (recovering (N.words nv)) }
    ensures stands { IfOk result (λ next. (K : State) → IsKept (program_of program.now) (N.words nv) K → KernelStands (program_of program.now) (image_in (N.words next.idle)) next.contexts K) }
    ensures at_rest { IfOk result (λ next. IsAtRest (N.words next.idle)) }
    ensures kept { IfErr result (λ dark. (K : State) → IsKept (program_of program.now) (N.words nv) K → IsKept (program_of program.now) (N.words dark) K) }
    ensures formatted { IfErr result (λ dark. (slice_index (N.words dark) 0 == magic) ≡ (slice_index (N.words nv) 0 == magic)) }
    ensures begun { IfErr result (λ dark. slice_index (N.words nv) 0 ≡ 0 → IsBegunWith (program_of program.now) (N.left nv) (N.words nv) (N.words dark)) }
    ensures count { IfErr result (λ dark. slice_index (N.words nv) 0 ≡ magic → slice_index (N.words dark) 4 ≡ slice_index (N.words nv) 4) }
    ensures left { MatchResult result (λ next. N.left next.idle ≡ spent (N.left nv) (recovering (N.words nv))) (λ dark. N.left dark ≡ Some 0) }
    ensures to_come { MatchResult result (λ next. N.to_come next.idle ≡ N.to_come nv) (λ dark. N.to_come dark ≡ N.to_come nv) }
    ensures ends { MatchResult result (λ next. N.ends next.idle ≡ N.ends nv) (λ dark. N.ends dark ≡ N.ends nv) }
    ensures counted { steps.old ≤ steps.new }
    ensures steps { (K : State) → IsKept (program_of program.now) (N.words nv) K → steps.new ≤ steps.old + recovery_steps (N.words nv) K }
{
    let idle = ready(nv, program, steps)?;
    let contexts = restore_all(&idle, program, steps);
    Ok(Kernel { idle, contexts })
}
