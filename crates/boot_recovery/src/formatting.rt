// Formatting a blank device in layout 1.
ghost use Rattle.std.specs.Prelude.{◌≡◌, ◌+◌, ◌≤◌, ◌↔◌, IsErr, OnOk, OnErr, slice_index};
ghost use Rattle.nv_memory.specs.Budget.{spent, IsShort};
ghost use Rattle.thread_tree.specs.Program.{program_of};
ghost use Rattle.kernel_image.specs.Start.{IsFormatted};
ghost use Rattle.boot_recovery.specs.Formatting.{IsBegunWith};

use kernel_image::initial_word;
use nv_memory::{Cut, Nv, WORDS};
use std::sync::ledger::Ledger;
use step_counter::Steps;
use thread_check::Checked;
use undo_journal::{MAGIC, MAGIC_WORD};

/// Writes the initial words 1 to 16,383 in this order and then the magic word, one step each. `Cut` comes exactly where
/// fewer writes are left; then as many words from word 1 on are written as writes were left, and all others are as before.
#[tactic(auto, using(crate::proofs::LawSets::formatting_laws))]
pub(crate) fn format<N: Nv, L: Ledger>(
    nv: &mut N,
    program: &Checked,
    steps: &mut Steps<L>,
) -> Result<(), Cut>
    requires blank { slice_index (N.words nv.old) 0 ≡ 0 }
    ensures cut { IsErr result ↔ IsShort (N.left nv.old) WORDS }
    ensures formatted { OnOk result (IsFormatted (program_of program.now) (N.words nv.new)) }
    ensures blank { OnErr result (slice_index (N.words nv.new) 0 ≡ 0) }
    ensures begun { OnErr result (IsBegunWith (program_of program.now) (N.left nv.old) (N.words nv.old) (N.words nv.new)) }
    ensures left { N.left nv.new ≡ spent (N.left nv.old) WORDS }
    ensures to_come { N.to_come nv.new ≡ N.to_come nv.old }
    ensures ends { N.ends nv.new ≡ N.ends nv.old }
    ensures counted { steps.old ≤ steps.new }
    ensures steps { steps.new ≤ steps.old + WORDS }
    ensures all { OnOk result (steps.new ≡ steps.old + WORDS) }
{
    for at in 1..WORDS {
        steps.tick();
        nv.write(at, initial_word(program, at))?;
    }
    steps.tick();
    nv.write(MAGIC_WORD, MAGIC)?;
    Ok(())
}
