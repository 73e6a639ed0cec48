// Restoring the threads of all rows.
ghost use Rattle.std.specs.Prelude.{◌≡◌, ◌+◌, ◌<◌, List, sum_by};
ghost use Rattle.thread_tree.specs.Program.{program_of};
ghost use Rattle.kernel_model.specs.Kernel.{Row};
ghost use Rattle.kernel_image.specs.Agree.{Both};
ghost use Rattle.kernel_image.specs.Decoded.{image_in, row_at};
ghost use Rattle.replay_list.specs.Stands.{IsRow, HasContext};
ghost use Rattle.boot_recovery.specs.Remaining.{age_in};

use crate::restoring::restore;
use kernel_image::{Cell, FREE, STATE, load};
use std::sync::ledger::Ledger;
use step_counter::Steps;
use thread_check::Checked;
use thread_machine::{Contexts, Ctx};
use thread_tree::ROWS;
use undo_journal::Words;

// The context of the thread of a row; none where no live thread is.
fn restore_row<W: Words, L: Ledger>(
    words: &W,
    program: &Checked,
    thread: u32,
    steps: &mut Steps<L>,
) -> Option<Ctx>
    requires thread { thread < ROWS }
    requires stands { (known : Row) × IsRow (program_of program.now) (row_at (image_in (W.present words.now)) thread) known }
    ensures restored { (known : Row) → IsRow (program_of program.now) (row_at (image_in (W.present words.now)) thread) known → HasContext (program_of program.now) result known }
    ensures stepped { (known : Row) → IsRow (program_of program.now) (row_at (image_in (W.present words.now)) thread) known → steps.new ≡ steps.old + age_in known }
{
    let state = load(words, Cell::RowWord(thread, STATE));
    if state == FREE {
        return None;
    }
    if 3 < state {
        return None;
    }
    let ctx = restore(words, program, thread, steps);
    Some(ctx)
}

/// The contexts of all live threads, restored from their rows. It takes as many steps as they made moves.
pub(crate) fn restore_all<W: Words, L: Ledger>(
    words: &W,
    program: &Checked,
    steps: &mut Steps<L>,
) -> Contexts
    requires stands { (rows : List Row) × Both (IsRow (program_of program.now)) (image_in (W.present words.now)).rows rows }
    ensures restored { (rows : List Row) → Both (IsRow (program_of program.now)) (image_in (W.present words.now)).rows rows → Both (HasContext (program_of program.now)) result rows }
    ensures stepped { (rows : List Row) → Both (IsRow (program_of program.now)) (image_in (W.present words.now)).rows rows → steps.new ≡ steps.old + sum_by age_in rows }
{
    let mut contexts = Contexts::none();
    for thread in 0..ROWS as u32 {
        let ctx = restore_row(words, program, thread, steps);
        contexts.set(thread, ctx);
    }
    contexts
}
