// How many records the live threads have.
ghost use Rattle.std.specs.Prelude.{◌≡◌, ◌<◌, ◌≤◌};
ghost use Rattle.thread_tree.specs.Program.{program_of};
ghost use Rattle.kernel_image.specs.Decoded.{image_in};
ghost use Rattle.kernel_model.specs.Kernel.{State, row_of};
ghost use Rattle.replay_list.specs.Stands.{KernelStands};
ghost use Rattle.boot_report.specs.Lines.{passed_in, replayed};

use replay_list::{record_count, standing_laws};
use thread_check::Checked;
use thread_machine::Contexts;
use thread_tree::{RECORD_WORDS, ROWS};
use undo_journal::Words;

// How many records a thread has, and none where no thread lives.
fn passed<W: Words>(words: &W, contexts: &Contexts, program: &Checked, thread: u32) -> u32
    requires thread { thread < ROWS }
    requires stands { (K : State) × KernelStands (program_of program.now) (image_in (W.present words.now)) contexts.now K }
    ensures passed { (K : State) → KernelStands (program_of program.now) (image_in (W.present words.now)) contexts.now K
        → result ≡ passed_in (row_of K thread) }
    ensures few { result ≤ RECORD_WORDS }
{
    standing_laws();
    let _ = program.tree();
    match contexts.get(thread) {
        Some(_) => record_count(words, thread),
        None => 0,
    }
}

/// How many records all live threads have.
pub(crate) fn passed_by_all<W: Words>(words: &W, contexts: &Contexts, program: &Checked) -> u32
    requires stands { (K : State) × KernelStands (program_of program.now) (image_in (W.present words.now)) contexts.now K }
    ensures all { (K : State) → KernelStands (program_of program.now) (image_in (W.present words.now)) contexts.now K
        → result ≡ replayed K }
{
    let mut all = 0;
    for thread in 0..ROWS as u32 {
        all += passed(words, contexts, program, thread);
    }
    all
}
