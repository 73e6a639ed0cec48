// Restoring a thread from its row: its start, its records one after another, and the call that is open.
ghost use Rattle.std.specs.Prelude.{◌≡◌, ◌+◌, ◌<◌, ◌≤◌, ◌%◌, ◌/◌, ℕ, List, Some, take, drop};
ghost use Rattle.thread_tree.specs.Program.{program_of};
ghost use Rattle.thread_tree.specs.LocalState.{LocalState};
ghost use Rattle.thread_tree.specs.Relive.{started};
ghost use Rattle.thread_machine.specs.Context.{local_of};
ghost use Rattle.thread_machine.specs.Reached.{IsContext};
ghost use Rattle.kernel_model.specs.Kernel.{Thread};
ghost use Rattle.kernel_model.specs.Kernel.Row.{Live};
ghost use Rattle.kernel_image.specs.Decoded.{image_in, row_at};
ghost use Rattle.kernel_image.specs.Agree.{IsThread};
ghost use Rattle.replay_list.specs.Records.{start_in, values_in, results_of};
ghost use Rattle.replay_list.specs.Stands.{IsRow, IsContextOf};
ghost use Rattle.boot_recovery.specs.Remaining.{Remains, IsGivenBack};

use arrayvec::ArrayVec;
use kernel_image::{Cell, READY, START, STATE, TEMPLATE, USED, load};
use replay_list::{result_count, start_values};
use std::sync::ledger::Ledger;
use step_counter::Steps;
use thread_check::Checked;
use thread_machine::Ctx;
use thread_tree::{RECORD_WORDS, ROWS, START_VALUES};
use undo_journal::Words;

/// The room for the words of a record.
const RECORD_ROOM: usize = RECORD_WORDS as usize;

// Reads so many record words of a thread from one on, in the place of what was read before.
#[tactic(auto, using(crate::proofs::LawSets::word_laws))]
fn words_at<W: Words>(
    words: &W,
    thread: u32,
    from: u32,
    count: u32,
    results: &mut ArrayVec<u32, RECORD_ROOM>,
)
    requires thread { thread < ROWS }
    requires within { from + count ≤ RECORD_WORDS }
    ensures words { results.new.items ≡ take count (drop from (row_at (image_in (W.present words.now)) thread).records) }
{
    results.clear();
    for i in 0..count {
        results.push(load(words, Cell::RecordWord(thread, from + i)));
    }
}

// The context at the start of a thread.
fn begin<W: Words>(words: &W, program: &Checked, thread: u32) -> Ctx
    requires thread { thread < ROWS }
    requires few { (row_at (image_in (W.present words.now)) thread).start_count ≤ START_VALUES }
    requires starts { (s : LocalState) × (started (program_of program.now) (start_in (row_at (image_in (W.present words.now)) thread)) ≡ Some s) }
    ensures context { IsContext (program_of program.now) result }
    ensures started { started (program_of program.now) (start_in (row_at (image_in (W.present words.now)) thread)) ≡ Some (local_of (program_of program.now) result) }
{
    let values = start_values(words, thread);
    let start = load(words, Cell::RowWord(thread, START));
    if start == 0 {
        let template = load(words, Cell::RowWord(thread, TEMPLATE));
        let ctx = Ctx::fresh(program, template, values.as_slice());
        return ctx;
    }
    let ctx = Ctx::at_loop(program, start - 1, values.as_slice());
    ctx
}

// Passes by the action of the record that begins at a word, and says where the next one begins. The room for its results
// is lent, so that it is made once for all records of a thread.
fn replay_record<W: Words, L: Ledger>(
    words: &W,
    program: &Checked,
    thread: u32,
    from: u32,
    ctx: &mut Ctx,
    results: &mut ArrayVec<u32, RECORD_ROOM>,
    steps: &mut Steps<L>,
) -> u32
    requires thread { thread < ROWS }
    requires context { IsContext (program_of program.now) ctx.old }
    requires some { from < (row_at (image_in (W.present words.now)) thread).used }
    requires more { (before : ℕ) × (known : Thread) × Remains (program_of program.now) (row_at (image_in (W.present words.now)) thread) from (local_of (program_of program.now) ctx.old) before steps.old known }
    ensures context { IsContext (program_of program.now) ctx.new }
    ensures later { from < result }
    ensures within { result ≤ RECORD_WORDS }
    ensures turned { (before : ℕ) (known : Thread) → Remains (program_of program.now) (row_at (image_in (W.present words.now)) thread) from (local_of (program_of program.now) ctx.old) before steps.old known → Remains (program_of program.now) (row_at (image_in (W.present words.now)) thread) result (local_of (program_of program.now) ctx.new) before steps.new known }
{
    let count = result_count(load(words, Cell::RecordWord(thread, from)));
    words_at(words, thread, from + 1, count, results);
    ctx.replay(program, results.as_slice(), steps);
    from + 1 + count
}

// Passes by the actions of all records.
fn replay_all<W: Words, L: Ledger>(
    words: &W,
    program: &Checked,
    thread: u32,
    ctx: &mut Ctx,
    steps: &mut Steps<L>,
)
    requires thread { thread < ROWS }
    requires context { IsContext (program_of program.now) ctx.old }
    requires more { (before : ℕ) × (known : Thread) × Remains (program_of program.now) (row_at (image_in (W.present words.now)) thread) 0 (local_of (program_of program.now) ctx.old) before steps.old known }
    ensures context { IsContext (program_of program.now) ctx.new }
    ensures replayed { (before : ℕ) (known : Thread) → Remains (program_of program.now) (row_at (image_in (W.present words.now)) thread) 0 (local_of (program_of program.now) ctx.old) before steps.old known → (from : ℕ) × ((row_at (image_in (W.present words.now)) thread).used ≤ from) × Remains (program_of program.now) (row_at (image_in (W.present words.now)) thread) from (local_of (program_of program.now) ctx.new) before steps.new known }
{
    let used = load(words, Cell::RowWord(thread, USED));
    let mut results = ArrayVec::new();
    let mut from = 0;
    while from < used {
        from = replay_record(words, program, thread, from, ctx, &mut results, steps);
    }
}

// Runs ahead to the call that is open, if the thread is delayed or waits.
fn arrive<W: Words, L: Ledger>(
    words: &W,
    program: &Checked,
    thread: u32,
    ctx: &mut Ctx,
    steps: &mut Steps<L>,
)
    requires thread { thread < ROWS }
    requires context { IsContext (program_of program.now) ctx.old }
    ensures context { IsContext (program_of program.now) ctx.new }
    ensures arrived { (before from : ℕ) (known : Thread) → IsThread (row_at (image_in (W.present words.now)) thread) known → (row_at (image_in (W.present words.now)) thread).used ≤ from → Remains (program_of program.now) (row_at (image_in (W.present words.now)) thread) from (local_of (program_of program.now) ctx.old) before steps.old known → IsGivenBack (local_of (program_of program.now) ctx.new) before steps.new known }
{
    if load(words, Cell::RowWord(thread, STATE)) != READY {
        let _ = ctx.ahead(program, steps);
    }
}

/// The context of a live thread, restored from its row: its start, its records, and the call that is open. It takes as
/// many steps as the thread made moves since its start.
pub(crate) fn restore<W: Words, L: Ledger>(
    words: &W,
    program: &Checked,
    thread: u32,
    steps: &mut Steps<L>,
) -> Ctx
    requires thread { thread < ROWS }
    requires live { (known : Thread) × IsRow (program_of program.now) (row_at (image_in (W.present words.now)) thread) (Live known) }
    ensures restored { (known : Thread) → IsRow (program_of program.now) (row_at (image_in (W.present words.now)) thread) (Live known) → IsContextOf (program_of program.now) result known }
    ensures stepped { (known : Thread) → IsRow (program_of program.now) (row_at (image_in (W.present words.now)) thread) (Live known) → steps.new ≡ steps.old + known.age }
{
    let mut ctx = begin(words, program, thread);
    replay_all(words, program, thread, &mut ctx, steps);
    arrive(words, program, thread, &mut ctx, steps);
    ctx
}
