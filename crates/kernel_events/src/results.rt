// A finished action: its record, and its results.
ghost use Rattle.std.specs.Prelude.{◌≡◌, ◌+◌, ◌<◌, ◌≤◌, IsErr, OnOk, OnErr, IsSomeAnd, Some, length};
ghost use Rattle.nv_memory.specs.Budget.{IsShort};
ghost use Rattle.undo_journal.specs.Undo.{room_of};
ghost use Rattle.undo_journal.specs.Lending.{IsLent, IsWithin};
ghost use Rattle.thread_tree.specs.Kinds.{result_count};
ghost use Rattle.thread_tree.specs.LocalState.{bind, next_action};
ghost use Rattle.thread_tree.specs.Program.{program_of};
ghost use Rattle.thread_machine.specs.Context.{local_of};
ghost use Rattle.thread_machine.specs.Reached.{IsContext};
ghost use Rattle.kernel_image.specs.Decoded.{image_in, row_at};
ghost use Rattle.replay_list.specs.Records.{IsAppended};

use nv_memory::{Cut, Nv};
use replay_list::append;
use thread_check::Checked;
use thread_machine::Ctx;
use thread_tree::{RECORD_WORDS, ROWS};
use undo_journal::Open;

/// Records the results of the action at which the context stands, and gives them to the names that take them.
pub fn serve<N: Nv>(
    tx: &mut Open<N>,
    program: &Checked,
    ctx: &mut Ctx,
    thread: u32,
    kind_word: u32,
    results: &[u32],
) -> Result<(), Cut>
    requires context { IsContext (program_of program.now) ctx.old }
    requires action { IsSomeAnd (next_action (program_of program.now) (local_of (program_of program.now) ctx.old))
        (λ action. length results.now ≡ result_count action.kind action.given) }
    requires thread { thread < ROWS }
    requires few { length results.now ≤ 4 }
    requires fits { (row_at (image_in (N.words tx.old)) thread).used + 1 + length results.now ≤ RECORD_WORDS }
    requires room { 6 ≤ room_of (N.words tx.old) }
    ensures recorded { OnOk result (IsAppended thread kind_word results.now (image_in (N.words tx.old)) (image_in (N.words tx.new))) }
    ensures bound { OnOk result (local_of (program_of program.now) ctx.new ≡ bind (program_of program.now) (local_of (program_of program.now) ctx.old) results.now) }
    ensures context { OnOk result (IsContext (program_of program.now) ctx.new) }
    ensures cut { IsErr result → IsShort (N.left tx.old) 24 }
    ensures dark { OnErr result (N.left tx.new ≡ Some 0) }
    ensures lent { IsLent N.Nv tx.old tx.new }
    ensures within { OnOk result (IsWithin N.Nv tx.old tx.new 6) }
{
    append(tx, thread, kind_word, results)?;
    ctx.bind(program, results);
    Ok(())
}
