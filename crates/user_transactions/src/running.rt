// A block, from its first statement to its end.
ghost use Rattle.std.specs.Prelude.{◌≡◌, ◌+◌, ◌-◌, ◌*◌, ◌≤◌, length, option_copied, IfOk, IsErr, IsTrue, OnOk, OnErr, Some};
ghost use Rattle.nv_memory.specs.Budget.{IsShort};
ghost use Rattle.undo_journal.specs.Undo.{room_of};
ghost use Rattle.undo_journal.specs.Lending.{IsLent};
ghost use Rattle.kernel_image.specs.Decoded.{image_in};
ghost use Rattle.kernel_model.specs.Sound.{AreSoundObjects};
ghost use Rattle.persistent_objects.specs.Objects.{objects_of};
ghost use Rattle.served_program.specs.Served.{is_served_tblock};
ghost use Rattle.thread_tree.specs.Need.{need_of_tblock};
ghost use Rattle.thread_tree.specs.Program.{program_of};
ghost use Rattle.user_transactions.specs.Runs.{Ran, Shrinks, IsLevelOf, whole};
ghost use Rattle.user_transactions.specs.Works.{Keeps};

use crate::acts::act;
use crate::closing::close;
use crate::fate::Fate;
use crate::leaving::leave;
use crate::level::Level;
use crate::step::Step;
use crate::work::Work;
use nv_memory::{Cut, Nv};
use thread_check::Checked;
use thread_tree::{Expr, LOCALS, OPERATIONS, TBlock};
use undo_journal::Open;

// What a block in a statement is, of a loop with this test if there is one.
fn level_of(test: Option<&Expr>) -> Level<'_>
    ensures level { IsLevelOf (option_copied test.entry) result }
{
    match test {
        Some(e) => Level::Turn(e),
        None => Level::Inner,
    }
}

/// Performs a block, with the blocks in it.
pub(crate) fn run<N: Nv>(
    tx: &mut Open<N>,
    program: &Checked,
    work: &mut Work,
    block: &TBlock,
    level: Level<'_>,
) -> Result<Fate, Cut>
    requires served { IsTrue (is_served_tblock block.now) }
    requires objects { AreSoundObjects (program_of program.now) (objects_of (program_of program.now) (image_in (N.words tx.old))) }
    requires few { work.old.operations ≤ OPERATIONS }
    requires room { OPERATIONS ≤ room_of (N.words tx.old) + work.old.operations }
    requires locals { length work.old.locals.items + (need_of_tblock block.now).locals ≤ LOCALS }
    ensures ran { IfOk result (λ fate. Ran (program_of program.now) (image_in (N.words tx.old)) work.old (whole level.entry block.now (length work.old.locals.items)) (image_in (N.words tx.new)) work.new fate) }
    ensures shrunk { IfOk result (λ fate. Shrinks level.entry (length work.old.locals.items) (length work.new.locals.items) fate) }
    ensures moves { work.new.moves ≤ work.old.moves }
    ensures few { work.new.operations ≤ OPERATIONS }
    ensures more { work.old.operations ≤ work.new.operations }
    ensures keeps { OnOk result (Keeps N.Nv (program_of program.now) tx.old tx.new (work.new.operations - work.old.operations)) }
    ensures cut { IsErr result → IsShort (N.left tx.old) (4 * (OPERATIONS - work.old.operations)) }
    ensures dark { OnErr result (N.left tx.new ≡ Some 0) }
    ensures lent { IsLent N.Nv tx.old tx.new }
{
    let mut keep = work.locals.len();
    let mut at = 0;
    'running: loop {
        if at >= block.stmts.len() {
            match close(tx, program, work, block, level, keep) {
                Some(fate) => return Ok(fate),
                None => {
                    keep = work.locals.len();
                    at = 0;
                }
            }
        } else {
            match act(tx, program, work, block.stmts.get(at))? {
                Step::Went => at += 1,
                Step::Broke => return Ok(leave(work, level, keep)),
                Step::Ended(end) => return Ok(Fate::Ended(end)),
                Step::Entered(inner, test) => {
                    match run(tx, program, work, inner, level_of(test))? {
                        Fate::Went => at += 1,
                        Fate::Broke => return Ok(leave(work, level, keep)),
                        Fate::Ended(end) => return Ok(Fate::Ended(end)),
                    }
                }
            }
        }
    }
}
