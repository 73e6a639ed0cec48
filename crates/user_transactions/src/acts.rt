// A statement of a block: the end of it, or its next move.
ghost use Rattle.std.specs.Prelude.{◌≡◌, ◌+◌, ◌-◌, ◌*◌, ◌≤◌, ◌<◌, length, IfOk, IsErr, IsTrue, OnOk, OnErr, Some};
ghost use Rattle.nv_memory.specs.Budget.{IsShort};
ghost use Rattle.undo_journal.specs.Undo.{room_of};
ghost use Rattle.undo_journal.specs.Lending.{IsLent};
ghost use Rattle.kernel_image.specs.Decoded.{image_in};
ghost use Rattle.kernel_model.specs.Sound.{AreSoundObjects};
ghost use Rattle.persistent_objects.specs.Objects.{objects_of};
ghost use Rattle.served_program.specs.Served.{is_served_tlayer, is_served_tblock};
ghost use Rattle.thread_tree.specs.declared.transaction.TStmt.{out-TStmt};
ghost use Rattle.thread_tree.specs.Program.{program_of};
ghost use Rattle.user_transactions.specs.Fates.{Acted, IsSpent};
ghost use Rattle.user_transactions.specs.Steps.{Enters, declares};
ghost use Rattle.user_transactions.specs.Works.{Keeps};

use crate::ends::ending;
use crate::step::Step;
use crate::steps::step;
use crate::tx_end::TxEnd;
use crate::work::Work;
use kernel_model::TOO_MANY_MOVES;
use nv_memory::{Cut, Nv};
use thread_check::Checked;
use thread_tree::{LOCALS, OPERATIONS, TStmt};
use undo_journal::Open;

/// Performs a statement: it ends the block, or it is its next move if one is left.
#[tactic(auto, using(crate::proofs::KeepLaws::keep_laws))]
pub(crate) fn act<'a, N: Nv>(
    tx: &mut Open<N>,
    program: &Checked,
    work: &mut Work,
    statement: &'a TStmt,
) -> Result<Step<'a>, Cut>
    requires served { IsTrue (is_served_tlayer is_served_tblock (out-TStmt statement.now)) }
    requires objects { AreSoundObjects (program_of program.now) (objects_of (program_of program.now) (image_in (N.words tx.old))) }
    requires few { work.old.operations ≤ OPERATIONS }
    requires room { OPERATIONS ≤ room_of (N.words tx.old) + work.old.operations }
    requires locals { length work.old.locals.items + declares (out-TStmt statement.now) ≤ LOCALS }
    ensures acted { IfOk result (λ step. Acted (program_of program.now) (image_in (N.words tx.old)) work.old statement.now (image_in (N.words tx.new)) work.new step) }
    ensures enters { IfOk result (λ step. Enters (out-TStmt statement.now) step) }
    ensures grown { length work.new.locals.items ≤ length work.old.locals.items + declares (out-TStmt statement.now) }
    ensures spent { IfOk result (λ step. IsSpent work.old.moves work.new.moves step) }
    ensures moves { work.new.moves ≤ work.old.moves }
    ensures few { work.new.operations ≤ OPERATIONS }
    ensures more { work.old.operations ≤ work.new.operations }
    ensures keeps { OnOk result (Keeps N.Nv (program_of program.now) tx.old tx.new (work.new.operations - work.old.operations)) }
    ensures cut { IsErr result → IsShort (N.left tx.old) (4 * (OPERATIONS - work.old.operations)) }
    ensures dark { OnErr result (N.left tx.new ≡ Some 0) }
    ensures lent { IsLent N.Nv tx.old tx.new }
{
    if let Some(end) = ending(tx, program, work, statement) {
        return Ok(Step::Ended(end));
    }
    if work.moves == 0 {
        return Ok(Step::Ended(TxEnd::Fault(TOO_MANY_MOVES)));
    }
    work.moves -= 1;
    let next = step(tx, program, work, statement)?;
    Ok(next)
}
