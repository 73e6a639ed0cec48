// The moves that statements are.
ghost use Rattle.std.specs.Prelude.{◌≡◌, ◌+◌, ◌-◌, ◌*◌, ◌≤◌, length, false, IfOk, IsErr, IsTrue, OnOk, OnErr, Some};
ghost use Rattle.nv_memory.specs.Budget.{IsShort};
ghost use Rattle.undo_journal.specs.Undo.{room_of};
ghost use Rattle.undo_journal.specs.Lending.{IsLent};
ghost use Rattle.kernel_image.specs.Decoded.{image_in};
ghost use Rattle.kernel_model.specs.Sound.{AreSoundObjects};
ghost use Rattle.persistent_objects.specs.Objects.{objects_of};
ghost use Rattle.served_program.specs.Served.{is_served_tlayer, is_served_tblock};
ghost use Rattle.thread_tree.specs.declared.transaction.TStmt.{out-TStmt};
ghost use Rattle.thread_tree.specs.declared.transaction.TStmt.TheOpen as tstmt;
ghost use Rattle.thread_tree.specs.Program.{program_of};
ghost use Rattle.user_transactions.specs.Steps.{Stepped, Enters, ends, declares, is_served_statement};
ghost use Rattle.user_transactions.specs.Works.{Keeps};

use crate::moves::{declare, set, store_at, value};
use crate::step::Step;
use crate::tx_end::TxEnd;
use crate::work::Work;
use nv_memory::{Cut, Nv};
use thread_check::Checked;
use thread_tree::{Expr, FieldOf, LOCALS, OPERATIONS, TBlock, TStmt};
use undo_journal::Open;

// An `if`: the block that it chooses is entered, if there is one.
#[tactic(auto, using(crate::proofs::RoomLaws::inside_laws))]
fn branch<'a, N: Nv>(
    tx: &Open<N>,
    program: &Checked,
    work: &mut Work,
    e: &Expr,
    block: &'a TBlock,
    other: &'a Option<TBlock>,
) -> Step<'a>
    requires served { IsTrue (is_served_statement (tstmt.If e.now block.now other.now)) }
    ensures stepped { Stepped (program_of program.now) (image_in (N.words tx.now)) work.old (image_in (N.words tx.now)) work.new (tstmt.If e.now block.now other.now) result }
    ensures enters { Enters (tstmt.If e.now block.now other.now) result }
    ensures kept { work.new ≡ record work.old { operations = work.new.operations } }
    ensures few { work.old.operations ≤ OPERATIONS → work.new.operations ≤ OPERATIONS }
    ensures more { work.old.operations ≤ work.new.operations }
{
    match value(tx, program, work, e) {
        Err(fault) => Step::Ended(TxEnd::Fault(fault)),
        Ok(chosen) => {
            if chosen != 0 {
                return Step::Entered(block, None);
            }
            match other {
                Some(other) => Step::Entered(other, None),
                None => Step::Went,
            }
        }
    }
}

// A `while`: its block is entered, or passed.
#[tactic(auto, using(crate::proofs::RoomLaws::inside_laws))]
fn turn<'a, N: Nv>(
    tx: &Open<N>,
    program: &Checked,
    work: &mut Work,
    e: &'a Expr,
    block: &'a TBlock,
) -> Step<'a>
    requires served { IsTrue (is_served_statement (tstmt.While e.now block.now)) }
    ensures stepped { Stepped (program_of program.now) (image_in (N.words tx.now)) work.old (image_in (N.words tx.now)) work.new (tstmt.While e.now block.now) result }
    ensures enters { Enters (tstmt.While e.now block.now) result }
    ensures kept { work.new ≡ record work.old { operations = work.new.operations } }
    ensures few { work.old.operations ≤ OPERATIONS → work.new.operations ≤ OPERATIONS }
    ensures more { work.old.operations ≤ work.new.operations }
{
    match value(tx, program, work, e) {
        Err(fault) => Step::Ended(TxEnd::Fault(fault)),
        Ok(chosen) => {
            if chosen != 0 {
                return Step::Entered(block, Some(e));
            }
            Step::Went
        }
    }
}

// A store to a field.
fn store<'a, N: Nv>(
    tx: &mut Open<N>,
    program: &Checked,
    work: &mut Work,
    field: FieldOf,
    e: &Expr,
) -> Result<Step<'a>, Cut>
    requires objects { AreSoundObjects (program_of program.now) (objects_of (program_of program.now) (image_in (N.words tx.old))) }
    requires few { work.old.operations ≤ OPERATIONS }
    requires room { OPERATIONS ≤ room_of (N.words tx.old) + work.old.operations }
    ensures stepped { IfOk result (λ step. Stepped (program_of program.now) (image_in (N.words tx.old)) work.old (image_in (N.words tx.new)) work.new (tstmt.Store field e.now) step) }
    ensures enters { IfOk result (λ step. Enters (tstmt.Store field e.now) step) }
    ensures kept { work.new ≡ record work.old { operations = work.new.operations } }
    ensures few { work.new.operations ≤ OPERATIONS }
    ensures more { work.old.operations ≤ work.new.operations }
    ensures keeps { OnOk result (Keeps N.Nv (program_of program.now) tx.old tx.new (work.new.operations - work.old.operations)) }
    ensures cut { IsErr result → IsShort (N.left tx.old) (4 * (OPERATIONS - work.old.operations)) }
    ensures dark { OnErr result (N.left tx.new ≡ Some 0) }
    ensures lent { IsLent N.Nv tx.old tx.new }
{
    match value(tx, program, work, e) {
        Err(fault) => Ok(Step::Ended(TxEnd::Fault(fault))),
        Ok(stored) => match store_at(tx, program, work, field, stored)? {
            None => Ok(Step::Went),
            Some(fault) => Ok(Step::Ended(TxEnd::Fault(fault))),
        },
    }
}

/// Makes the move that a statement is.
#[tactic(auto, using(crate::proofs::KeepLaws::keep_laws))]
pub(crate) fn step<'a, N: Nv>(
    tx: &mut Open<N>,
    program: &Checked,
    work: &mut Work,
    statement: &'a TStmt,
) -> Result<Step<'a>, Cut>
    requires served { IsTrue (is_served_tlayer is_served_tblock (out-TStmt statement.now)) }
    requires a_move { ends (out-TStmt statement.now) ≡ false }
    requires objects { AreSoundObjects (program_of program.now) (objects_of (program_of program.now) (image_in (N.words tx.old))) }
    requires few { work.old.operations ≤ OPERATIONS }
    requires room { OPERATIONS ≤ room_of (N.words tx.old) + work.old.operations }
    requires locals { length work.old.locals.items + declares (out-TStmt statement.now) ≤ LOCALS }
    ensures stepped { IfOk result (λ step. Stepped (program_of program.now) (image_in (N.words tx.old)) work.old (image_in (N.words tx.new)) work.new (out-TStmt statement.now) step) }
    ensures enters { IfOk result (λ step. Enters (out-TStmt statement.now) step) }
    ensures grown { length work.new.locals.items ≤ length work.old.locals.items + declares (out-TStmt statement.now) }
    ensures moves { work.new.moves ≡ work.old.moves }
    ensures few { work.new.operations ≤ OPERATIONS }
    ensures more { work.old.operations ≤ work.new.operations }
    ensures keeps { OnOk result (Keeps N.Nv (program_of program.now) tx.old tx.new (work.new.operations - work.old.operations)) }
    ensures cut { IsErr result → IsShort (N.left tx.old) (4 * (OPERATIONS - work.old.operations)) }
    ensures dark { OnErr result (N.left tx.new ≡ Some 0) }
    ensures lent { IsLent N.Nv tx.old tx.new }
{
    match statement {
        TStmt::Let(at, e) => match declare(tx, program, work, *at, e) {
            Ok(()) => Ok(Step::Went),
            Err(fault) => Ok(Step::Ended(TxEnd::Fault(fault))),
        },
        TStmt::Set(at, e) => match set(tx, program, work, *at, e) {
            Ok(()) => Ok(Step::Went),
            Err(fault) => Ok(Step::Ended(TxEnd::Fault(fault))),
        },
        TStmt::Store(field, e) => {
            let step = store(tx, program, work, *field, e)?;
            Ok(step)
        }
        TStmt::If(e, block, other) => Ok(branch(tx, program, work, e, block, other)),
        TStmt::While(e, block) => Ok(turn(tx, program, work, e, block)),
        TStmt::Break(_) => Ok(Step::Broke),
        TStmt::LetNew(..) | TStmt::SetNew(..) | TStmt::Free(_) => unreachable!(),
        TStmt::Abort(_) | TStmt::Give(..) => unreachable!(),
    }
}
