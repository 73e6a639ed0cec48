// The `atomic` block of a thread, performed.
ghost use Rattle.std.specs.Prelude.{◌≡◌, ◌+◌, ◌-◌, ◌≤◌, ◌*◌, length, take, replicate, slice_get, IfOk, IsErr, IsTrue, OnOk, OnErr, Some, List};
ghost use Rattle.nv_memory.specs.Budget.{IsShort};
ghost use Rattle.undo_journal.specs.Undo.{room_of};
ghost use Rattle.undo_journal.specs.Lending.{IsLent, IsWithin};
ghost use Rattle.kernel_image.specs.Decoded.{image_in};
ghost use Rattle.kernel_model.specs.Sound.{AreSoundObjects};
ghost use Rattle.kernel_model.specs.Transactions.{block as performed};
ghost use Rattle.persistent_objects.specs.Layout.{KeepsLayout};
ghost use Rattle.persistent_objects.specs.Objects.{objects_of};
ghost use Rattle.served_program.specs.Served.{is_served_tblock};
ghost use Rattle.thread_machine.specs.Context.{local_of};
ghost use Rattle.thread_machine.specs.Reached.{IsContext};
ghost use Rattle.thread_tree.specs.Actions.{actions};
ghost use Rattle.thread_tree.specs.LocalState.{next_statement};
ghost use Rattle.thread_tree.specs.Need.{need_of_tblock};
ghost use Rattle.thread_tree.specs.declared.place.Place.{Place};
ghost use Rattle.thread_tree.specs.declared.place.At.{At};
ghost use Rattle.thread_tree.specs.Program.{program_of};
ghost use Rattle.thread_tree.specs.declared.block.Stmt.{Stmt as Statement, out-Stmt};
ghost use Rattle.thread_tree.specs.declared.block.Stmt.TheOpen as stmt;
ghost use Rattle.thread_tree.specs.declared.transaction.TBlock.{TBlock as Body};
ghost use Rattle.user_transactions.specs.Works.{IsEnd, Keeps};

use crate::atomic::{body_of, given_by};
use crate::ends::keep;
use crate::fate::Fate;
use crate::level::Level;
use crate::running::run;
use crate::tx_end::TxEnd;
use crate::work::Work;
use arrayvec::ArrayVec;
use nv_memory::{Cut, Nv};
use thread_check::Checked;
use thread_machine::Ctx;
use thread_tree::{LOCALS, Local, MOVES, OPERATIONS, TBlock};
use undo_journal::Open;

// The first three of so many zeros.
fn zeros(count: usize) -> ArrayVec<u32, 3>
    ensures zeros { result.items ≡ take 3 (replicate count 0) }
{
    let mut values = ArrayVec::new();
    for at in 0..count {
        keep(&mut values, 0);
    }
    values
}

// Performs the block of an `atomic` statement with these locals.
fn perform_body<N: Nv>(
    tx: &mut Open<N>,
    program: &Checked,
    locals: ArrayVec<Local, LOCALS>,
    body: &TBlock,
    given: usize,
) -> Result<TxEnd, Cut>
    requires served { IsTrue (is_served_tblock body.now) }
    requires objects { AreSoundObjects (program_of program.now) (objects_of (program_of program.now) (image_in (N.words tx.old))) }
    requires room { OPERATIONS ≤ room_of (N.words tx.old) }
    requires locals { length locals.items + (need_of_tblock body.now).locals ≤ LOCALS }
    ensures ended { IfOk result (λ end. IsEnd (program_of program.now) end (image_in (N.words tx.new)) (performed (program_of program.now) (objects_of (program_of program.now) (image_in (N.words tx.old))) locals.items given body.now)) }
    ensures keeps { OnOk result (Keeps N.Nv (program_of program.now) tx.old tx.new OPERATIONS) }
    ensures cut { IsErr result → IsShort (N.left tx.old) (4 * OPERATIONS) }
    ensures dark { OnErr result (N.left tx.new ≡ Some 0) }
    ensures lent { IsLent N.Nv tx.old tx.new }
{
    let mut work = Work {
        locals,
        operations: 0,
        moves: MOVES,
    };
    match run(tx, program, &mut work, body, Level::Body)? {
        Fate::Went => Ok(TxEnd::Gave(zeros(given))),
        Fate::Broke => Ok(TxEnd::Gave(zeros(given))),
        Fate::Ended(end) => Ok(end),
    }
}

/// Performs the `atomic` block of the action of this number, which the thread of this context arrived at, within the
/// open transaction: at most 10,000 moves and 64 operations on objects. The context stays as it is.
///
/// # Errors
///
/// `Cut` where power was lost before the block ended.
pub fn perform<N: Nv>(
    tx: &mut Open<N>,
    program: &Checked,
    ctx: &mut Ctx,
    block: u32,
) -> Result<TxEnd, Cut>
    requires context { IsContext (program_of program.now) ctx.old }
    requires here { (s : Statement) × (place : Place) × (to : List At) × (body : Body) × (slice_get (actions (program_of program.now)) block ≡ Some s) × (next_statement (local_of (program_of program.now) ctx.old).top.todo ≡ Some s) × (out-Stmt s ≡ stmt.Atomic place to body) × IsTrue (is_served_tblock body) }
    requires objects { AreSoundObjects (program_of program.now) (objects_of (program_of program.now) (image_in (N.words tx.old))) }
    requires room { 960 ≤ room_of (N.words tx.old) }
    ensures same { ctx.new ≡ ctx.old }
    ensures ended { IfOk result (λ end. (s : Statement) (place : Place) (to : List At) (body : Body) → slice_get (actions (program_of program.now)) block ≡ Some s → out-Stmt s ≡ stmt.Atomic place to body
        → IsEnd (program_of program.now) end (image_in (N.words tx.new)) (performed (program_of program.now) (objects_of (program_of program.now) (image_in (N.words tx.old))) (local_of (program_of program.now) ctx.old).top.locals (length to - 1) body)) }
    ensures frame { OnOk result (image_in (N.words tx.new) ≡ record (image_in (N.words tx.old)) { heap = (image_in (N.words tx.new)).heap }) }
    ensures layout { OnOk result (KeepsLayout (program_of program.now) (image_in (N.words tx.old)) (image_in (N.words tx.new))) }
    ensures cut { IsErr result → IsShort (N.left tx.old) 3840 }
    ensures dark { OnErr result (N.left tx.new ≡ Some 0) }
    ensures lent { IsLent N.Nv tx.old tx.new }
    ensures within { OnOk result (IsWithin N.Nv tx.old tx.new 960) }
{
    let locals = ctx.own_locals(program);
    let statement = program.action(block);
    match body_of(statement) {
        Some(body) => {
            let end = perform_body(tx, program, locals, body, given_by(statement))?;
            Ok(end)
        }
        None => unreachable!(),
    }
}
