// The moves of a block that read objects and change none.
ghost use Rattle.std.specs.Prelude.{◌≡◌, ◌+◌, ◌-◌, ◌*◌, ◌<◌, ◌≤◌, length, IfOk, IsErr, OnOk, OnErr, Some};
ghost use Rattle.nv_memory.specs.Budget.{IsShort};
ghost use Rattle.undo_journal.specs.Undo.{room_of};
ghost use Rattle.undo_journal.specs.Lending.{IsLent};
ghost use Rattle.kernel_model.specs.Sound.{AreSoundObjects};
ghost use Rattle.kernel_image.specs.Decoded.{image_in};
ghost use Rattle.kernel_model.specs.Transactions.{read};
ghost use Rattle.persistent_objects.specs.Objects.{objects_of};
ghost use Rattle.thread_tree.specs.declared.transaction.TStmt.TheOpen as tstmt;
ghost use Rattle.thread_tree.specs.Program.{program_of};
ghost use Rattle.thread_tree.specs.LocalState.{with_value};
ghost use Rattle.user_transactions.specs.Works.{IsRead, Moved, Stored, Keeps};

use crate::expressions::read;
use crate::references::reference_of;
use crate::work::Work;
use arrayvec::ArrayVec;
use nv_memory::{Cut, Nv};
use persistent_objects::{BadReference, Stop, field_count};
use thread_check::Checked;
use thread_tree::{At, Expr, FieldOf, LOCALS, Local, OPERATIONS};
use undo_journal::Open;

/// The value of an expression, whose operations are counted; or the fault of a field that it reads.
pub(crate) fn value<N: Nv>(
    tx: &Open<N>,
    program: &Checked,
    work: &mut Work,
    e: &Expr,
) -> Result<u32, u32>
    ensures value { IsRead (read (program_of program.now) (objects_of (program_of program.now) (image_in (N.words tx.now))) work.old.locals.items e.now work.old.operations) work.new result }
    ensures kept { work.new ≡ record work.old { operations = work.new.operations } }
    ensures few { work.old.operations ≤ OPERATIONS → work.new.operations ≤ OPERATIONS }
    ensures more { work.old.operations ≤ work.new.operations }
{
    match read(tx, program, work.locals.as_slice(), e, work.operations) {
        Ok(found) => {
            work.operations = found.operations;
            Ok(found.value)
        }
        Err(fault) => Err(fault),
    }
}

// Gives the local of this name a new value; nothing changes where none has the name.
#[tactic(auto, using(crate::proofs::LocalLaws::with_value_laws))]
fn assign(locals: &mut ArrayVec<Local, LOCALS>, name: u32, value: u32)
    ensures assigned { locals.new.items ≡ with_value locals.old.items name value }
{
    for at in 0..locals.len() {
        if locals[at].name == name {
            locals[at].value = value;
            return;
        }
    }
}

/// The declaration of a local.
pub(crate) fn declare<N: Nv>(
    tx: &Open<N>,
    program: &Checked,
    work: &mut Work,
    at: At,
    e: &Expr,
) -> Result<(), u32>
    requires room { length work.old.locals.items < LOCALS }
    ensures moved { Moved (program_of program.now) (image_in (N.words tx.now)) work.old (image_in (N.words tx.now)) work.new (tstmt.Let at e.now) result }
    ensures grown { length work.new.locals.items ≤ length work.old.locals.items + 1 }
    ensures moves { work.new.moves ≡ work.old.moves }
    ensures few { work.old.operations ≤ OPERATIONS → work.new.operations ≤ OPERATIONS }
    ensures more { work.old.operations ≤ work.new.operations }
{
    let value = value(tx, program, work, e)?;
    work.locals.push(Local {
        name: at.name,
        value,
    });
    Ok(())
}

/// The assignment of a local.
#[tactic(auto, using(crate::proofs::LocalLaws::set_laws))]
pub(crate) fn set<N: Nv>(
    tx: &Open<N>,
    program: &Checked,
    work: &mut Work,
    at: At,
    e: &Expr,
) -> Result<(), u32>
    ensures moved { Moved (program_of program.now) (image_in (N.words tx.now)) work.old (image_in (N.words tx.now)) work.new (tstmt.Set at e.now) result }
    ensures grown { length work.new.locals.items ≤ length work.old.locals.items }
    ensures moves { work.new.moves ≡ work.old.moves }
    ensures few { work.old.operations ≤ OPERATIONS → work.new.operations ≤ OPERATIONS }
    ensures more { work.old.operations ≤ work.new.operations }
{
    let value = value(tx, program, work, e)?;
    assign(&mut work.locals, at.name, value);
    Ok(())
}

/// What a store to a field makes of the block: one operation more, or its fault.
#[tactic(auto, using(crate::proofs::StoreLaws::store_laws))]
pub(crate) fn store_at<N: Nv>(
    tx: &mut Open<N>,
    program: &Checked,
    work: &mut Work,
    field: FieldOf,
    value: u32,
) -> Result<Option<u32>, Cut>
    requires objects { AreSoundObjects (program_of program.now) (objects_of (program_of program.now) (image_in (N.words tx.old))) }
    requires few { work.old.operations ≤ OPERATIONS }
    requires room { OPERATIONS ≤ room_of (N.words tx.old) + work.old.operations }
    ensures stored { IfOk result (λ fault. Stored (program_of program.now) (image_in (N.words tx.old)) work.old (image_in (N.words tx.new)) work.new field value fault) }
    ensures kept { work.new ≡ record work.old { operations = work.new.operations } }
    ensures few { work.new.operations ≤ OPERATIONS }
    ensures more { work.old.operations ≤ work.new.operations }
    ensures keeps { OnOk result (Keeps N.Nv (program_of program.now) tx.old tx.new (work.new.operations - work.old.operations)) }
    ensures cut { IsErr result → IsShort (N.left tx.old) (4 * (OPERATIONS - work.old.operations)) }
    ensures dark { OnErr result (N.left tx.new ≡ Some 0) }
    ensures lent { IsLent N.Nv tx.old tx.new }
{
    let at = reference_of(program, work.locals.as_slice(), field);
    if work.operations >= OPERATIONS {
        return Ok(Some(2));
    }
    if at.field >= field_count(program, at.kind) {
        match persistent_objects::load(tx, program, at.place, at.kind, at.field) {
            Ok(_) => {
                work.operations += 1;
                return Ok(None);
            }
            Err(BadReference) => return Ok(Some(3)),
        }
    }
    match persistent_objects::store(tx, program, at.place, at.kind, at.field, value) {
        Ok(()) => {
            work.operations += 1;
            Ok(None)
        }
        Err(Stop::BadReference) => Ok(Some(3)),
        Err(Stop::Cut) => Err(Cut),
    }
}
