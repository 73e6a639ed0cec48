// The values of expressions, which may read fields of objects.
ghost use Rattle.std.specs.Prelude.{◌≡◌, ◌≤◌, IfOk};
ghost use Rattle.kernel_image.specs.Decoded.{image_in};
ghost use Rattle.kernel_model.specs.Transactions.{load, read};
ghost use Rattle.persistent_objects.specs.Objects.{objects_of};
ghost use Rattle.thread_tree.specs.Program.{program_of};
ghost use Rattle.user_transactions.specs.Seen.{seen_read};

use crate::references::reference_of;
use crate::values::{apply, lookup};
use kernel_model::{BAD_REFERENCE, TOO_MANY_OPERATIONS};
use persistent_objects::BadReference;
use thread_check::Checked;
use thread_tree::{Expr, FieldOf, Local, OPERATIONS};
use undo_journal::Words;

/// A value that was read, and how many operations were made so far.
#[derive(Clone, Copy)]
pub(crate) struct Found {
    pub(crate) value: u32,
    pub(crate) operations: u32,
}

// The value of a field of an object.
#[tactic(auto, using(crate::proofs::ReadLaws::load_laws))]
fn load<W: Words>(
    words: &W,
    program: &Checked,
    locals: &[Local],
    field: FieldOf,
    operations: u32,
) -> Result<Found, u32>
    ensures read { seen_read result ≡ load (program_of program.now) (objects_of (program_of program.now) (image_in (W.present words.now))) locals.now field operations }
    ensures few { operations ≤ OPERATIONS → IfOk result (λ r. r.operations ≤ OPERATIONS) }
    ensures more { IfOk result (λ r. operations ≤ r.operations) }
{
    let at = reference_of(program, locals, field);
    if operations >= OPERATIONS {
        return Err(TOO_MANY_OPERATIONS);
    }
    match persistent_objects::load(words, program, at.place, at.kind, at.field) {
        Ok(value) => Ok(Found {
            value,
            operations: operations + 1,
        }),
        Err(BadReference) => Err(BAD_REFERENCE),
    }
}

/// The value of an expression after so many operations, or the fault of a field that it reads.
#[tactic(auto, using(crate::proofs::ReadLaws::read_laws))]
pub(crate) fn read<W: Words>(
    words: &W,
    program: &Checked,
    locals: &[Local],
    expr: &Expr,
    operations: u32,
) -> Result<Found, u32>
    ensures read { seen_read result ≡ read (program_of program.now) (objects_of (program_of program.now) (image_in (W.present words.now))) locals.now expr.now operations }
    ensures few { operations ≤ OPERATIONS → IfOk result (λ r. r.operations ≤ OPERATIONS) }
    ensures more { IfOk result (λ r. operations ≤ r.operations) }
{
    match expr {
        Expr::Num(value) => Ok(Found {
            value: *value,
            operations,
        }),
        Expr::Local(at) => Ok(Found {
            value: lookup(locals, at.name),
            operations,
        }),
        Expr::Field(field) => {
            let found = load(words, program, locals, *field, operations)?;
            Ok(found)
        }
        Expr::Prefix(op, operand) => {
            let x = read(words, program, locals, operand, operations)?;
            Ok(Found {
                value: apply(*op, 0, x.value),
                operations: x.operations,
            })
        }
        Expr::Binary(op, left, right) => {
            let x = read(words, program, locals, left, operations)?;
            let y = read(words, program, locals, right, x.operations)?;
            Ok(Found {
                value: apply(*op, x.value, y.value),
                operations: y.operations,
            })
        }
    }
}
