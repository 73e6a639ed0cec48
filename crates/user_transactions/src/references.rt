// What a field refers to.
ghost use Rattle.std.specs.Prelude.{◌≡◌};
ghost use Rattle.kernel_model.specs.Transactions.{reference_of};
ghost use Rattle.thread_tree.specs.Program.{program_of};
ghost use Rattle.user_transactions.specs.Seen.{seen_reference};

use crate::values::lookup;
use persistent_objects::{field_number, kind_number, object_number, static_object};
use thread_check::Checked;
use thread_tree::{FieldOf, Local};

/// A field of an object: its place, the number of the type that the object there must have, and that of the field.
#[derive(Clone, Copy)]
pub(crate) struct Reference {
    pub(crate) place: u32,
    pub(crate) kind: u32,
    pub(crate) field: u32,
}

/// What a field refers to.
pub(crate) fn reference_of(program: &Checked, locals: &[Local], field: FieldOf) -> Reference
    ensures reference { seen_reference result ≡ reference_of (program_of program.now) locals.now field }
{
    match field {
        FieldOf::Static(object, name) => {
            let found = static_object(program, object_number(program, object.name));
            Reference {
                place: found.place,
                kind: found.kind,
                field: field_number(program, found.kind, name.name),
            }
        }
        FieldOf::Through(local, kind, name) => {
            let number = kind_number(program, kind.name);
            Reference {
                place: lookup(locals, local.name),
                kind: number,
                field: field_number(program, number, name.name),
            }
        }
    }
}
