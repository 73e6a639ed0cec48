// The static objects of a program, which lie one after another from place 2 on.
ghost use Rattle.std.specs.Prelude.{◌≡◌, ◌≤◌, length, slice_index_or};
ghost use Rattle.thread_tree.specs.Program.{program_of};
ghost use Rattle.thread_tree.specs.Numbers.{fields_of};
ghost use Rattle.kernel_model.specs.Objects.{block_size, static_objects};
ghost use Rattle.persistent_objects.specs.NamesIn.{no_object};

use crate::declared::{field_count, kind_number, name_in};
use crate::what::What;
use thread_check::Checked;

/// A static object: its place, and the number of its type.
#[derive(Debug, Clone, Copy, PartialEq, Eq)]
pub struct Static {
    /// Its place in the heap, an even number of at least 2.
    pub place: u32,
    /// The number of its type.
    pub kind: u32,
}

// How many places an object of a type takes.
fn block_size(program: &Checked, kind: u32) -> u32
    ensures size { result ≡ block_size (length (fields_of (program_of program.now) kind)) }
    ensures few { result ≤ 12 }
{
    let fields = field_count(program, kind);
    fields + 1 + (fields + 1) % 2
}

/// The static object of a number, in order of declaration; place 0 and type 0 where there is none.
#[tactic(auto, using(crate::proofs::LawSets::static_laws))]
pub fn static_object(program: &Checked, number: u32) -> Static
    ensures place { result.place ≡ (slice_index_or (static_objects (program_of program.now)) number no_object).place }
    ensures kind { result.kind ≡ (slice_index_or (static_objects (program_of program.now)) number no_object).kind }
{
    let decls = &program.tree().decls;
    let mut next = 2;
    let mut left = number;
    for at in 0..decls.len() {
        match name_in(decls.get(at), What::ObjectKinds) {
            Some(name) => {
                let kind = kind_number(program, name);
                if left == 0 {
                    return Static { place: next, kind };
                }
                next += block_size(program, kind);
                left -= 1;
            }
            None => {}
        }
    }
    Static { place: 0, kind: 0 }
}
