// The static objects of a program, which lie one after another from place 2 on.
ghost use Rattle.std.specs.Prelude.{◌≡◌, ◌≤◌, length, IfSome, option_map};
ghost use Rattle.thread_tree.specs.Program.{program_of};
ghost use Rattle.thread_tree.specs.Numbers.{fields_of};
ghost use Rattle.kernel_model.specs.Objects.{block_size, object_at, static_objects};
ghost use Rattle.kernel_image.specs.Declarations.{kind_name_in};
ghost use Rattle.kernel_image.specs.Initial.{first_hole};

use crate::parts::{field_count, kind_number};
use thread_check::Checked;
use thread_tree::Decl;

// The name of the type of the object that a declaration declares.
fn kind_name_in(decl: &Decl) -> Option<u32>
    ensures name { result ≡ kind_name_in decl.now }
{
    match decl {
        Decl::Object(_, kind) => Some(kind.name),
        Decl::Kind(..)
        | Decl::Queue(..)
        | Decl::Semaphore(..)
        | Decl::Function(..)
        | Decl::Thread(..)
        | Decl::Start(..) => None,
    }
}

// How many places an object of a type takes.
#[tactic(auto, using(crate::proofs::LawSets::size_laws))]
fn block_size(program: &Checked, kind: u32) -> u32
    ensures size { result ≡ block_size (length (fields_of (program_of program.now) kind)) }
    ensures few { result ≤ 12 }
{
    let _ = program.tree();
    let fields = field_count(program, kind) as u32;
    fields + 1 + (fields + 1) % 2
}

/// The number of the type of the static object that begins at a place.
#[tactic(auto, using(crate::proofs::LawSets::static_laws))]
pub(crate) fn static_kind_at(program: &Checked, place: u32) -> Option<u32>
    ensures kind { result ≡ option_map (λ object. object.kind) (object_at (static_objects (program_of program.now)) place) }
    ensures few { IfSome result (λ kind. kind ≤ 32) }
{
    let decls = &program.tree().decls;
    let mut next = 2;
    for at in 0..decls.len() {
        match kind_name_in(decls.get(at)) {
            Some(name) => {
                let kind = kind_number(program, name);
                if next == place {
                    return Some(kind);
                }
                next += block_size(program, kind);
            }
            None => {}
        }
    }
    None
}

/// The place after the static objects.
#[tactic(auto, using(crate::proofs::LawSets::hole_laws))]
pub(crate) fn first_hole(program: &Checked) -> u32
    ensures place { result ≡ first_hole (program_of program.now) }
    ensures few { result ≤ 770 }
{
    let decls = &program.tree().decls;
    let mut next = 2;
    for at in 0..decls.len() {
        match kind_name_in(decls.get(at)) {
            Some(name) => next += block_size(program, kind_number(program, name)),
            None => {}
        }
    }
    next
}
