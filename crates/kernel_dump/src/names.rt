// The names of what a program declares, by their numbers.
ghost use Rattle.std.specs.Prelude.{◌≡◌, ◌<◌, ◌≤◌, length, slice_index};
ghost use Rattle.thread_tree.specs.Program.{program_of};
ghost use Rattle.kernel_model.specs.Names.{name_of as name_in};
ghost use Rattle.kernel_model.specs.Show.{bytes_of as bytes_in, names_of};
ghost use Rattle.kernel_dump.specs.Parts.{list_of, fields_in};

use crate::sort::{Sort, declared};
use kernel_image::{name_of, nth_of};
use thread_check::Checked;
use thread_tree::Decl;

/// The bytes of a name, and none where the program has no such name.
#[tactic(auto, using(crate::proofs::LawSets::name_laws))]
pub fn bytes_of(program: &Checked, name: u32) -> &[u8]
    ensures bytes { result.now ≡ bytes_in (program_of program.now) name }
    ensures short { length result.now ≤ 24 }
{
    let names = &program.tree().names;
    if (name as usize) < names.len() {
        names.get(name as usize).bytes.as_slice()
    } else {
        &[]
    }
}

/// The name of what has this number among those of a sort, and no bytes where nothing has it.
#[tactic(auto, using(crate::proofs::LawSets::name_laws))]
pub fn name_at(program: &Checked, sort: Sort, number: u32) -> &[u8]
    ensures name { result.now ≡ name_in (list_of sort (names_of (program_of program.now))) number }
    ensures short { length result.now ≤ 24 }
{
    match nth_of(&program.tree().decls, declared(sort), number) {
        Some(decl) => bytes_of(program, name_of(decl)),
        None => &[],
    }
}

/// How many fields the type has that a declaration declares.
#[tactic(auto, using(crate::proofs::LawSets::field_laws))]
pub(crate) fn field_count(decl: &Decl) -> usize
    ensures count { result ≡ length (fields_in decl.now) }
{
    match decl {
        Decl::Kind(_, fields) => fields.len(),
        Decl::Object(..)
        | Decl::Queue(..)
        | Decl::Semaphore(..)
        | Decl::Function(..)
        | Decl::Thread(..)
        | Decl::Start(..) => 0,
    }
}

/// The name of a field of the type that a declaration declares.
#[tactic(auto, using(crate::proofs::LawSets::field_laws))]
pub(crate) fn field_name(decl: &Decl, field: usize) -> u32
    requires within { field < length (fields_in decl.now) }
    ensures name { result ≡ slice_index (fields_in decl.now) field }
{
    match decl {
        Decl::Kind(_, fields) => fields.get(field).name,
        Decl::Object(..)
        | Decl::Queue(..)
        | Decl::Semaphore(..)
        | Decl::Function(..)
        | Decl::Thread(..)
        | Decl::Start(..) => 0,
    }
}
