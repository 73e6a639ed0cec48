// What a program declares, by number and by name.
ghost use Rattle.std.specs.Prelude.{◌≡◌, ◌≤◌, length, filter_map, slice_get, option_map, option_copied};
ghost use Rattle.std.specs.List.{position_or_len};
ghost use Rattle.thread_tree.specs.Program.{program_of, names_of};
ghost use Rattle.thread_tree.specs.Numbers.{object_number, kind_number, field_number, fields_of};
ghost use Rattle.kernel_image.specs.Declarations.{kind_in};
ghost use Rattle.persistent_objects.specs.NamesIn.{name_in, names_in, is_name, kind_fields};

use crate::what::What;
use thread_check::Checked;
use thread_tree::{At, Decl, List};

// The name of this sort in a declaration.
pub(crate) fn name_in(decl: &Decl, what: What) -> Option<u32>
    ensures name { result ≡ name_in what decl.now }
{
    match decl {
        Decl::Kind(name, _) => match what {
            What::Kinds => Some(name.name),
            What::Objects | What::ObjectKinds => None,
        },
        Decl::Object(name, kind) => match what {
            What::Kinds => None,
            What::Objects => Some(name.name),
            What::ObjectKinds => Some(kind.name),
        },
        Decl::Queue(..)
        | Decl::Semaphore(..)
        | Decl::Function(..)
        | Decl::Thread(..)
        | Decl::Start(..) => match what {
            What::Kinds | What::Objects | What::ObjectKinds => None,
        },
    }
}

// The number of the first name of a sort that is this one; where none is, how many there are.
#[tactic(auto, using(crate::proofs::LawSets::name_laws))]
fn number_of(decls: &List<Decl>, what: What, name: u32) -> usize
    ensures number { result ≡ position_or_len (is_name name) (names_in what decls.now) }
{
    let mut number = 0;
    for at in 0..decls.len() {
        match name_in(decls.get(at), what) {
            Some(other) => {
                if other == name {
                    return number;
                }
                number += 1;
            }
            None => {}
        }
    }
    number
}

/// The number of the type of a name; where none has it, how many types there are.
#[tactic(auto, using(crate::proofs::LawSets::number_laws))]
pub fn kind_number(program: &Checked, name: u32) -> u32
    ensures number { result ≡ kind_number (program_of program.now) name }
{
    number_of(&program.tree().decls, What::Kinds, name) as u32
}

/// The number of the static object of a name; where none has it, how many there are.
#[tactic(auto, using(crate::proofs::LawSets::number_laws))]
pub fn object_number(program: &Checked, name: u32) -> u32
    ensures number { result ≡ object_number (program_of program.now) name }
{
    number_of(&program.tree().decls, What::Objects, name) as u32
}

// The fields of the type that a declaration declares.
fn fields_in(decl: &Decl) -> Option<&List<At>>
    ensures fields { option_map names_of (option_copied result) ≡ option_map kind_fields (kind_in decl.now) }
{
    match decl {
        Decl::Kind(_, fields) => Some(fields),
        Decl::Object(..)
        | Decl::Queue(..)
        | Decl::Semaphore(..)
        | Decl::Function(..)
        | Decl::Thread(..)
        | Decl::Start(..) => None,
    }
}

// The fields of the type of a number, counted from 0.
#[tactic(auto, using(crate::proofs::LawSets::field_laws))]
fn fields_at<'a>(decls: &'a List<Decl>, kind: u32) -> Option<&'a List<At>>
    ensures fields { option_map names_of (option_copied result) ≡ option_map kind_fields (slice_get (filter_map kind_in decls.now) kind) }
{
    let mut left = kind;
    for at in 0..decls.len() {
        match fields_in(decls.get(at)) {
            Some(fields) => {
                if left == 0 {
                    return Some(fields);
                }
                left -= 1;
            }
            None => {}
        }
    }
    None
}

// The number of the first field of a name; where none has it, how many fields there are.
#[tactic(auto, using(crate::proofs::LawSets::field_name_laws))]
fn number_in(fields: &List<At>, name: u32) -> usize
    ensures number { result ≡ position_or_len (is_name name) (names_of fields.now) }
{
    for at in 0..fields.len() {
        if fields.get(at).name == name {
            return at;
        }
    }
    fields.len()
}

/// The number of the field of a name of a type; where none has it, how many fields the type has.
#[tactic(auto, using(crate::proofs::LawSets::number_laws))]
pub fn field_number(program: &Checked, kind: u32, name: u32) -> u32
    ensures number { result ≡ field_number (program_of program.now) kind name }
{
    match fields_at(&program.tree().decls, kind) {
        Some(fields) => number_in(fields, name) as u32,
        None => 0,
    }
}

/// How many fields a type has, at most 10; 0 where it isn't declared.
#[tactic(auto, using(crate::proofs::LawSets::number_laws))]
pub fn field_count(program: &Checked, kind: u32) -> u32
    ensures count { result ≡ length (fields_of (program_of program.now) kind) }
    ensures few { result ≤ 10 }
{
    match fields_at(&program.tree().decls, kind) {
        Some(fields) => fields.len() as u32,
        None => 0,
    }
}
