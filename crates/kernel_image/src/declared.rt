// What a program declares, by its number or its name.
ghost use Rattle.std.specs.Prelude.{◌≡◌, ◌<◌, ◌≤◌, length, filter, slice_get, option_copied};
ghost use Rattle.std.specs.List.{position_or_len};
ghost use Rattle.kernel_image.specs.Declarations.{is_of, name_of, has_name};

use crate::sort::Sort;
use thread_tree::{Decl, List};

// Whether a declaration declares this.
fn is_of(decl: &Decl, sort: Sort) -> bool
    ensures is { result ≡ is_of sort decl.now }
{
    match decl {
        Decl::Kind(..) => matches!(sort, Sort::Kind),
        Decl::Object(..) => matches!(sort, Sort::Object),
        Decl::Queue(..) => matches!(sort, Sort::Queue),
        Decl::Semaphore(..) => matches!(sort, Sort::Semaphore),
        Decl::Function(..) => false,
        Decl::Thread(..) => matches!(sort, Sort::Thread),
        Decl::Start(..) => matches!(sort, Sort::Start),
    }
}

/// The name that a declaration declares; of a start that of its template.
pub fn name_of(decl: &Decl) -> u32
    ensures name { result ≡ name_of decl.now }
{
    match decl {
        Decl::Kind(name, _) => name.name,
        Decl::Object(name, _) => name.name,
        Decl::Queue(name, _, _) => name.name,
        Decl::Semaphore(name, _, _) => name.name,
        Decl::Function(name, _, _) => name.name,
        Decl::Thread(name, _, _, _) => name.name,
        Decl::Start(_, name, _) => name.name,
    }
}

/// The declaration of this sort that has this number, counted from 0.
#[tactic(auto, using(crate::proofs::LawSets::walk_laws))]
pub fn nth_of<'a>(decls: &'a List<Decl>, sort: Sort, number: u32) -> Option<&'a Decl>
    ensures found { option_copied result ≡ slice_get (filter (is_of sort) decls.now) number }
{
    let mut left = number;
    for at in 0..decls.len() {
        let decl = decls.get(at);
        if is_of(decl, sort) {
            if left == 0 {
                return Some(decl);
            }
            left -= 1;
        }
    }
    None
}

/// The number of the first declaration of this sort that has this name; where none has it, how many there are.
#[tactic(auto, using(crate::proofs::LawSets::name_laws))]
pub(crate) fn number_of(decls: &List<Decl>, sort: Sort, name: u32) -> usize
    ensures number { result ≡ position_or_len (has_name name) (filter (is_of sort) decls.now) }
{
    let mut number = 0;
    for at in 0..decls.len() {
        let decl = decls.get(at);
        if is_of(decl, sort) {
            if name_of(decl) == name {
                return number;
            }
            number += 1;
        }
    }
    number
}

/// How many declarations of this sort there are.
#[tactic(auto, using(crate::proofs::LawSets::count_laws))]
pub(crate) fn count_of(decls: &List<Decl>, sort: Sort) -> usize
    ensures count { result ≡ length (filter (is_of sort) decls.now) }
{
    let mut count = 0;
    for at in 0..decls.len() {
        if is_of(decls.get(at), sort) {
            count += 1;
        }
    }
    count
}
