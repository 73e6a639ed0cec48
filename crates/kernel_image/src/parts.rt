// The parts of a checked program by their numbers.
ghost use Rattle.std.specs.Prelude.{◌≡◌, ◌<◌, ◌≤◌, length};
ghost use Rattle.thread_tree.specs.Program.{program_of};
ghost use Rattle.kernel_model.specs.Calls.{capacity_of};
ghost use Rattle.thread_tree.specs.Numbers.{template_number, kind_number, fields_of};
ghost use Rattle.kernel_image.specs.Declarations.{capacity_in, count_in, priority_in, field_count_in};
ghost use Rattle.kernel_image.specs.Initial.{initial_count, priority_of};

use crate::declared::{nth_of, number_of};
use crate::sort::Sort;
use thread_check::Checked;
use thread_tree::{Decl, TARGETS};

// The capacity of a queue that is declared.
fn capacity_in(decl: &Decl) -> u32
    ensures capacity { result ≡ capacity_in decl.now }
{
    match decl {
        Decl::Queue(_, capacity, _) => capacity.value,
        Decl::Kind(..)
        | Decl::Object(..)
        | Decl::Semaphore(..)
        | Decl::Function(..)
        | Decl::Thread(..)
        | Decl::Start(..) => 0,
    }
}

// The count at the start of a semaphore that is declared.
fn count_in(decl: &Decl) -> u32
    ensures count { result ≡ count_in decl.now }
{
    match decl {
        Decl::Semaphore(_, count, _) => count.value,
        Decl::Kind(..)
        | Decl::Object(..)
        | Decl::Queue(..)
        | Decl::Function(..)
        | Decl::Thread(..)
        | Decl::Start(..) => 0,
    }
}

// The priority of a template that is declared.
fn priority_in(decl: &Decl) -> u32
    ensures priority { result ≡ priority_in decl.now }
{
    match decl {
        Decl::Thread(_, _, priority, _) => priority.value,
        Decl::Kind(..)
        | Decl::Object(..)
        | Decl::Queue(..)
        | Decl::Semaphore(..)
        | Decl::Function(..)
        | Decl::Start(..) => 0,
    }
}

// How many fields a type that is declared has.
fn field_count_in(decl: &Decl) -> usize
    ensures count { result ≡ field_count_in decl.now }
{
    match decl {
        Decl::Kind(_, fields) => fields.len(),
        Decl::Object(..)
        | Decl::Queue(..)
        | Decl::Semaphore(..)
        | Decl::Function(..)
        | Decl::Thread(..)
        | Decl::Start(..) => 0,
    }
}

/// How many items a queue holds at most; 0 where it isn't declared.
#[tactic(auto, using(crate::proofs::LawSets::part_laws))]
pub(crate) fn capacity_of(program: &Checked, queue: u32) -> u32
    ensures capacity { result ≡ capacity_of (program_of program.now) queue }
{
    match nth_of(&program.tree().decls, Sort::Queue, queue) {
        Some(decl) => capacity_in(decl),
        None => 0,
    }
}

/// The capacity of a queue that is declared.
#[tactic(auto, using(crate::proofs::LawSets::queue_laws))]
pub(crate) fn declared_capacity(program: &Checked, queue: u32) -> u32
    requires declared { queue < length (program_of program.now).queues }
    ensures capacity { result ≡ capacity_of (program_of program.now) queue }
    ensures least { 1 ≤ result }
    ensures most { result ≤ 48 }
    ensures few { length (program_of program.now).queues ≤ TARGETS }
{
    let _ = program.tree();
    capacity_of(program, queue)
}

/// The count of a semaphore at the start; 0 where it isn't declared.
#[tactic(auto, using(crate::proofs::LawSets::part_laws))]
pub(crate) fn initial_count(program: &Checked, semaphore: u32) -> u32
    ensures count { result ≡ initial_count (program_of program.now) semaphore }
{
    match nth_of(&program.tree().decls, Sort::Semaphore, semaphore) {
        Some(decl) => count_in(decl),
        None => 0,
    }
}

/// The priority of a template; 0 where it isn't declared.
#[tactic(auto, using(crate::proofs::LawSets::part_laws))]
pub(crate) fn priority_of(program: &Checked, template: u32) -> u32
    ensures priority { result ≡ priority_of (program_of program.now) template }
{
    match nth_of(&program.tree().decls, Sort::Thread, template) {
        Some(decl) => priority_in(decl),
        None => 0,
    }
}

/// How many fields a type has; 0 where it isn't declared.
#[tactic(auto, using(crate::proofs::LawSets::part_laws))]
pub(crate) fn field_count(program: &Checked, kind: u32) -> usize
    ensures count { result ≡ length (fields_of (program_of program.now) kind) }
{
    match nth_of(&program.tree().decls, Sort::Kind, kind) {
        Some(decl) => field_count_in(decl),
        None => 0,
    }
}

/// The number of the template of a name.
#[tactic(auto, using(crate::proofs::LawSets::part_laws))]
pub(crate) fn template_number(program: &Checked, name: u32) -> u32
    ensures number { result ≡ template_number (program_of program.now) name }
{
    number_of(&program.tree().decls, Sort::Thread, name) as u32
}

/// The number of the type of a name.
#[tactic(auto, using(crate::proofs::LawSets::part_laws))]
pub(crate) fn kind_number(program: &Checked, name: u32) -> u32
    ensures number { result ≡ kind_number (program_of program.now) name }
    ensures few { result ≤ 32 }
{
    number_of(&program.tree().decls, Sort::Kind, name) as u32
}
