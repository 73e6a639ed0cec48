// The threads that a program starts, by their numbers.
ghost use Rattle.std.specs.Prelude.{◌≡◌, ◌<◌, ◌≤◌, length, slice_get, option_map};
ghost use Rattle.thread_tree.specs.Program.{program_of};
ghost use Rattle.thread_tree.specs.Numbers.{template_number};
ghost use Rattle.kernel_image.specs.Declarations.{started_in, argument_count_in, argument_in};
ghost use Rattle.kernel_image.specs.Initial.{initial_row_word, initial_start_value, argument_count, priority_of};

use crate::declared::{count_of, nth_of};
use crate::layout::{PRIORITY, READY, STAMP, START_COUNT, STATE, TEMPLATE, UNTIL};
use crate::parts::{priority_of, template_number};
use crate::sort::Sort;
use kernel_model::NEVER;
use thread_check::Checked;
use thread_tree::Decl;

// The name of the template of the thread that a declaration starts.
fn started_in(decl: &Decl) -> Option<u32>
    ensures template { result ≡ started_in decl.now }
{
    match decl {
        Decl::Start(_, name, _) => Some(name.name),
        Decl::Kind(..)
        | Decl::Object(..)
        | Decl::Queue(..)
        | Decl::Semaphore(..)
        | Decl::Function(..)
        | Decl::Thread(..) => None,
    }
}

// How many arguments the thread has that a declaration starts.
fn argument_count_in(decl: &Decl) -> usize
    ensures count { result ≡ argument_count_in decl.now }
{
    match decl {
        Decl::Start(_, _, arguments) => arguments.len(),
        Decl::Kind(..)
        | Decl::Object(..)
        | Decl::Queue(..)
        | Decl::Semaphore(..)
        | Decl::Function(..)
        | Decl::Thread(..) => 0,
    }
}

// An argument of the thread that a declaration starts; 0 behind them.
#[tactic(auto, using(crate::proofs::LawSets::argument_laws))]
fn argument_in(decl: &Decl, i: u32) -> u32
    ensures argument { result ≡ argument_in decl.now i }
{
    match decl {
        Decl::Start(_, _, arguments) => {
            if (i as usize) < arguments.len() {
                arguments.get(i as usize).value
            } else {
                0
            }
        }
        Decl::Kind(..)
        | Decl::Object(..)
        | Decl::Queue(..)
        | Decl::Semaphore(..)
        | Decl::Function(..)
        | Decl::Thread(..) => 0,
    }
}

/// How many threads a program starts.
#[tactic(auto, using(crate::proofs::LawSets::start_laws))]
pub(crate) fn start_count(program: &Checked) -> u32
    ensures count { result ≡ length (program_of program.now).starts }
{
    count_of(&program.tree().decls, Sort::Start) as u32
}

// The name of the template of a thread, if it is started.
#[tactic(auto, using(crate::proofs::LawSets::start_laws))]
fn started(program: &Checked, thread: u32) -> Option<u32>
    ensures template { result ≡ option_map (λ start. start.template) (slice_get (program_of program.now).starts thread) }
{
    match nth_of(&program.tree().decls, Sort::Start, thread) {
        Some(decl) => started_in(decl),
        None => None,
    }
}

// How many arguments a started thread has; 0 where it isn't started.
#[tactic(auto, using(crate::proofs::LawSets::start_laws))]
fn argument_count(program: &Checked, thread: u32) -> u32
    ensures count { result ≡ argument_count (program_of program.now) thread }
{
    match nth_of(&program.tree().decls, Sort::Start, thread) {
        Some(decl) => argument_count_in(decl) as u32,
        None => 0,
    }
}

/// A start value of a thread; 0 where it isn't started, and behind its arguments.
#[tactic(auto, using(crate::proofs::LawSets::start_laws))]
pub(crate) fn initial_start_value(program: &Checked, thread: u32, i: u32) -> u32
    ensures value { result ≡ initial_start_value (program_of program.now) thread i }
{
    match nth_of(&program.tree().decls, Sort::Start, thread) {
        Some(decl) => argument_in(decl, i),
        None => 0,
    }
}

// The priority of the template of a name.
fn started_priority(program: &Checked, name: u32) -> u32
    ensures priority { result ≡ priority_of (program_of program.now) (template_number (program_of program.now) name) }
{
    let template = template_number(program, name);
    priority_of(program, template)
}

/// A word of the row of a thread; 0 where it isn't started.
#[tactic(auto, using(crate::proofs::LawSets::row_laws))]
pub(crate) fn initial_row_word(program: &Checked, thread: u32, word: u32) -> u32
    ensures word { result ≡ initial_row_word (program_of program.now) thread word }
{
    match started(program, thread) {
        None => 0,
        Some(name) => match word {
            STATE => READY,
            TEMPLATE => template_number(program, name),
            PRIORITY => started_priority(program, name),
            UNTIL => NEVER,
            STAMP => thread,
            START_COUNT => argument_count(program, thread),
            _ => 0,
        },
    }
}
