// What a run is to do, read from the words of the command line and the program's file.
ghost use Rattle.std.specs.Prelude.{◌≡◌, ◌≤◌, ◌<◌, IsTrue, ℕ, List, map, string_bytes, length, false, Some, None, IfOk, IfErr, IfSome, MatchResult};
ghost use Rattle.thread_check.specs.Faults.{fault_of};
ghost use Rattle.served_program.specs.Served.{is_served};
ghost use Rattle.intos_run.specs.Command.{IsCommand};
ghost use Rattle.intos_run.specs.Program.{IsProgram};
ghost use Rattle.intos_run.specs.Refusals.{RefusesText, RefusesProgram, RefusesRun};

use crate::command::{CommandFault, read_command};
use crate::refusal::{Refusal, refusal_of_check, refusal_of_text};
use outer_world::{FileFault, Files};
use served_program::is_served;
use std::alloc::Global;
use thread_check::{Checked, check, discard};
use thread_text::parse;

/// The most bytes of a program.
const MOST_BYTES: u32 = 65_536;

/// What a run is to do.
#[derive(Drop)]
pub struct Job {
    /// The program.
    pub program: Checked,
    /// The number of events, each of them a step.
    pub steps: u32,
    /// The budgets of the boots.
    pub cuts: Vec<u32>,
}

/// The program of a text, where it is accepted and served.
fn read_text(alloc: Global, text: &[u8]) -> Result<Checked, Refusal>
    requires short { length text.now ≤ 65536 }
    ensures runs { IfOk result (λ program. IsProgram text.now program) }
    ensures accepted { IfOk result (λ program. fault_of program ≡ None) }
    ensures served { IfOk result (λ program. IsTrue (is_served program)) }
    ensures refused { IfErr result (RefusesText text.now) }
{
    let tree = match parse(alloc, text) {
        Ok(tree) => tree,
        Err(fault) => return Err(refusal_of_text(fault)),
    };
    let program = match check(alloc, tree) {
        Ok(program) => program,
        Err(fault) => return Err(refusal_of_check(fault)),
    };
    if !is_served(&program) {
        discard(program);
        return Err(Refusal::ProgramNotYet);
    }
    Ok(program)
}

/// Reads the program of a file.
fn read_program<F: Files>(alloc: Global, name: &str, files: &mut F) -> Result<Checked, Refusal>
    requires allowed { F.allowed name.now false }
    ensures program { IfOk result (λ program. IfSome (F.contents files.old name.now) (λ text. IsProgram text program)) }
    ensures accepted { IfOk result (λ program. fault_of program ≡ None) }
    ensures served { IfOk result (λ program. IsTrue (is_served program)) }
    ensures faults { IfOk result (λ _. F.faults files.new ≡ F.faults files.old) }
    ensures refused { IfErr result (RefusesProgram (F.contents files.old name.now) (F.taken files.old) (F.taken files.new) (F.faults files.old) (F.faults files.new)) }
    ensures files { F.contents files.new ≡ F.contents files.old }
    ensures later { F.taken files.old ≤ F.taken files.new }
{
    let mut text = Vec::new(alloc);
    match files.read_all(alloc, name, MOST_BYTES, &mut text) {
        Ok(()) => read_text(alloc, &text),
        Err(FileFault::Failed) => Err(Refusal::ProgramUnread),
        Err(FileFault::TooLong) => Err(Refusal::ProgramTooLong),
        Err(FileFault::NoMemory) => Err(Refusal::NoMemory),
    }
}

/// Reads what a run is to do.
///
/// # Errors
///
/// The first reason for which it isn't begun, in this order: the words, the reading of the program, its text, its
/// rules, and what is served.
pub fn read_job<F: Files>(alloc: Global, words: &Vec<String>, files: &mut F) -> Result<Job, Refusal>
    requires allowed { (name : List ℕ) (steps : ℕ) (cuts : List ℕ) → IsCommand (map string_bytes words.now.items) name steps cuts → F.allowed name false }
    ensures job { IfOk result (λ job. (name : List ℕ) × IsCommand (map string_bytes words.now.items) name job.steps job.cuts.items
        × IfSome (F.contents files.old name) (λ text. IsProgram text job.program)) }
    ensures accepted { IfOk result (λ job. fault_of job.program ≡ None) }
    ensures served { IfOk result (λ job. IsTrue (is_served job.program)) }
    ensures faults { IfOk result (λ job. F.faults files.new ≡ F.faults files.old) }
    ensures refused { IfErr result (RefusesRun (map string_bytes words.now.items) (F.contents files.old) (F.taken files.old) (F.taken files.new) (F.faults files.old) (F.faults files.new)) }
    ensures files { F.contents files.new ≡ F.contents files.old }
{
    match read_command(alloc, words) {
        Ok(command) => match read_program(alloc, command.program, files) {
            Ok(program) => Ok(Job {
                program,
                steps: command.steps,
                cuts: command.cuts,
            }),
            Err(refusal) => Err(refusal),
        },
        Err(CommandFault::Usage) => Err(Refusal::Usage),
        Err(CommandFault::NoMemory) => Err(Refusal::NoMemory),
    }
}
