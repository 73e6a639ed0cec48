// The top call: all that the program does.
ghost use Rattle.std.specs.Prelude.{◌≡◌, ◌≢◌, IsTrue, ◌⊎◌, ◌<◌, ◌≤◌, ◌++◌, ℕ, List, [], ◌∷◌, length, map, string_bytes, false, slice_index, Some, None, MatchResult, codes};
ghost use Rattle.nv_memory.specs.Blank.{blank_words};
ghost use Rattle.outer_world.specs.Causes.{HasCause, Rose, RoseBy};
ghost use Rattle.outer_world.specs.Written.{put_to, IsPart, Puts};
ghost use Rattle.kernel_model.specs.Dump.{dump_lines, text_of};
ghost use Rattle.kernel_model.specs.Kernel.{State};
ghost use Rattle.kernel_model.specs.Show.{names_of, timed_list, visible};
ghost use Rattle.undo_journal.specs.Undo.{IsAtRest};
ghost use Rattle.thread_tree.specs.Program.{program_of};
ghost use Rattle.kernel_image.specs.Decoded.{image_in};
ghost use Rattle.replay_list.specs.Kept.{counter_of};
ghost use Rattle.replay_list.specs.Stands.{Stands};
ghost use Rattle.served_program.specs.Served.{is_served};
ghost use Rattle.kernel_boots.specs.Courses.{uncut, last};
ghost use Rattle.intos_run.specs.Command.{IsCommand};
ghost use Rattle.intos_run.specs.Refusals.{IsStatus, IsRefusal, IsUndefined, Tells, line_of, status_of, faulty_line};
ghost use Rattle.intos_run.specs.Report.{report};
ghost use Rattle.intos_run.specs.Runs.{StepsWithin, budgets_of, HasBudgets, HasImages, IsWhole, IsBroken, IsUntouched};
ghost use Rattle.intos_run.specs.Steps.{steps_course};
ghost use Rattle.intos_run.specs.Top.{Task, Asks, AreAccepted, IsRefusedBy};
ghost use Rattle.intos_run.specs.declared.fault.Fault.{Fault};
ghost use Rattle.intos_run.specs.declared.refusal.Refusal.TheVariants.{NoMemory};
ghost use Rattle.thread_tree.specs.declared.place.Place.{Place};

use crate::boots::run_boots;
use crate::job::{Job, read_job};
use crate::refusal::Refusal;
use crate::step_world::StepWorld;
use kernel_boots::beginning;
use kernel_dump::put_dump;
use nv_memory::Nv;
use outer_world::{Files, Sink};
use served_program::served_laws;
use served_runs::served_runs;
use std::alloc::Global;
use std::sync::ledger::Ledger;
use step_counter::Steps;
use thread_check::Checked;
use undo_journal::settle;

/// What a run left: the status with which the program ends, and the device.
pub struct Ended<N: Nv> {
    /// 0 where every event is committed and the report is written, 2 for other words, 3 for a program that couldn't be
    /// read, 4 for one that isn't served, 6 where the sink failed, 7 for want of memory.
    pub status: u8,
    /// The device.
    pub nv: N,
}

/// Ends a run that isn't begun.
fn refuse<N: Nv, S: Sink>(refusal: Refusal, sink: &mut S, nv: N) -> Ended<N>
    ensures status { result.status ≡ status_of refusal }
    ensures same { result.nv ≡ nv }
    ensures tells { Tells (line_of refusal) (S.bytes sink.old) (S.bytes sink.new) (S.faults sink.old) (S.faults sink.new) }
{
    let _ = refusal.put(sink);
    Ended {
        status: refusal.status(),
        nv,
    }
}

/// Writes the dump of a device at rest, of the kernel for which it stands.
///
/// # Errors
///
/// The device, where the sink failed.
fn dump<N: Nv, S: Sink, L: Ledger>(
    nv: N,
    program: &Checked,
    sink: &mut S,
    steps: &mut Steps<L>,
) -> Result<N, N>
    requires at_rest { IsAtRest (N.words nv) }
    requires served { IsTrue (is_served program.now) }
    requires stands { (K : State) × Stands (program_of program.now) (image_in (N.words nv)) K × (timed_list K ≡ []) }
    ensures words { MatchResult result (λ same. N.words same ≡ N.words nv) (λ same. N.words same ≡ N.words nv) }
    ensures left { MatchResult result (λ same. N.left same ≡ N.left nv) (λ same. N.left same ≡ N.left nv) }
    ensures to_come { MatchResult result (λ same. N.to_come same ≡ N.to_come nv) (λ same. N.to_come same ≡ N.to_come nv) }
    ensures ends { MatchResult result (λ same. N.ends same ≡ N.ends nv) (λ same. N.ends same ≡ N.ends nv) }
    ensures puts { (K : State) → Stands (program_of program.now) (image_in (N.words nv)) K
        → Puts result (S.bytes sink.old) (S.bytes sink.new) (text_of (dump_lines (names_of (program_of program.now)) (visible (program_of program.now) K))) }
    ensures cause { HasCause (S.faults sink.old) (S.faults sink.new) result }
    ensures steps { steps.new ≡ steps.old }
{
    served_laws();
    match settle(nv, steps) {
        Ok(idle) => match put_dump(&idle, program, sink) {
            Ok(()) => Ok(idle.rest()),
            Err(_) => Err(idle.rest()),
        },
        Err(dark) => Err(dark.leave()),
    }
}

/// Runs so many steps from the start of a program, on a device that isn't formatted.
///
/// # Errors
///
/// The device, where the sink failed.
fn run_steps<N: Nv, S: Sink, L: Ledger>(
    nv: N,
    program: &Checked,
    steps: u32,
    sink: &mut S,
    counter: &mut Steps<L>,
) -> Result<N, N>
    requires blank { slice_index (N.words nv) 0 ≡ 0 }
    requires served { IsTrue (is_served program.now) }
    requires few_steps { steps ≤ 1000000 }
    requires few_budgets { length (budgets_of (N.left nv) (N.to_come nv)) ≤ 1000 }
    requires mains { N.left nv ≡ None → N.to_come nv ≡ [] }
    requires no_ends { N.ends nv ≡ [] }
    ensures run { MatchResult result
        (IsWhole N.Nv (steps_course (program_of program.now) steps) (budgets_of (N.left nv) (N.to_come nv)) (N.words nv) (S.bytes sink.old) (S.bytes sink.new))
        (IsBroken N.Nv (steps_course (program_of program.now) steps) (budgets_of (N.left nv) (N.to_come nv)) (N.words nv) (S.bytes sink.old) (S.bytes sink.new)) }
    ensures all { last (steps_course (program_of program.now) steps) ≡ steps }
    ensures untimed { timed_list (uncut (steps_course (program_of program.now) steps) steps) ≡ [] }
    ensures cause { MatchResult result (λ _. S.faults sink.new ≡ S.faults sink.old) (λ _. Rose (S.faults sink.old) (S.faults sink.new)) }
    ensures steps { MatchResult result
        (λ end. StepsWithin (steps_course (program_of program.now) steps) counter.old counter.new (N.words nv) (N.ends end) (N.words end))
        (λ end. StepsWithin (steps_course (program_of program.now) steps) counter.old counter.new (N.words nv) (N.ends end) (N.words end)) }
{
    beginning();
    served_runs();
    let mut world = StepWorld { steps, asked: 0 };
    run_boots(nv, program, &mut world, sink, counter)
}

/// Gives the device its budgets and runs it.
fn run_job<N: Nv, S: Sink, L: Ledger>(
    alloc: Global,
    job: &Job,
    sink: &mut S,
    nv: N,
    steps: &mut Steps<L>,
) -> Ended<N>
    requires blank { N.words nv ≡ blank_words }
    requires mains { N.left nv ≡ None }
    requires none_to_come { N.to_come nv ≡ [] }
    requires no_ends { N.ends nv ≡ [] }
    requires served { IsTrue (is_served job.now.program) }
    requires few_steps { job.now.steps ≤ 1000000 }
    requires few_cuts { length job.now.cuts.items ≤ 1000 }
    ensures statuses { (result.status ≡ 0) ⊎ ((result.status ≡ 6) ⊎ (result.status ≡ 7)) }
    ensures budgets { result.status ≢ 7 → HasBudgets job.now.cuts.items (N.ends result.nv) (N.left result.nv) (N.to_come result.nv) }
    ensures images { result.status ≢ 7 → HasImages (steps_course (program_of job.now.program) job.now.steps) job.now.cuts.items (N.words nv) (N.ends result.nv) (N.words result.nv) }
    ensures complete { result.status ≡ 0 → counter_of (N.words result.nv) ≡ job.now.steps }
    ensures text { result.status ≡ 0 → S.bytes sink.new ≡ put_to (S.bytes sink.old) (report (steps_course (program_of job.now.program) job.now.steps) job.now.cuts.items (N.words nv) (N.ends result.nv) (N.words result.nv)) }
    ensures part { result.status ≡ 6 → IsPart (S.bytes sink.old) (S.bytes sink.new) (report (steps_course (program_of job.now.program) job.now.steps) job.now.cuts.items (N.words nv) (N.ends result.nv) (N.words result.nv)) }
    ensures broken { result.status ≡ 6 → Rose (S.faults sink.old) (S.faults sink.new) }
    ensures faults { result.status ≡ 0 → S.faults sink.new ≡ S.faults sink.old }
    ensures memory { result.status ≡ 7 → Tells (line_of NoMemory) (S.bytes sink.old) (S.bytes sink.new) (S.faults sink.old) (S.faults sink.new) }
    ensures untouched { result.status ≡ 7 → IsUntouched N.Nv nv result.nv }
    ensures steps { result.status ≢ 7 → StepsWithin (steps_course (program_of job.now.program) job.now.steps) steps.old steps.new (N.words nv) (N.ends result.nv) (N.words result.nv) }
    ensures uncounted { result.status ≡ 7 → steps.new ≡ steps.old }
{
    let mut nv = nv;
    if nv.plan(alloc, &job.cuts).is_err() {
        return refuse(Refusal::NoMemory, sink, nv);
    }
    match run_steps(nv, &job.program, job.steps, sink, steps) {
        Ok(done) => match dump(done, &job.program, sink, steps) {
            Ok(nv) => Ended { status: 0, nv },
            Err(nv) => Ended { status: 6, nv },
        },
        Err(nv) => Ended { status: 6, nv },
    }
}

/// Does all that the program does: reads the words of the command line and the program, gives the device its budgets,
/// runs boot after boot, and writes the report (docs/PROGRAM.md, docs/BOOTS.md, docs/REPORT.md).
///
/// The clauses for statuses 0 and 6 speak of any task that the words ask for and whose text the files tell.
pub fn run<F: Files, S: Sink, N: Nv, L: Ledger>(
    alloc: Global,
    words: &Vec<String>,
    files: &mut F,
    sink: &mut S,
    nv: N,
    steps: &mut Steps<L>,
) -> Ended<N>
    requires blank { N.words nv ≡ blank_words }
    requires mains { N.left nv ≡ None }
    requires none_to_come { N.to_come nv ≡ [] }
    requires no_ends { N.ends nv ≡ [] }
    requires allowed { (name : List ℕ) (steps : ℕ) (cuts : List ℕ) → IsCommand (map string_bytes words.now.items) name steps cuts → F.allowed name false }

    // The budgets were really set.
    ensures budgets { result.status ≡ 0 ⊎ result.status ≡ 6 → (task : Task) → Asks (map string_bytes words.now.items) (F.contents files.old) task
        → HasBudgets task.cuts (N.ends result.nv) (N.left result.nv) (N.to_come result.nv) }

    // Every image and the last words are kept for the uncut run, and the events that they count never fall.
    ensures images { result.status ≡ 0 ⊎ result.status ≡ 6 → (task : Task) → Asks (map string_bytes words.now.items) (F.contents files.old) task
        → HasImages (steps_course (program_of task.tree) task.steps) task.cuts (N.words nv) (N.ends result.nv) (N.words result.nv) }

    // With status 0 every event is committed, and the bytes put are the report; with status 6 a prefix of it.
    ensures complete { result.status ≡ 0 → (task : Task) → Asks (map string_bytes words.now.items) (F.contents files.old) task → counter_of (N.words result.nv) ≡ task.steps }
    ensures text { result.status ≡ 0 → (task : Task) → Asks (map string_bytes words.now.items) (F.contents files.old) task
        → S.bytes sink.new ≡ put_to (S.bytes sink.old) (report (steps_course (program_of task.tree) task.steps) task.cuts (N.words nv) (N.ends result.nv) (N.words result.nv)) }
    ensures text_so_far { result.status ≡ 6 → (task : Task) → Asks (map string_bytes words.now.items) (F.contents files.old) task
        → IsPart (S.bytes sink.old) (S.bytes sink.new) (report (steps_course (program_of task.tree) task.steps) task.cuts (N.words nv) (N.ends result.nv) (N.words result.nv)) }

    // Each status has its cause, and a run that isn't begun puts its line and nothing else.
    ensures statuses { IsStatus result.status }
    ensures usage { result.status ≡ 2 → IsUndefined (map string_bytes words.now.items) }
    ensures defined { IsUndefined (map string_bytes words.now.items) → (result.status ≡ 2) ⊎ (result.status ≡ 7) }
    ensures usage_line { result.status ≡ 2 → Tells (codes "usage: intos run PROGRAM STEPS [CUT ..]") (S.bytes sink.old) (S.bytes sink.new) (S.faults sink.old) (S.faults sink.new) }
    ensures unread { result.status ≡ 3 → Rose (F.faults files.old) (F.faults files.new) }
    ensures unread_line { result.status ≡ 3 → Tells (codes "cannot read program") (S.bytes sink.old) (S.bytes sink.new) (S.faults sink.old) (S.faults sink.new) }
    ensures refused { result.status ≡ 4 → (name : List ℕ) (steps : ℕ) (cuts : List ℕ) (text : List ℕ) → IsCommand (map string_bytes words.now.items) name steps cuts
        → F.contents files.old name ≡ Some text
        → (line : List ℕ) × IsRefusedBy text line × Tells line (S.bytes sink.old) (S.bytes sink.new) (S.faults sink.old) (S.faults sink.new) }
    ensures untold { result.status ≡ 4
        → (RoseBy 65537 (F.taken files.old) (F.taken files.new) × Tells (codes "program TooLong") (S.bytes sink.old) (S.bytes sink.new) (S.faults sink.old) (S.faults sink.new))
        ⊎ (Tells (codes "program NotYet") (S.bytes sink.old) (S.bytes sink.new) (S.faults sink.old) (S.faults sink.new)
        ⊎ ((place : Place) × (fault : Fault) × Tells (faulty_line place fault) (S.bytes sink.old) (S.bytes sink.new) (S.faults sink.old) (S.faults sink.new))) }
    ensures memory_line { result.status ≡ 7 → Tells (codes "no memory") (S.bytes sink.old) (S.bytes sink.new) (S.faults sink.old) (S.faults sink.new) }
    ensures accepted { result.status ≡ 0 ⊎ result.status ≡ 6 → AreAccepted (map string_bytes words.now.items) (F.contents files.old) }
    ensures broken { result.status ≡ 6 → Rose (S.faults sink.old) (S.faults sink.new) }
    ensures served { (task : Task) → Asks (map string_bytes words.now.items) (F.contents files.old) task
        → (Rose (F.faults files.old) (F.faults files.new) → ⊥) → (Rose (S.faults sink.old) (S.faults sink.new) → ⊥) → (result.status ≡ 0) ⊎ (result.status ≡ 7) }
    ensures no_fault { result.status ≡ 0 → (F.faults files.new ≡ F.faults files.old) × (S.faults sink.new ≡ S.faults sink.old) }
    ensures untouched { IsRefusal result.status → IsUntouched N.Nv nv result.nv }

    // The steps are at most those that the recoveries of its boots may take and 10,000 for each event and each boot.
    ensures steps { result.status ≡ 0 ⊎ result.status ≡ 6 → (task : Task) → Asks (map string_bytes words.now.items) (F.contents files.old) task
        → StepsWithin (steps_course (program_of task.tree) task.steps) steps.old steps.new (N.words nv) (N.ends result.nv) (N.words result.nv) }
    ensures uncounted { IsRefusal result.status → steps.new ≡ steps.old }
{
    match read_job(alloc, words, files) {
        Ok(job) => run_job(alloc, &job, sink, nv, steps),
        Err(refusal) => refuse(refusal, sink, nv),
    }
}
