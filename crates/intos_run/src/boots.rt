// Boot after boot, until one comes to the last event.
ghost use Rattle.std.specs.Prelude.{◌≡◌, ◌≤◌, [], IsTrue, length, None, MatchResult};
ghost use Rattle.outer_world.specs.Causes.{Rose};
ghost use Rattle.thread_tree.specs.Program.{program_of};
ghost use Rattle.kernel_model.specs.Kernel.{State};
ghost use Rattle.replay_list.specs.Kept.{counter_of};
ghost use Rattle.served_program.specs.Served.{is_served};
ghost use Rattle.kernel_boots.specs.Courses.{course, IsUnderWay, AreSteps};
ghost use Rattle.intos_run.specs.Runs.{StepsWithin, budgets_of, IsWhole, IsBroken};

use crate::boot::{BootEnd, boot};
use kernel_boots::World;
use nv_memory::Nv;
use outer_world::Sink;
use std::sync::ledger::Ledger;
use step_counter::Steps;
use thread_check::Checked;

/// Runs boot after boot, each on nothing but the device that the one before left, until one comes to the last event.
/// What it ensures holds of each course on which the words were under way.
///
/// # Errors
///
/// The device, where the sink failed.
pub fn run_boots<N: Nv, W: World, S: Sink, L: Ledger>(
    nv: N,
    program: &Checked,
    world: &mut W,
    sink: &mut S,
    counter: &mut Steps<L>,
) -> Result<N, N>
    requires under_way { (K : State) × IsUnderWay (course (program_of program.now) K (W.events world.old)) (N.words nv) }
    requires served { IsTrue (is_served program.now) }
    requires all_steps { AreSteps (W.events world.old) }
    requires few_events { length (W.events world.old) ≤ 1000000 }
    requires floor { W.floor world.old ≤ counter_of (N.words nv) }
    requires few_budgets { length (budgets_of (N.left nv) (N.to_come nv)) ≤ 1000 }
    requires mains { N.left nv ≡ None → N.to_come nv ≡ [] }
    requires no_ends { N.ends nv ≡ [] }
    ensures run { (K : State) → IsUnderWay (course (program_of program.now) K (W.events world.old)) (N.words nv) → MatchResult result
        (IsWhole N.Nv (course (program_of program.now) K (W.events world.old)) (budgets_of (N.left nv) (N.to_come nv)) (N.words nv) (S.bytes sink.old) (S.bytes sink.new))
        (IsBroken N.Nv (course (program_of program.now) K (W.events world.old)) (budgets_of (N.left nv) (N.to_come nv)) (N.words nv) (S.bytes sink.old) (S.bytes sink.new)) }
    ensures cause { MatchResult result (λ _. S.faults sink.new ≡ S.faults sink.old) (λ _. Rose (S.faults sink.old) (S.faults sink.new)) }
    ensures steps { (K : State) → IsUnderWay (course (program_of program.now) K (W.events world.old)) (N.words nv) → MatchResult result
        (λ end. StepsWithin (course (program_of program.now) K (W.events world.old)) counter.old counter.new (N.words nv) (N.ends end) (N.words end))
        (λ end. StepsWithin (course (program_of program.now) K (W.events world.old)) counter.old counter.new (N.words nv) (N.ends end) (N.words end)) }
{
    let mut nv = nv;
    let mut number = 1;
    'boots: loop {
        match boot(nv, number, program, world, sink, counter) {
            BootEnd::Done(done) => return Ok(done),
            BootEnd::Cut(dark) => {
                nv = dark.again();
                number += 1;
            }
            BootEnd::SinkFailed(stopped) => return Err(stopped),
        }
    }
}
