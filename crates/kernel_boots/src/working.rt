// Event after event.
ghost use Rattle.std.specs.Prelude.{◌≡◌, ◌+◌, ◌-◌, ◌*◌, ◌<◌, ◌≤◌, ℕ, length, IfOk, IfErr, IsTrue, MatchResult, Some};
ghost use Rattle.nv_memory.specs.Budget.{IsShort};
ghost use Rattle.undo_journal.specs.Undo.{IsAtRest};
ghost use Rattle.thread_tree.specs.Program.{program_of};
ghost use Rattle.kernel_image.specs.Decoded.{image_in};
ghost use Rattle.kernel_model.specs.Kernel.{State};
ghost use Rattle.replay_list.specs.Kept.{counter_of};
ghost use Rattle.served_program.specs.Served.{is_served};
ghost use Rattle.kernel_boots.specs.Boots.{IsSpent};
ghost use Rattle.kernel_boots.specs.Courses.{course, IsUnderWay, IsLive, AreSteps};

use crate::world::World;
use kernel_events::{EVENT_WRITES, perform_event};
use kernel_image::counter as events_of;
use kernel_model::soundness;
use nv_memory::Nv;
use replay_list::{Kernel, standing_laws};
use std::sync::ledger::Ledger;
use step_counter::Steps;
use thread_check::Checked;
use thread_tree::MOVES;
use undo_journal::Dark;

/// The power was cut in the midst of an event: the dark device, and how many events are committed.
#[must_use]
pub struct Stopped<N: Nv> {
    /// The device.
    pub dark: Dark<N>,
    /// The number of events.
    pub events: u32,
}

/// Gives the kernel event after event of a world, until it has no more or the power is cut. Whatever course the kernel is
/// live on, it stays live on it. Today each event is a step of a program that is served.
///
/// # Errors
///
/// The device without power, with the number of events that are committed: fewer writes were left than 6,400 for each
/// event since and for the one that was cut.
pub fn work<N: Nv, W: World, L: Ledger>(
    kernel: Kernel<N>,
    program: &Checked,
    world: &mut W,
    counter: &mut Steps<L>,
) -> Result<Kernel<N>, Stopped<N>>
    requires at_rest { IsAtRest (N.words kernel.idle) }
    requires served { IsTrue (is_served program.now) }
    requires all_steps { AreSteps (W.events world.old) }
    requires few { length (W.events world.old) ≤ 1000000 }
    requires floor { W.floor world.old ≤ (image_in (N.words kernel.idle)).events }
    requires live { (K : State) × IsLive (course (program_of program.now) K (W.events world.old)) (image_in (N.words kernel.idle)) kernel.contexts }
    ensures live { IfOk result (λ next. (K : State) → IsLive (course (program_of program.now) K (W.events world.old)) (image_in (N.words kernel.idle)) kernel.contexts
        → IsLive (course (program_of program.now) K (W.events world.old)) (image_in (N.words next.idle)) next.contexts) }
    ensures all { IfOk result (λ next. length (W.events world.old) ≤ (image_in (N.words next.idle)).events) }
    ensures at_rest { IfOk result (λ next. IsAtRest (N.words next.idle)) }
    ensures under_way { IfErr result (λ stopped. (K : State) → IsLive (course (program_of program.now) K (W.events world.old)) (image_in (N.words kernel.idle)) kernel.contexts
        → IsUnderWay (course (program_of program.now) K (W.events world.old)) (N.words stopped.dark)) }
    ensures count { IfErr result (λ stopped. stopped.events ≡ counter_of (N.words stopped.dark)) }
    ensures some { IfErr result (λ stopped. stopped.events < length (W.events world.old)) }
    ensures later { MatchResult result
        (λ next. (image_in (N.words kernel.idle)).events ≤ (image_in (N.words next.idle)).events)
        (λ stopped. (image_in (N.words kernel.idle)).events ≤ stopped.events) }
    ensures no_write_left { IfErr result (λ stopped. N.left stopped.dark ≡ Some 0) }
    ensures progress { IfErr result (λ stopped. IsShort (N.left kernel.idle) (EVENT_WRITES * (stopped.events + 1 - (image_in (N.words kernel.idle)).events))) }
    ensures spent { MatchResult result (λ next. IsSpent N.Nv kernel.idle next.idle) (λ stopped. IsSpent N.Nv kernel.idle stopped.dark) }
    ensures same { W.events world.new ≡ W.events world.old }
    ensures floor { MatchResult result (λ next. W.floor world.new ≡ (image_in (N.words next.idle)).events) (λ stopped. W.floor world.new ≡ stopped.events) }
    ensures counted { counter.old ≤ counter.new }
    ensures steps { MatchResult result
        (λ next. counter.new + MOVES * (image_in (N.words kernel.idle)).events ≤ counter.old + MOVES * (image_in (N.words next.idle)).events)
        (λ stopped. counter.new + MOVES * (image_in (N.words kernel.idle)).events ≤ counter.old + MOVES * (stopped.events + 1)) }
{
    soundness();
    standing_laws();
    let Kernel { idle, contexts } = kernel;
    let mut idle = idle;
    let mut contexts = contexts;
    let mut events = events_of(&idle);
    while let Some(event) = world.next(events) {
        match perform_event(idle, program, &mut contexts, event, counter) {
            Ok(next) => {
                idle = next;
                events += 1;
            }
            Err(dark) => return Err(Stopped { dark, events }),
        }
    }
    Ok(Kernel { idle, contexts })
}
