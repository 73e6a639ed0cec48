// One event of the kernel.
ghost use Rattle.std.specs.Prelude.{◌≡◌, ◌+◌, ◌<◌, ◌≤◌, IfOk, IsTrue, MatchResult, Some, ℕ};
ghost use Rattle.undo_journal.specs.Undo.{IsAtRest};
ghost use Rattle.thread_tree.specs.Program.{program_of};
ghost use Rattle.kernel_image.specs.Decoded.{image_in};
ghost use Rattle.kernel_model.specs.declared.event.Event.TheVariants.{Step};
ghost use Rattle.kernel_model.specs.Kernel.{State};
ghost use Rattle.kernel_model.specs.Run.{one};
ghost use Rattle.replay_list.specs.Stands.{KernelStands};
ghost use Rattle.served_program.specs.Served.{is_served};
ghost use Rattle.kernel_events.specs.Ends.{IsCommitted, IsLost};

use crate::chosen::run;
use crate::closing::pass;
use crate::writes::EVENT_WRITES;
use kernel_model::{Event, soundness};
use nv_memory::Nv;
use ready_delay_lists::chosen;
use replay_list::{Kernel, standing_laws};
use std::sync::ledger::Ledger;
use step_counter::Steps;
use thread_check::Checked;
use thread_machine::Contexts;
use thread_tree::MOVES;
use undo_journal::{Dark, Idle};

/// One event of the uncut run, in one transaction (docs/EVENTS.md), on a kernel whose contexts are lent. Today it is a
/// step of a program that is served.
///
/// # Errors
///
/// The device without power, where fewer writes were left than an event may take; its undone words are as before. The
/// contexts mean nothing then.
pub fn perform_event<N: Nv, L: Ledger>(
    idle: Idle<N>,
    program: &Checked,
    contexts: &mut Contexts,
    event: Event,
    steps: &mut Steps<L>,
) -> Result<Idle<N>, Dark<N>>
    requires at_rest { IsAtRest (N.words idle) }
    requires served { IsTrue (is_served program.now) }
    requires step { event ≡ Step }
    requires stands { (K : State) × KernelStands (program_of program.now) (image_in (N.words idle)) contexts.old K × (K.events < 1000000) }
    ensures happened { IfOk result (λ next. (K : State) → KernelStands (program_of program.now) (image_in (N.words idle)) contexts.old K → K.events < 1000000
        → KernelStands (program_of program.now) (image_in (N.words next)) contexts.new (one (program_of program.now) K event)) }
    ensures ends { MatchResult result (λ next. IsCommitted N.Nv 5 EVENT_WRITES idle next) (IsLost N.Nv EVENT_WRITES idle) }
    ensures counted { steps.old ≤ steps.new }
    ensures steps { steps.new ≤ steps.old + MOVES }
{
    soundness();
    standing_laws();
    let _ = program.tree();
    let _ = event;
    let tx = idle.begin();
    match chosen(&tx) {
        Some(thread) => run(tx, program, contexts, thread, steps),
        None => pass(tx),
    }
}

/// One event of the uncut run, in one transaction (docs/EVENTS.md). Today it is a step of a program that is served.
///
/// # Errors
///
/// The device without power, where fewer writes were left than an event may take; its undone words are as before.
pub fn event<N: Nv, L: Ledger>(
    kernel: Kernel<N>,
    program: &Checked,
    event: Event,
    steps: &mut Steps<L>,
) -> Result<Kernel<N>, Dark<N>>
    requires at_rest { IsAtRest (N.words kernel.idle) }
    requires served { IsTrue (is_served program.now) }
    requires step { event ≡ Step }
    requires stands { (K : State) × KernelStands (program_of program.now) (image_in (N.words kernel.idle)) kernel.contexts K × (K.events < 1000000) }
    ensures happened { IfOk result (λ next. (K : State) → KernelStands (program_of program.now) (image_in (N.words kernel.idle)) kernel.contexts K → K.events < 1000000
        → KernelStands (program_of program.now) (image_in (N.words next.idle)) next.contexts (one (program_of program.now) K event)) }
    ensures ends { MatchResult result (λ next. IsCommitted N.Nv 5 EVENT_WRITES kernel.idle next.idle) (IsLost N.Nv EVENT_WRITES kernel.idle) }
    ensures counted { steps.old ≤ steps.new }
    ensures steps { steps.new ≤ steps.old + MOVES }
{
    let Kernel { idle, contexts } = kernel;
    let mut contexts = contexts;
    match perform_event(idle, program, &mut contexts, event, steps) {
        Ok(idle) => Ok(Kernel { idle, contexts }),
        Err(dark) => Err(dark),
    }
}
