// The event of the chosen thread.
ghost use Rattle.std.specs.Prelude.{◌≡◌, ◌+◌, ◌<◌, ◌≤◌, IfOk, IsTrue, MatchResult, None, Some, ℕ};
ghost use Rattle.undo_journal.specs.Undo.{IsAtRest};
ghost use Rattle.thread_tree.specs.Program.{program_of};
ghost use Rattle.thread_machine.specs.declared.next.Next.TheVariants.{Action};
ghost use Rattle.kernel_image.specs.Decoded.{image_in};
ghost use Rattle.kernel_model.specs.declared.event.Event.TheVariants.{Step};
ghost use Rattle.kernel_model.specs.Kernel.{State, Thread};
ghost use Rattle.kernel_model.specs.Order.{chosen};
ghost use Rattle.kernel_model.specs.Run.{one};
ghost use Rattle.replay_list.specs.Stands.{KernelStands};
ghost use Rattle.served_program.specs.Served.{is_served};
ghost use Rattle.kernel_events.specs.Ends.{IsCommitted, IsLost};
ghost use Rattle.kernel_events.specs.Follows.{Arrives};

use crate::actions::{block_names, printed_items};
use crate::blocks::block_event;
use crate::closing::stop;
use crate::prints::print_event;
use crate::writes::EVENT_WRITES;
use kernel_model::{ORDINARY_END, TOO_MANY_MOVES, order, soundness};
use nv_memory::Nv;
use replay_list::standing_laws;
use served_program::served_laws;
use std::sync::ledger::Ledger;
use step_counter::Steps;
use thread_check::Checked;
use thread_machine::{Contexts, Ctx, Next};
use thread_tree::{MOVES, ROWS};
use undo_journal::{Dark, Idle, Open};

/// The event of a thread that arrives at the action of this number.
fn act<N: Nv>(
    tx: Open<N>,
    program: &Checked,
    contexts: &mut Contexts,
    ctx: Ctx,
    thread: u32,
    number: u32,
) -> Result<Idle<N>, Dark<N>>
    requires at_rest { IsAtRest (N.words tx) }
    requires served { IsTrue (is_served program.now) }
    requires thread { thread < ROWS }
    requires arrives { (K : State) × (runner : Thread) × Arrives (program_of program.now) (image_in (N.words tx)) contexts.old K thread runner ctx (Action number) }
    ensures happened { IfOk result (λ idle. (K : State) (runner : Thread) → Arrives (program_of program.now) (image_in (N.words tx)) contexts.old K thread runner ctx (Action number)
        → KernelStands (program_of program.now) (image_in (N.words idle)) contexts.new (one (program_of program.now) K Step)) }
    ensures ends { MatchResult result (λ idle. IsCommitted N.Nv 5 EVENT_WRITES tx idle) (IsLost N.Nv EVENT_WRITES tx) }
{
    served_laws();
    let _ = program.tree();
    let statement = program.action(number);
    match printed_items(statement) {
        Some(items) => print_event(tx, program, contexts, ctx, thread, number, items),
        None => match block_names(statement) {
            Some(to) => block_event(tx, program, contexts, ctx, thread, number, to),
            None => unreachable!(),
        },
    }
}

/// The event of the chosen thread: it runs ahead, and performs its action or ends.
pub fn run<N: Nv, L: Ledger>(
    tx: Open<N>,
    program: &Checked,
    contexts: &mut Contexts,
    thread: u32,
    steps: &mut Steps<L>,
) -> Result<Idle<N>, Dark<N>>
    requires at_rest { IsAtRest (N.words tx) }
    requires served { IsTrue (is_served program.now) }
    requires thread { thread < ROWS }
    requires stands { (K : State) × KernelStands (program_of program.now) (image_in (N.words tx)) contexts.old K × (K.events < 1000000) × (chosen K ≡ Some thread) }
    ensures happened { IfOk result (λ idle. (K : State) → KernelStands (program_of program.now) (image_in (N.words tx)) contexts.old K → K.events < 1000000 → chosen K ≡ Some thread
        → KernelStands (program_of program.now) (image_in (N.words idle)) contexts.new (one (program_of program.now) K Step)) }
    ensures ends { MatchResult result (λ idle. IsCommitted N.Nv 5 EVENT_WRITES tx idle) (IsLost N.Nv EVENT_WRITES tx) }
    ensures counted { steps.old ≤ steps.new }
    ensures steps { steps.new ≤ steps.old + MOVES }
{
    soundness();
    order();
    standing_laws();
    let _ = program.tree();
    match contexts.take(thread) {
        Some(ctx) => {
            let mut ctx = ctx;
            match ctx.ahead(program, steps) {
                Next::Finished => stop(tx, thread, ORDINARY_END),
                Next::Watchdog => stop(tx, thread, TOO_MANY_MOVES),
                Next::Action(number) => act(tx, program, contexts, ctx, thread, number),
            }
        }
        None => unreachable!(),
    }
}
