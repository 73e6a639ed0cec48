// The calls on semaphores, as contracts.
ghost use Rattle.std.specs.Prelude.{◌*◌, ◌≡◌, ◌<◌, ◌≤◌, ℕ, Bool, List, Option, length, IsErr, OnOk, OnErr, IfOk, Some};
ghost use Rattle.nv_memory.specs.Budget.{IsShort};
ghost use Rattle.undo_journal.specs.Undo.{room_of};
ghost use Rattle.undo_journal.specs.Lending.{IsLent, IsWithin};
ghost use Rattle.thread_tree.specs.Program.{Program, program_of};
ghost use Rattle.thread_machine.specs.declared.context.Ctx.{Ctx};
ghost use Rattle.kernel_model.specs.Kernel.{State, Thread};
ghost use Rattle.kernel_image.specs.Decoded.{image_in};
ghost use Rattle.kernel_model.specs.Calls.{take, give};
ghost use Rattle.kernel_calls.specs.Calling.{Acted, IsCalling};

use crate::room::CALL_ROOM;
use nv_memory::{Cut, Nv};
use replay_list::Outcome;
use thread_check::Checked;
use thread_machine::Contexts;
use thread_tree::{ROWS, TARGETS};
use undo_journal::Open;

/// The calls on semaphores. What the caller gets of a call is in the outcome and isn't given to it yet.
pub trait SemaphoreCalls {
    /// Lets a count above 0 fall by one; where it is 0 the caller, 0 to 15, waits, as long as the limit says.
    fn take<N: Nv>(
        tx: &mut Open<N>,
        thread: u32,
        semaphore: u32,
        limit: u32,
    ) -> Result<Outcome, Cut>
        requires thread { thread < ROWS }
        requires low { semaphore < TARGETS }
        requires calling { (p : Program) × (whose : ℕ → Bool) × (contexts : List (Option Ctx)) × (K : State) × (known : Thread) × IsCalling p whose thread (image_in (N.words tx.old)) contexts K known × (semaphore < length p.semaphores) }
        requires room { CALL_ROOM ≤ room_of (N.words tx.old) }
        ensures acted { IfOk result (λ outcome. (p : Program) (whose : ℕ → Bool) (contexts : List (Option Ctx)) (K : State) (known : Thread) → IsCalling p whose thread (image_in (N.words tx.old)) contexts K known → semaphore < length p.semaphores
            → Acted p whose thread (image_in (N.words tx.new)) contexts (take p K semaphore limit) outcome) }
        ensures events { OnOk result ((image_in (N.words tx.new)).events ≡ (image_in (N.words tx.old)).events) }
        ensures cut { IsErr result → IsShort (N.left tx.old) (4 * CALL_ROOM) }
        ensures dark { OnErr result (N.left tx.new ≡ Some 0) }
        ensures lent { IsLent N.Nv tx.old tx.new }
        ensures within { OnOk result (IsWithin N.Nv tx.old tx.new CALL_ROOM) };

    /// Serves the first taker, or else lets a count below the maximum rise by one.
    fn give<N: Nv>(
        tx: &mut Open<N>,
        program: &Checked,
        contexts: &mut Contexts,
        semaphore: u32,
    ) -> Result<Outcome, Cut>
        requires declared { semaphore < length (program_of program.now).semaphores }
        requires calling { (whose : ℕ → Bool) × (caller : ℕ) × (K : State) × (known : Thread) × IsCalling (program_of program.now) whose caller (image_in (N.words tx.old)) contexts.old K known }
        requires room { CALL_ROOM ≤ room_of (N.words tx.old) }
        ensures acted { IfOk result (λ outcome. (whose : ℕ → Bool) (caller : ℕ) (K : State) (known : Thread) → IsCalling (program_of program.now) whose caller (image_in (N.words tx.old)) contexts.old K known
            → Acted (program_of program.now) whose caller (image_in (N.words tx.new)) contexts.new (give (program_of program.now) K semaphore) outcome) }
        ensures events { OnOk result ((image_in (N.words tx.new)).events ≡ (image_in (N.words tx.old)).events) }
        ensures cut { IsErr result → IsShort (N.left tx.old) (4 * CALL_ROOM) }
        ensures dark { OnErr result (N.left tx.new ≡ Some 0) }
        ensures lent { IsLent N.Nv tx.old tx.new }
        ensures within { OnOk result (IsWithin N.Nv tx.old tx.new CALL_ROOM) };
}
