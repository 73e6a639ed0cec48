// The calls on queues, as contracts.
ghost use Rattle.std.specs.Prelude.{◌*◌, ◌≡◌, ◌<◌, ◌≤◌, ℕ, Bool, List, Option, length, IsErr, OnOk, OnErr, IfOk, Some};
ghost use Rattle.nv_memory.specs.Budget.{IsShort};
ghost use Rattle.undo_journal.specs.Undo.{room_of};
ghost use Rattle.undo_journal.specs.Lending.{IsLent, IsWithin};
ghost use Rattle.thread_tree.specs.Program.{Program, program_of};
ghost use Rattle.thread_machine.specs.declared.context.Ctx.{Ctx};
ghost use Rattle.kernel_model.specs.Kernel.{State, Thread, items_of};
ghost use Rattle.kernel_image.specs.Decoded.{image_in};
ghost use Rattle.kernel_calls.specs.Matches.{Matches, nobody};
ghost use Rattle.kernel_model.specs.Calls.{send, receive, input};
ghost use Rattle.kernel_calls.specs.Calling.{Acted, IsCalling, IsDelivering};

use crate::room::CALL_ROOM;
use nv_memory::{Cut, Nv};
use replay_list::Outcome;
use thread_check::Checked;
use thread_machine::Contexts;
use thread_tree::{ROWS, TARGETS};
use undo_journal::{Open, Words};

/// The calls on queues, and the inputs that come to them. `thread` is the caller, 0 to 15, and is ready; what it gets of a
/// call is in the outcome and isn't given to it yet.
pub trait QueueCalls {
    /// Hands a value to the first receiver, or puts it into the queue; where there is no space the caller waits, as long as the limit says.
    fn send<N: Nv>(
        tx: &mut Open<N>,
        program: &Checked,
        contexts: &mut Contexts,
        thread: u32,
        queue: u32,
        value: u32,
        limit: u32,
    ) -> Result<Outcome, Cut>
        requires thread { thread < ROWS }
        requires declared { queue < length (program_of program.now).queues }
        requires calling { (whose : ℕ → Bool) × (K : State) × (known : Thread) × IsCalling (program_of program.now) whose thread (image_in (N.words tx.old)) contexts.old K known }
        requires room { CALL_ROOM ≤ room_of (N.words tx.old) }
        ensures acted { IfOk result (λ outcome. (whose : ℕ → Bool) (K : State) (known : Thread) → IsCalling (program_of program.now) whose thread (image_in (N.words tx.old)) contexts.old K known
            → Acted (program_of program.now) whose thread (image_in (N.words tx.new)) contexts.new (send (program_of program.now) K queue value limit) outcome) }
        ensures events { OnOk result ((image_in (N.words tx.new)).events ≡ (image_in (N.words tx.old)).events) }
        ensures cut { IsErr result → IsShort (N.left tx.old) (4 * CALL_ROOM) }
        ensures dark { OnErr result (N.left tx.new ≡ Some 0) }
        ensures lent { IsLent N.Nv tx.old tx.new }
        ensures within { OnOk result (IsWithin N.Nv tx.old tx.new CALL_ROOM) };

    /// Takes the front item of a queue, whose space the first sender gets; where there is none the caller waits, as long as the limit says.
    fn receive<N: Nv>(
        tx: &mut Open<N>,
        program: &Checked,
        contexts: &mut Contexts,
        thread: u32,
        queue: u32,
        limit: u32,
    ) -> Result<Outcome, Cut>
        requires thread { thread < ROWS }
        requires declared { queue < length (program_of program.now).queues }
        requires calling { (whose : ℕ → Bool) × (K : State) × (known : Thread) × IsCalling (program_of program.now) whose thread (image_in (N.words tx.old)) contexts.old K known }
        requires room { CALL_ROOM ≤ room_of (N.words tx.old) }
        ensures acted { IfOk result (λ outcome. (whose : ℕ → Bool) (K : State) (known : Thread) → IsCalling (program_of program.now) whose thread (image_in (N.words tx.old)) contexts.old K known
            → Acted (program_of program.now) whose thread (image_in (N.words tx.new)) contexts.new (receive (program_of program.now) K queue limit) outcome) }
        ensures events { OnOk result ((image_in (N.words tx.new)).events ≡ (image_in (N.words tx.old)).events) }
        ensures cut { IsErr result → IsShort (N.left tx.old) (4 * CALL_ROOM) }
        ensures dark { OnErr result (N.left tx.new ≡ Some 0) }
        ensures lent { IsLent N.Nv tx.old tx.new }
        ensures within { OnOk result (IsWithin N.Nv tx.old tx.new CALL_ROOM) };

    /// How many items a queue, 0 to 15, holds.
    fn waiting<W: Words>(words: &W, queue: u32) -> u32
        requires queue { queue < TARGETS }
        ensures waiting { (p : Program) (caller : ℕ) (whose : ℕ → Bool) (contexts : List (Option Ctx)) (K : State) → Matches p caller whose (image_in (W.present words.now)) contexts K → queue < length p.queues → result ≡ length (items_of K queue) };

    /// Delivers a value to the queue of a channel, where that can be done at once; else it is lost.
    fn input<N: Nv>(
        tx: &mut Open<N>,
        program: &Checked,
        contexts: &mut Contexts,
        channel: u32,
        value: u32,
    ) -> Result<(), Cut>
        requires delivering { (whose : ℕ → Bool) × (K : State) × IsDelivering (program_of program.now) nobody whose (image_in (N.words tx.old)) contexts.old K }
        requires room { CALL_ROOM ≤ room_of (N.words tx.old) }
        ensures delivered { OnOk result ((whose : ℕ → Bool) (K : State) → IsDelivering (program_of program.now) nobody whose (image_in (N.words tx.old)) contexts.old K
            → Matches (program_of program.now) nobody whose (image_in (N.words tx.new)) contexts.new (input (program_of program.now) K channel value)) }
        ensures events { OnOk result ((image_in (N.words tx.new)).events ≡ (image_in (N.words tx.old)).events) }
        ensures cut { IsErr result → IsShort (N.left tx.old) (4 * CALL_ROOM) }
        ensures dark { OnErr result (N.left tx.new ≡ Some 0) }
        ensures lent { IsLent N.Nv tx.old tx.new }
        ensures within { OnOk result (IsWithin N.Nv tx.old tx.new CALL_ROOM) };
}
