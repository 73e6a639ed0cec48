// The calls on threads and on time, as contracts.
ghost use Rattle.std.specs.Prelude.{◌*◌, ◌≡◌, ◌<◌, ◌≤◌, ℕ, Bool, List, Option, length, IsErr, OnOk, OnErr, IfOk, IsSomeAnd, Some, slice_get};
ghost use Rattle.nv_memory.specs.Budget.{IsShort};
ghost use Rattle.undo_journal.specs.Undo.{room_of};
ghost use Rattle.undo_journal.specs.Lending.{IsLent, IsWithin};
ghost use Rattle.thread_tree.specs.Program.{Program, program_of};
ghost use Rattle.thread_machine.specs.declared.context.Ctx.{Ctx};
ghost use Rattle.kernel_model.specs.Kernel.{State, Thread};
ghost use Rattle.kernel_image.specs.Decoded.{image_in};
ghost use Rattle.kernel_calls.specs.Matches.{Matches, nobody};
ghost use Rattle.kernel_model.specs.Calls.{spawn, delete, delay, setprio, priority_of, yield};
ghost use Rattle.kernel_model.specs.Serve.{settle};
ghost use Rattle.kernel_model.specs.Serve.Fate.{Stops};
ghost use Rattle.replay_list.specs.declared.outcome.Outcome.TheVariants.{Gone};
ghost use Rattle.kernel_calls.specs.Calling.{Acted, IsCalling, IsLeaving, also};

use crate::room::CALL_ROOM;
use nv_memory::{Cut, Nv};
use replay_list::Outcome;
use thread_check::Checked;
use thread_machine::Contexts;
use thread_tree::{ROWS, START_VALUES};
use undo_journal::{Open, Words};

/// The calls on threads and on time. `thread` is the caller, 0 to 15, and is ready; what it gets of a call is in the
/// outcome and isn't given to it yet.
pub trait TaskCalls {
    /// Begins a thread of a template with these arguments, in the least row where none lives.
    fn spawn<N: Nv>(
        tx: &mut Open<N>,
        program: &Checked,
        contexts: &mut Contexts,
        thread: u32,
        template: u32,
        args: &[u32],
    ) -> Result<Outcome, Cut>
        requires thread { thread < ROWS }
        requires template { IsSomeAnd (slice_get (program_of program.now).templates template) (λ known. length args.now ≡ length known.parameters) }
        requires few { length args.now ≤ START_VALUES }
        requires calling { (whose : ℕ → Bool) × (K : State) × (known : Thread) × IsCalling (program_of program.now) whose thread (image_in (N.words tx.old)) contexts.old K known }
        requires room { CALL_ROOM ≤ room_of (N.words tx.old) }
        ensures acted { IfOk result (λ outcome. (whose : ℕ → Bool) (K : State) (known : Thread) → IsCalling (program_of program.now) whose thread (image_in (N.words tx.old)) contexts.old K known
            → Acted (program_of program.now) whose thread (image_in (N.words tx.new)) contexts.new (spawn (program_of program.now) K template args.now) outcome) }
        ensures events { OnOk result ((image_in (N.words tx.new)).events ≡ (image_in (N.words tx.old)).events) }
        ensures cut { IsErr result → IsShort (N.left tx.old) (4 * CALL_ROOM) }
        ensures dark { OnErr result (N.left tx.new ≡ Some 0) }
        ensures lent { IsLent N.Nv tx.old tx.new }
        ensures within { OnOk result (IsWithin N.Nv tx.old tx.new CALL_ROOM) };

    /// Takes a live thread away; the caller's own call has no outcome but that.
    fn delete<N: Nv>(
        tx: &mut Open<N>,
        contexts: &mut Contexts,
        thread: u32,
        whom: u32,
    ) -> Result<Outcome, Cut>
        requires thread { thread < ROWS }
        requires calling { (p : Program) × (whose : ℕ → Bool) × (K : State) × (known : Thread) × IsCalling p whose thread (image_in (N.words tx.old)) contexts.old K known }
        requires room { CALL_ROOM ≤ room_of (N.words tx.old) }
        ensures acted { IfOk result (λ outcome. (p : Program) (whose : ℕ → Bool) (K : State) (known : Thread) → IsCalling p whose thread (image_in (N.words tx.old)) contexts.old K known
            → Acted p whose thread (image_in (N.words tx.new)) contexts.new (delete K thread whom) outcome) }
        ensures events { OnOk result ((image_in (N.words tx.new)).events ≡ (image_in (N.words tx.old)).events) }
        ensures cut { IsErr result → IsShort (N.left tx.old) (4 * CALL_ROOM) }
        ensures dark { OnErr result (N.left tx.new ≡ Some 0) }
        ensures lent { IsLent N.Nv tx.old tx.new }
        ensures within { OnOk result (IsWithin N.Nv tx.old tx.new CALL_ROOM) };

    /// Delays the caller by so many ticks; by none it goes behind its equals.
    fn delay<N: Nv>(tx: &mut Open<N>, thread: u32, ticks: u32) -> Result<Outcome, Cut>
        requires thread { thread < ROWS }
        requires calling { (p : Program) × (whose : ℕ → Bool) × (contexts : List (Option Ctx)) × (K : State) × (known : Thread) × IsCalling p whose thread (image_in (N.words tx.old)) contexts K known }
        requires room { CALL_ROOM ≤ room_of (N.words tx.old) }
        ensures acted { IfOk result (λ outcome. (p : Program) (whose : ℕ → Bool) (contexts : List (Option Ctx)) (K : State) (known : Thread) → IsCalling p whose thread (image_in (N.words tx.old)) contexts K known
            → Acted p whose thread (image_in (N.words tx.new)) contexts (delay K ticks) outcome) }
        ensures events { OnOk result ((image_in (N.words tx.new)).events ≡ (image_in (N.words tx.old)).events) }
        ensures cut { IsErr result → IsShort (N.left tx.old) (4 * CALL_ROOM) }
        ensures dark { OnErr result (N.left tx.new ≡ Some 0) }
        ensures lent { IsLent N.Nv tx.old tx.new }
        ensures within { OnOk result (IsWithin N.Nv tx.old tx.new CALL_ROOM) };

    /// Gives a live thread a priority, behind its equals.
    fn setprio<N: Nv>(tx: &mut Open<N>, whom: u32, priority: u32) -> Result<Outcome, Cut>
        requires calling { (p : Program) × (whose : ℕ → Bool) × (contexts : List (Option Ctx)) × (caller : ℕ) × (K : State) × (known : Thread) × IsCalling p whose caller (image_in (N.words tx.old)) contexts K known }
        requires room { CALL_ROOM ≤ room_of (N.words tx.old) }
        ensures acted { IfOk result (λ outcome. (p : Program) (whose : ℕ → Bool) (contexts : List (Option Ctx)) (caller : ℕ) (K : State) (known : Thread) → IsCalling p whose caller (image_in (N.words tx.old)) contexts K known
            → Acted p whose caller (image_in (N.words tx.new)) contexts (setprio K whom priority) outcome) }
        ensures events { OnOk result ((image_in (N.words tx.new)).events ≡ (image_in (N.words tx.old)).events) }
        ensures cut { IsErr result → IsShort (N.left tx.old) (4 * CALL_ROOM) }
        ensures dark { OnErr result (N.left tx.new ≡ Some 0) }
        ensures lent { IsLent N.Nv tx.old tx.new }
        ensures within { OnOk result (IsWithin N.Nv tx.old tx.new CALL_ROOM) };

    /// The caller goes behind its equals.
    fn yield_now<N: Nv>(tx: &mut Open<N>, thread: u32) -> Result<Outcome, Cut>
        requires thread { thread < ROWS }
        requires calling { (p : Program) × (whose : ℕ → Bool) × (contexts : List (Option Ctx)) × (K : State) × (known : Thread) × IsCalling p whose thread (image_in (N.words tx.old)) contexts K known }
        requires room { CALL_ROOM ≤ room_of (N.words tx.old) }
        ensures acted { IfOk result (λ outcome. (p : Program) (whose : ℕ → Bool) (contexts : List (Option Ctx)) (K : State) (known : Thread) → IsCalling p whose thread (image_in (N.words tx.old)) contexts K known
            → Acted p whose thread (image_in (N.words tx.new)) contexts (yield K) outcome) }
        ensures events { OnOk result ((image_in (N.words tx.new)).events ≡ (image_in (N.words tx.old)).events) }
        ensures cut { IsErr result → IsShort (N.left tx.old) (4 * CALL_ROOM) }
        ensures dark { OnErr result (N.left tx.new ≡ Some 0) }
        ensures lent { IsLent N.Nv tx.old tx.new }
        ensures within { OnOk result (IsWithin N.Nv tx.old tx.new CALL_ROOM) };

    /// Ends a thread, 0 to 15, with a code: the caller, or one that ran and came to no action. Its own context needn't be
    /// held.
    fn end<N: Nv>(
        tx: &mut Open<N>,
        contexts: &mut Contexts,
        thread: u32,
        code: u32,
    ) -> Result<Outcome, Cut>
        requires thread { thread < ROWS }
        requires leaving { (p : Program) × (caller : ℕ) × (whose : ℕ → Bool) × (K : State) × (known : Thread) × IsLeaving p caller whose thread (image_in (N.words tx.old)) contexts.old K known }
        requires room { CALL_ROOM ≤ room_of (N.words tx.old) }
        ensures ended { OnOk result ((p : Program) (caller : ℕ) (whose : ℕ → Bool) (K : State) (known : Thread) → IsLeaving p caller whose thread (image_in (N.words tx.old)) contexts.old K known
            → Matches p nobody (also thread whose) (image_in (N.words tx.new)) contexts.new (settle p thread (Stops code) K)) }
        ensures gone { IfOk result (λ outcome. outcome ≡ Gone) }
        ensures events { OnOk result ((image_in (N.words tx.new)).events ≡ (image_in (N.words tx.old)).events) }
        ensures cut { IsErr result → IsShort (N.left tx.old) (4 * CALL_ROOM) }
        ensures dark { OnErr result (N.left tx.new ≡ Some 0) }
        ensures lent { IsLent N.Nv tx.old tx.new }
        ensures within { OnOk result (IsWithin N.Nv tx.old tx.new CALL_ROOM) };

    /// The priority of a live thread; 4,294,967,295 where there is none.
    fn getprio<W: Words>(words: &W, whom: u32) -> u32
        requires matches { (p : Program) × (caller : ℕ) × (whose : ℕ → Bool) × (contexts : List (Option Ctx)) × (K : State) × Matches p caller whose (image_in (W.present words.now)) contexts K }
        ensures priority { (p : Program) (caller : ℕ) (whose : ℕ → Bool) (contexts : List (Option Ctx)) (K : State) → Matches p caller whose (image_in (W.present words.now)) contexts K → result ≡ priority_of K whom };

    /// The tick count.
    fn now<W: Words>(words: &W) -> u32
        ensures ticks { (p : Program) (caller : ℕ) (whose : ℕ → Bool) (contexts : List (Option Ctx)) (K : State) → Matches p caller whose (image_in (W.present words.now)) contexts K → result ≡ K.ticks };
}
