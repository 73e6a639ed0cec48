// What every call of the kernel is made of, as contracts.
ghost use Rattle.std.specs.Prelude.{◌≡◌, ◌<◌, ◌≤◌, ℕ, Bool, List, Option, length, IsErr, OnOk, OnErr, IfOk, Some};
ghost use Rattle.nv_memory.specs.Budget.{IsShort};
ghost use Rattle.undo_journal.specs.Undo.{room_of};
ghost use Rattle.undo_journal.specs.Lending.{IsLent, IsWithin};
ghost use Rattle.thread_tree.specs.Program.{Program, program_of};
ghost use Rattle.thread_machine.specs.declared.context.Ctx.{Ctx};
ghost use Rattle.kernel_model.specs.Kernel.{State, Thread, changed};
ghost use Rattle.kernel_model.specs.Run.{tick};
ghost use Rattle.kernel_model.specs.Serve.{Effect, served, finish, held, settle, settled};
ghost use Rattle.kernel_model.specs.Serve.Fate.{Sleeps, Blocks};
ghost use Rattle.kernel_image.specs.Decoded.{image_in};
ghost use Rattle.ready_delay_lists.specs.Lists.{value_for};
ghost use Rattle.kernel_calls.specs.Matches.{Matches, nobody};
ghost use Rattle.kernel_calls.specs.Calling.{Acted, IsActed, IsAwaited, IsServing, IsCalling, IsBefore};

use kernel_model::{Wait, What};
use nv_memory::{Cut, Nv};
use replay_list::Outcome;
use thread_check::Checked;
use thread_machine::Contexts;
use thread_tree::{ROWS, TARGETS};
use undo_journal::Open;

/// What the calls of the kernel and a tick are made of.
///
/// What stands in the words and in the contexts is said by the kernel in the midst of an event that they have all of
/// (`Matches`). Each call leaves the count of events as it was, and on `Cut` fewer writes were left than four for each
/// entry of its room, and none is left.
pub trait KernelCalls {
    /// Finishes the call of a thread, 0 to 15, that is delayed or waits, with these results: it is ready, and stands behind
    /// its equals.
    fn wake<N: Nv>(
        tx: &mut Open<N>,
        program: &Checked,
        contexts: &mut Contexts,
        thread: u32,
        results: &[u32],
    ) -> Result<(), Cut>
        requires thread { thread < ROWS }
        requires few { length results.now ≤ 4 }
        requires awaited { (caller : ℕ) × (whose : ℕ → Bool) × (K : State) × (known : Thread) × IsAwaited (program_of program.now) caller whose (image_in (N.words tx.old)) contexts.old K thread known results.now }
        requires room { 23 ≤ room_of (N.words tx.old) }
        ensures woken { OnOk result ((caller : ℕ) (whose : ℕ → Bool) (K : State) (known : Thread) → IsAwaited (program_of program.now) caller whose (image_in (N.words tx.old)) contexts.old K thread known results.now
            → Matches (program_of program.now) caller whose (image_in (N.words tx.new)) contexts.new (finish (program_of program.now) K thread results.now)) }
        ensures events { OnOk result ((image_in (N.words tx.new)).events ≡ (image_in (N.words tx.old)).events) }
        ensures cut { IsErr result → IsShort (N.left tx.old) 92 }
        ensures dark { OnErr result (N.left tx.new ≡ Some 0) }
        ensures lent { IsLent N.Nv tx.old tx.new }
        ensures within { OnOk result (IsWithin N.Nv tx.old tx.new 23) };

    /// Gives the caller, 0 to 15, the results of its action.
    fn serve<N: Nv>(
        tx: &mut Open<N>,
        program: &Checked,
        contexts: &mut Contexts,
        thread: u32,
        results: &[u32],
    ) -> Result<(), Cut>
        requires thread { thread < ROWS }
        requires few { length results.now ≤ 4 }
        requires serving { (whose : ℕ → Bool) × (K : State) × (known : Thread) × IsServing (program_of program.now) whose (image_in (N.words tx.old)) contexts.old K thread known results.now }
        requires room { 6 ≤ room_of (N.words tx.old) }
        ensures served { OnOk result ((whose : ℕ → Bool) (K : State) (known : Thread) → IsServing (program_of program.now) whose (image_in (N.words tx.old)) contexts.old K thread known results.now
            → Matches (program_of program.now) nobody whose (image_in (N.words tx.new)) contexts.new (changed K thread (served (program_of program.now) results.now))) }
        ensures events { OnOk result ((image_in (N.words tx.new)).events ≡ (image_in (N.words tx.old)).events) }
        ensures cut { IsErr result → IsShort (N.left tx.old) 24 }
        ensures dark { OnErr result (N.left tx.new ≡ Some 0) }
        ensures lent { IsLent N.Nv tx.old tx.new }
        ensures within { OnOk result (IsWithin N.Nv tx.old tx.new 6) };

    /// Lets the caller, 0 to 15, wait behind its equals.
    fn block<N: Nv>(tx: &mut Open<N>, thread: u32, wait: Wait) -> Result<(), Cut>
        requires thread { thread < ROWS }
        requires target { wait.target < TARGETS }
        requires value { wait.value ≡ value_for wait.what wait.value }
        requires calling { (p : Program) × (whose : ℕ → Bool) × (contexts : List (Option Ctx)) × (K : State) × (known : Thread) × IsCalling p whose thread (image_in (N.words tx.old)) contexts K known }
        requires room { 34 ≤ room_of (N.words tx.old) }
        ensures blocked { OnOk result ((p : Program) (whose : ℕ → Bool) (contexts : List (Option Ctx)) (K : State) (known : Thread) → IsCalling p whose thread (image_in (N.words tx.old)) contexts K known
            → Matches p nobody whose (image_in (N.words tx.new)) contexts (settle p thread (Blocks wait) K)) }
        ensures events { OnOk result ((image_in (N.words tx.new)).events ≡ (image_in (N.words tx.old)).events) }
        ensures cut { IsErr result → IsShort (N.left tx.old) 136 }
        ensures dark { OnErr result (N.left tx.new ≡ Some 0) }
        ensures lent { IsLent N.Nv tx.old tx.new }
        ensures within { OnOk result (IsWithin N.Nv tx.old tx.new 34) };

    /// Delays the caller, 0 to 15, until a tick.
    fn sleep<N: Nv>(tx: &mut Open<N>, thread: u32, wake: u32) -> Result<(), Cut>
        requires thread { thread < ROWS }
        requires calling { (p : Program) × (whose : ℕ → Bool) × (contexts : List (Option Ctx)) × (K : State) × (known : Thread) × IsCalling p whose thread (image_in (N.words tx.old)) contexts K known }
        requires room { 20 ≤ room_of (N.words tx.old) }
        ensures asleep { OnOk result ((p : Program) (whose : ℕ → Bool) (contexts : List (Option Ctx)) (K : State) (known : Thread) → IsCalling p whose thread (image_in (N.words tx.old)) contexts K known
            → Matches p nobody whose (image_in (N.words tx.new)) contexts (settle p thread (Sleeps wake) K)) }
        ensures events { OnOk result ((image_in (N.words tx.new)).events ≡ (image_in (N.words tx.old)).events) }
        ensures cut { IsErr result → IsShort (N.left tx.old) 80 }
        ensures dark { OnErr result (N.left tx.new ≡ Some 0) }
        ensures lent { IsLent N.Nv tx.old tx.new }
        ensures within { OnOk result (IsWithin N.Nv tx.old tx.new 20) };

    /// What can't be done at once for the caller, 0 to 15: with limit 0 it is given up, and else the caller waits.
    fn hold<N: Nv>(
        tx: &mut Open<N>,
        thread: u32,
        what: What,
        target: u32,
        value: u32,
        limit: u32,
    ) -> Result<Outcome, Cut>
        requires thread { thread < ROWS }
        requires target { target < TARGETS }
        requires value { value ≡ value_for what value }
        requires calling { (p : Program) × (whose : ℕ → Bool) × (contexts : List (Option Ctx)) × (K : State) × (known : Thread) × IsCalling p whose thread (image_in (N.words tx.old)) contexts K known }
        requires room { 34 ≤ room_of (N.words tx.old) }
        ensures acted { IfOk result (λ outcome. (p : Program) (whose : ℕ → Bool) (contexts : List (Option Ctx)) (K : State) (known : Thread) → IsCalling p whose thread (image_in (N.words tx.old)) contexts K known
            → Acted p whose thread (image_in (N.words tx.new)) contexts (held p K what target value limit) outcome) }
        ensures events { OnOk result ((image_in (N.words tx.new)).events ≡ (image_in (N.words tx.old)).events) }
        ensures cut { IsErr result → IsShort (N.left tx.old) 136 }
        ensures dark { OnErr result (N.left tx.new ≡ Some 0) }
        ensures lent { IsLent N.Nv tx.old tx.new }
        ensures within { OnOk result (IsWithin N.Nv tx.old tx.new 34) };

    /// What becomes of the caller, 0 to 15, by the outcome of its action: it gets the results, if there are some.
    fn settle<N: Nv>(
        tx: &mut Open<N>,
        program: &Checked,
        contexts: &mut Contexts,
        thread: u32,
        outcome: Outcome,
    ) -> Result<(), Cut>
        requires thread { thread < ROWS }
        requires acted { (whose : ℕ → Bool) × (effect : Effect) × IsActed (program_of program.now) whose thread (image_in (N.words tx.old)) contexts.old effect outcome }
        requires room { 6 ≤ room_of (N.words tx.old) }
        ensures settled { OnOk result ((whose : ℕ → Bool) (effect : Effect) → IsActed (program_of program.now) whose thread (image_in (N.words tx.old)) contexts.old effect outcome
            → Matches (program_of program.now) nobody whose (image_in (N.words tx.new)) contexts.new (settled (program_of program.now) thread effect)) }
        ensures events { OnOk result ((image_in (N.words tx.new)).events ≡ (image_in (N.words tx.old)).events) }
        ensures cut { IsErr result → IsShort (N.left tx.old) 24 }
        ensures dark { OnErr result (N.left tx.new ≡ Some 0) }
        ensures lent { IsLent N.Nv tx.old tx.new }
        ensures within { OnOk result (IsWithin N.Nv tx.old tx.new 6) };

    /// A tick: the tick count rises, threads wake, and who was chosen before goes behind its equals.
    fn tick<N: Nv>(tx: &mut Open<N>, program: &Checked, contexts: &mut Contexts) -> Result<(), Cut>
        requires before { (whose : ℕ → Bool) × (K : State) × IsBefore (program_of program.now) whose (image_in (N.words tx.old)) contexts.old K }
        requires room { 379 ≤ room_of (N.words tx.old) }
        ensures ticked { OnOk result ((whose : ℕ → Bool) (K : State) → IsBefore (program_of program.now) whose (image_in (N.words tx.old)) contexts.old K
            → Matches (program_of program.now) nobody whose (image_in (N.words tx.new)) contexts.new (tick (program_of program.now) K)) }
        ensures events { OnOk result ((image_in (N.words tx.new)).events ≡ (image_in (N.words tx.old)).events) }
        ensures cut { IsErr result → IsShort (N.left tx.old) 1516 }
        ensures dark { OnErr result (N.left tx.new ≡ Some 0) }
        ensures lent { IsLent N.Nv tx.old tx.new }
        ensures within { OnOk result (IsWithin N.Nv tx.old tx.new 379) };
}
