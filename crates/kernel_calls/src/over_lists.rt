// What the calls of the kernel are made of, over any calls of lists that keep to their contracts.
ghost use Rattle.std.specs.Prelude.{◌≡◌, ◌<◌, ◌≤◌, ℕ, Bool, List, Option, length, IsErr, OnOk, OnErr, IfOk, Some};
ghost use Rattle.nv_memory.specs.Budget.{IsShort};
ghost use Rattle.undo_journal.specs.Undo.{room_of};
ghost use Rattle.undo_journal.specs.Lending.{IsLent, IsWithin};
ghost use Rattle.thread_tree.specs.Program.{Program, program_of};
ghost use Rattle.thread_machine.specs.declared.context.Ctx.{Ctx};
ghost use Rattle.kernel_model.specs.Kernel.{State, Thread, changed};
ghost use Rattle.kernel_model.specs.Serve.{Effect, served, finish, held, settle, settled, timed_out, until_of};
ghost use Rattle.kernel_model.specs.Serve.Fate.{Sleeps, Blocks};
ghost use Rattle.kernel_image.specs.Decoded.{image_in};
ghost use Rattle.ready_delay_lists.specs.Lists.{value_for};
ghost use Rattle.kernel_calls.specs.Matches.{Matches, nobody};
ghost use Rattle.kernel_calls.specs.Calling.{Acted, IsActed, IsAwaited, IsServing, IsCalling};

use crate::{holding_laws, moving_laws, result_laws, serving_laws, settling_laws};
use arrayvec::ArrayVec;
use kernel_image::ticks;
use kernel_model::{NEVER, Wait, What};
use nv_memory::{Cut, Nv};
use ready_delay_lists::{ListCalls, list_laws};
use replay_list::{Outcome, finish};
use thread_check::Checked;
use thread_machine::Contexts;
use thread_tree::{ROWS, TARGETS};
use undo_journal::{Open, Words};

/// Gives the caller, 0 to 15, the results of its action, as `serve` of `KernelCalls`.
pub fn serve<N: Nv>(
    tx: &mut Open<N>,
    program: &Checked,
    contexts: &mut Contexts,
    thread: u32,
    results: &[u32],
) -> Result<(), Cut>
    requires thread { thread < ROWS }
    requires few { length results.now ≤ 4 }
    requires serving { (whose : ℕ → Bool) × (K : State) × (known : Thread) × IsServing (program_of program.now) whose (image_in (N.words tx.old)) contexts.old K thread known results.now }
    requires room { 6 ≤ room_of (N.words tx.old) }
    ensures served { OnOk result ((whose : ℕ → Bool) (K : State) (known : Thread) → IsServing (program_of program.now) whose (image_in (N.words tx.old)) contexts.old K thread known results.now
        → Matches (program_of program.now) nobody whose (image_in (N.words tx.new)) contexts.new (changed K thread (served (program_of program.now) results.now))) }
    ensures events { OnOk result ((image_in (N.words tx.new)).events ≡ (image_in (N.words tx.old)).events) }
    ensures cut { IsErr result → IsShort (N.left tx.old) 24 }
    ensures dark { OnErr result (N.left tx.new ≡ Some 0) }
    ensures lent { IsLent N.Nv tx.old tx.new }
    ensures within { OnOk result (IsWithin N.Nv tx.old tx.new 6) }
{
    list_laws();
    moving_laws();
    result_laws();
    finish(tx, program, contexts, thread, results)?;
    Ok(())
}

/// Delays the caller, 0 to 15, until a tick, as `sleep` of `KernelCalls`.
pub fn sleep<L: ListCalls, N: Nv>(tx: &mut Open<N>, thread: u32, wake: u32) -> Result<(), Cut>
    requires thread { thread < ROWS }
    requires calling { (p : Program) × (whose : ℕ → Bool) × (contexts : List (Option Ctx)) × (K : State) × (known : Thread) × IsCalling p whose thread (image_in (N.words tx.old)) contexts K known }
    requires room { 20 ≤ room_of (N.words tx.old) }
    ensures asleep { OnOk result ((p : Program) (whose : ℕ → Bool) (contexts : List (Option Ctx)) (K : State) (known : Thread) → IsCalling p whose thread (image_in (N.words tx.old)) contexts K known
        → Matches p nobody whose (image_in (N.words tx.new)) contexts (settle p thread (Sleeps wake) K)) }
    ensures events { OnOk result ((image_in (N.words tx.new)).events ≡ (image_in (N.words tx.old)).events) }
    ensures cut { IsErr result → IsShort (N.left tx.old) 80 }
    ensures dark { OnErr result (N.left tx.new ≡ Some 0) }
    ensures lent { IsLent N.Nv tx.old tx.new }
    ensures within { OnOk result (IsWithin N.Nv tx.old tx.new 20) }
{
    list_laws();
    moving_laws();
    L::leave_all(tx, thread)?;
    L::put_timed(tx, thread, wake)?;
    Ok(())
}

/// Lets the caller, 0 to 15, wait behind its equals, as `block` of `KernelCalls`.
pub fn block<L: ListCalls, N: Nv>(tx: &mut Open<N>, thread: u32, wait: Wait) -> Result<(), Cut>
    requires thread { thread < ROWS }
    requires target { wait.target < TARGETS }
    requires value { wait.value ≡ value_for wait.what wait.value }
    requires calling { (p : Program) × (whose : ℕ → Bool) × (contexts : List (Option Ctx)) × (K : State) × (known : Thread) × IsCalling p whose thread (image_in (N.words tx.old)) contexts K known }
    requires room { 34 ≤ room_of (N.words tx.old) }
    ensures blocked { OnOk result ((p : Program) (whose : ℕ → Bool) (contexts : List (Option Ctx)) (K : State) (known : Thread) → IsCalling p whose thread (image_in (N.words tx.old)) contexts K known
        → Matches p nobody whose (image_in (N.words tx.new)) contexts (settle p thread (Blocks wait) K)) }
    ensures events { OnOk result ((image_in (N.words tx.new)).events ≡ (image_in (N.words tx.old)).events) }
    ensures cut { IsErr result → IsShort (N.left tx.old) 136 }
    ensures dark { OnErr result (N.left tx.new ≡ Some 0) }
    ensures lent { IsLent N.Nv tx.old tx.new }
    ensures within { OnOk result (IsWithin N.Nv tx.old tx.new 34) }
{
    list_laws();
    moving_laws();
    L::leave_all(tx, thread)?;
    L::put_waiting(tx, thread, wait)?;
    Ok(())
}

/// Finishes the call of a thread, 0 to 15, that is delayed or waits, as `wake` of `KernelCalls`.
pub fn wake<L: ListCalls, N: Nv>(
    tx: &mut Open<N>,
    program: &Checked,
    contexts: &mut Contexts,
    thread: u32,
    results: &[u32],
) -> Result<(), Cut>
    requires thread { thread < ROWS }
    requires few { length results.now ≤ 4 }
    requires awaited { (caller : ℕ) × (whose : ℕ → Bool) × (K : State) × (known : Thread) × IsAwaited (program_of program.now) caller whose (image_in (N.words tx.old)) contexts.old K thread known results.now }
    requires room { 23 ≤ room_of (N.words tx.old) }
    ensures woken { OnOk result ((caller : ℕ) (whose : ℕ → Bool) (K : State) (known : Thread) → IsAwaited (program_of program.now) caller whose (image_in (N.words tx.old)) contexts.old K thread known results.now
        → Matches (program_of program.now) caller whose (image_in (N.words tx.new)) contexts.new (finish (program_of program.now) K thread results.now)) }
    ensures events { OnOk result ((image_in (N.words tx.new)).events ≡ (image_in (N.words tx.old)).events) }
    ensures cut { IsErr result → IsShort (N.left tx.old) 92 }
    ensures dark { OnErr result (N.left tx.new ≡ Some 0) }
    ensures lent { IsLent N.Nv tx.old tx.new }
    ensures within { OnOk result (IsWithin N.Nv tx.old tx.new 23) }
{
    list_laws();
    moving_laws();
    result_laws();
    finish(tx, program, contexts, thread, results)?;
    L::leave_all(tx, thread)?;
    L::make_ready(tx, thread)?;
    Ok(())
}

/// What becomes of the caller, 0 to 15, by the outcome of its action, as `settle` of `KernelCalls`.
pub fn settle<N: Nv>(
    tx: &mut Open<N>,
    program: &Checked,
    contexts: &mut Contexts,
    thread: u32,
    outcome: Outcome,
) -> Result<(), Cut>
    requires thread { thread < ROWS }
    requires acted { (whose : ℕ → Bool) × (effect : Effect) × IsActed (program_of program.now) whose thread (image_in (N.words tx.old)) contexts.old effect outcome }
    requires room { 6 ≤ room_of (N.words tx.old) }
    ensures settled { OnOk result ((whose : ℕ → Bool) (effect : Effect) → IsActed (program_of program.now) whose thread (image_in (N.words tx.old)) contexts.old effect outcome
        → Matches (program_of program.now) nobody whose (image_in (N.words tx.new)) contexts.new (settled (program_of program.now) thread effect)) }
    ensures events { OnOk result ((image_in (N.words tx.new)).events ≡ (image_in (N.words tx.old)).events) }
    ensures cut { IsErr result → IsShort (N.left tx.old) 24 }
    ensures dark { OnErr result (N.left tx.new ≡ Some 0) }
    ensures lent { IsLent N.Nv tx.old tx.new }
    ensures within { OnOk result (IsWithin N.Nv tx.old tx.new 6) }
{
    serving_laws();
    settling_laws();
    match outcome {
        Outcome::Results(results) => {
            serve(tx, program, contexts, thread, &results)?;
            Ok(())
        }
        Outcome::Blocked | Outcome::Gone => Ok(()),
    }
}

// The results of a wait that its end ends.
fn timed_out(what: What) -> ArrayVec<u32, 4>
    ensures results { (p : Program) (target : ℕ) → result.items ≡ timed_out p what target }
{
    let mut results = ArrayVec::new();
    results.push(0);
    if what == What::Receive {
        results.push(0);
    }
    results
}

// The tick at which a wait of so many ticks ends.
fn until_of<W: Words>(words: &W, limit: u32) -> u32
    ensures until { (p : Program) (caller : ℕ) (whose : ℕ → Bool) (contexts : List (Option Ctx)) (K : State) → Matches p caller whose (image_in (W.present words.now)) contexts K → result ≡ until_of K limit }
{
    if limit == NEVER {
        return NEVER;
    }
    ticks(words).saturating_add(limit).min(NEVER - 1)
}

/// What can't be done at once for the caller, 0 to 15, as `hold` of `KernelCalls`.
pub fn hold<L: ListCalls, N: Nv>(
    tx: &mut Open<N>,
    thread: u32,
    what: What,
    target: u32,
    value: u32,
    limit: u32,
) -> Result<Outcome, Cut>
    requires thread { thread < ROWS }
    requires target { target < TARGETS }
    requires value { value ≡ value_for what value }
    requires calling { (p : Program) × (whose : ℕ → Bool) × (contexts : List (Option Ctx)) × (K : State) × (known : Thread) × IsCalling p whose thread (image_in (N.words tx.old)) contexts K known }
    requires room { 34 ≤ room_of (N.words tx.old) }
    ensures acted { IfOk result (λ outcome. (p : Program) (whose : ℕ → Bool) (contexts : List (Option Ctx)) (K : State) (known : Thread) → IsCalling p whose thread (image_in (N.words tx.old)) contexts K known
        → Acted p whose thread (image_in (N.words tx.new)) contexts (held p K what target value limit) outcome) }
    ensures events { OnOk result ((image_in (N.words tx.new)).events ≡ (image_in (N.words tx.old)).events) }
    ensures cut { IsErr result → IsShort (N.left tx.old) 136 }
    ensures dark { OnErr result (N.left tx.new ≡ Some 0) }
    ensures lent { IsLent N.Nv tx.old tx.new }
    ensures within { OnOk result (IsWithin N.Nv tx.old tx.new 34) }
{
    holding_laws();
    if limit == 0 {
        return Ok(Outcome::Results(timed_out(what)));
    }
    let until = until_of(tx, limit);
    block::<L, N>(
        tx,
        thread,
        Wait {
            what,
            target,
            value,
            until,
        },
    )?;
    Ok(Outcome::Blocked)
}
