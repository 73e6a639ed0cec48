// The event of a thread that arrives at an `atomic` block.
ghost use Rattle.std.specs.Prelude.{◌≡◌, ◌+◌, ◌-◌, ◌*◌, ◌<◌, ◌≤◌, ◌^◌, IfOk, IsErr, IsTrue, IsSomeAnd, MatchResult, OnOk, OnErr, Some, ℕ, List, ◌∷◌, length, replicate, slice_get, true};
ghost use Rattle.nv_memory.specs.Budget.{IsShort};
ghost use Rattle.undo_journal.specs.Undo.{IsAtRest, durable, outside, room_of};
ghost use Rattle.undo_journal.specs.Lending.{IsLent, IsWithin};
ghost use Rattle.thread_tree.specs.declared.block.Stmt.{Stmt, out-Stmt};
ghost use Rattle.thread_tree.specs.declared.block.Stmt.TheOpen as stmt;
ghost use Rattle.thread_tree.specs.declared.place.At.{At};
ghost use Rattle.thread_tree.specs.declared.place.Place.{Place};
ghost use Rattle.thread_tree.specs.declared.transaction.TBlock.{TBlock};
ghost use Rattle.thread_tree.specs.Actions.{actions};
ghost use Rattle.thread_tree.specs.Kinds.{result_count};
ghost use Rattle.thread_tree.specs.LocalState.{bind, next_action};
ghost use Rattle.thread_tree.specs.Program.{program_of};
ghost use Rattle.thread_check.specs.Gives.{block_gives};
ghost use Rattle.thread_machine.specs.declared.next.Next.TheVariants.{Action};
ghost use Rattle.thread_machine.specs.Context.{local_of};
ghost use Rattle.thread_machine.specs.Reached.{IsContext};
ghost use Rattle.kernel_image.specs.Cells.{FellAtLeast};
ghost use Rattle.kernel_image.specs.Decoded.{image_in, row_at};
ghost use Rattle.kernel_model.specs.declared.event.Event.TheVariants.{Step};
ghost use Rattle.kernel_model.specs.Kernel.{State, Thread};
ghost use Rattle.kernel_model.specs.Run.{one};
ghost use Rattle.replay_list.specs.Stands.{KernelStands};
ghost use Rattle.served_program.specs.Served.{is_served_tblock};
ghost use Rattle.kernel_events.specs.Blocks.{IsRecordedEvent, IsBound};
ghost use Rattle.kernel_events.specs.Ends.{IsCommitted, IsLost};
ghost use Rattle.kernel_events.specs.Follows.{Arrives};

use crate::closing::{commit, count, stop};
use crate::results::serve;
use crate::writes::EVENT_WRITES;
use arrayvec::ArrayVec;
use kernel_model::{NO_RECORD_ROOM, soundness};
use nv_memory::{Cut, Nv};
use replay_list::{standing_laws, words_used};
use thread_check::Checked;
use thread_machine::{Contexts, Ctx};
use thread_tree::{ATOMIC, At, EACH_GIVEN, List, RECORD_WORDS, ROWS};
use undo_journal::{CAPACITY, Dark, Idle, Open};
use user_transactions::{TxEnd, perform};

/// Undoes what a block did, and opens the transaction anew.
#[tactic(auto, using(crate::proofs::AnewLaws::few_undoing, crate::proofs::AnewLaws::outside_undone, crate::proofs::EndLaws::fell_spent, crate::proofs::EndLaws::least_none))]
fn anew<N: Nv>(tx: Open<N>) -> Result<Open<N>, Dark<N>>
    requires room { 320 ≤ room_of (N.words tx) }
    ensures words { IfOk result (λ next. outside (N.words next) ≡ durable (N.words tx)) }
    ensures room { IfOk result (λ next. room_of (N.words next) ≡ CAPACITY) }
    ensures ends { MatchResult result (λ next. IsCommitted N.Nv 0 961 tx next) (IsLost N.Nv 961 tx) }
{
    match tx.undo() {
        Ok(idle) => Ok(idle.begin()),
        Err(dark) => Err(dark),
    }
}

/// The results of a block that gave these values.
fn gave(values: ArrayVec<u32, 3>) -> ArrayVec<u32, 4>
    ensures results { result.items ≡ 1 ∷ values.items }
{
    let mut results = ArrayVec::new();
    results.push(1);
    results.try_extend_from_slice(values.as_slice()).unwrap();
    results
}

/// The results of a block that aborted.
fn zeros(given: u32) -> ArrayVec<u32, 4>
    requires few { given ≤ 3 }
    ensures results { result.items ≡ replicate (given + 1) 0 }
{
    let mut results = ArrayVec::new();
    for at in 0..given + 1 {
        results.push(0);
    }
    results
}

/// Counts the event, and records and binds the results of the action at which the context stands.
fn conclude<N: Nv>(
    tx: &mut Open<N>,
    program: &Checked,
    ctx: &mut Ctx,
    thread: u32,
    kind_word: u32,
    results: &[u32],
) -> Result<(), Cut>
    requires context { IsContext (program_of program.now) ctx.old }
    requires action { IsSomeAnd (next_action (program_of program.now) (local_of (program_of program.now) ctx.old))
        (λ action. length results.now ≡ result_count action.kind action.given) }
    requires thread { thread < ROWS }
    requires few { length results.now ≤ 4 }
    requires events { (image_in (N.words tx.old)).events + 1 < 2 ^ 32 }
    requires fits { (row_at (image_in (N.words tx.old)) thread).used + 1 + length results.now ≤ RECORD_WORDS }
    requires room { 7 ≤ room_of (N.words tx.old) }
    ensures recorded { OnOk result (IsRecordedEvent thread kind_word results.now (image_in (N.words tx.old)) (image_in (N.words tx.new))) }
    ensures bound { OnOk result (local_of (program_of program.now) ctx.new ≡ bind (program_of program.now) (local_of (program_of program.now) ctx.old) results.now) }
    ensures context { OnOk result (IsContext (program_of program.now) ctx.new) }
    ensures cut { IsErr result → IsShort (N.left tx.old) 28 }
    ensures dark { OnErr result (N.left tx.new ≡ Some 0) }
    ensures least { OnOk result (FellAtLeast 4 (N.left tx.old) (N.left tx.new)) }
    ensures lent { IsLent N.Nv tx.old tx.new }
    ensures within { OnOk result (IsWithin N.Nv tx.old tx.new 7) }
{
    count(tx)?;
    serve(tx, program, ctx, thread, kind_word, results)?;
    Ok(())
}

/// The end of an event whose action has these results.
fn finish_action<N: Nv>(
    tx: Open<N>,
    program: &Checked,
    contexts: &mut Contexts,
    ctx: Ctx,
    thread: u32,
    kind_word: u32,
    results: ArrayVec<u32, 4>,
) -> Result<Idle<N>, Dark<N>>
    requires context { IsContext (program_of program.now) ctx }
    requires action { IsSomeAnd (next_action (program_of program.now) (local_of (program_of program.now) ctx))
        (λ action. length results.items ≡ result_count action.kind action.given) }
    requires thread { thread < ROWS }
    requires events { (image_in (N.words tx)).events + 1 < 2 ^ 32 }
    requires fits { (row_at (image_in (N.words tx)) thread).used + 1 + length results.items ≤ RECORD_WORDS }
    requires room { 7 ≤ room_of (N.words tx) }
    ensures recorded { IfOk result (λ idle. IsRecordedEvent thread kind_word results.items (image_in (N.words tx)) (image_in (N.words idle))) }
    ensures bound { OnOk result (IsBound (program_of program.now) thread results.items ctx contexts.old contexts.new) }
    ensures ends { MatchResult result (λ idle. IsCommitted N.Nv 5 29 tx idle) (IsLost N.Nv 29 tx) }
{
    let mut tx = tx;
    let mut ctx = ctx;
    if conclude(
        &mut tx,
        program,
        &mut ctx,
        thread,
        kind_word,
        results.as_slice(),
    )
    .is_err()
    {
        return Err(tx.lose());
    }
    contexts.set(thread, Some(ctx));
    match commit(tx) {
        Ok(idle) => Ok(idle),
        Err(dark) => Err(dark),
    }
}

/// How many words a block gives to the names behind its arrow; the first of them takes whether it gave.
fn given_by(to: &List<At>) -> u32
    requires few { length to.now ≤ 4 }
    ensures given { result ≡ length to.now - 1 }
{
    let names = to.len() as u32;
    names.saturating_sub(1)
}

/// The event of a thread that arrives at this block, whose record has room.
fn perform_block<N: Nv>(
    tx: Open<N>,
    program: &Checked,
    contexts: &mut Contexts,
    ctx: Ctx,
    thread: u32,
    number: u32,
    given: u32,
) -> Result<Idle<N>, Dark<N>>
    requires at_rest { IsAtRest (N.words tx) }
    requires thread { thread < ROWS }
    requires few { given ≤ 3 }
    requires fits { (row_at (image_in (N.words tx)) thread).used + 2 + given ≤ RECORD_WORDS }
    requires here { (s : Stmt) × (place : Place) × (to : List At) × (body : TBlock) × (slice_get (actions (program_of program.now)) number ≡ Some s) × (out-Stmt s ≡ stmt.Atomic place to body) × (given ≡ length to - 1) × IsTrue (is_served_tblock body) × (block_gives given body ≡ true) }
    requires arrives { (K : State) × (runner : Thread) × Arrives (program_of program.now) (image_in (N.words tx)) contexts.old K thread runner ctx (Action number) }
    ensures happened { IfOk result (λ idle. (K : State) (runner : Thread) → Arrives (program_of program.now) (image_in (N.words tx)) contexts.old K thread runner ctx (Action number)
        → KernelStands (program_of program.now) (image_in (N.words idle)) contexts.new (one (program_of program.now) K Step)) }
    ensures ends { MatchResult result (λ idle. IsCommitted N.Nv 5 EVENT_WRITES tx idle) (IsLost N.Nv EVENT_WRITES tx) }
{
    soundness();
    standing_laws();
    let _ = program.tree();
    let mut tx = tx;
    let mut ctx = ctx;
    match perform(&mut tx, program, &mut ctx, number) {
        Err(_) => Err(tx.lose()),
        Ok(TxEnd::Gave(values)) => {
            let kind_word = ATOMIC + EACH_GIVEN * given;
            finish_action(tx, program, contexts, ctx, thread, kind_word, gave(values))
        }
        Ok(TxEnd::Aborted) => {
            let kind_word = ATOMIC + EACH_GIVEN * given;
            match anew(tx) {
                Ok(tx) => finish_action(
                    tx,
                    program,
                    contexts,
                    ctx,
                    thread,
                    kind_word,
                    zeros(given),
                ),
                Err(dark) => Err(dark),
            }
        }
        Ok(TxEnd::Fault(code)) => match anew(tx) {
            Ok(tx) => stop(tx, thread, code),
            Err(dark) => Err(dark),
        },
    }
}

/// The event of a thread that arrives at this block.
pub fn block_event<N: Nv>(
    tx: Open<N>,
    program: &Checked,
    contexts: &mut Contexts,
    ctx: Ctx,
    thread: u32,
    number: u32,
    to: &List<At>,
) -> Result<Idle<N>, Dark<N>>
    requires at_rest { IsAtRest (N.words tx) }
    requires thread { thread < ROWS }
    requires few { length to.now ≤ 4 }
    requires here { (s : Stmt) × (place : Place) × (body : TBlock) × (slice_get (actions (program_of program.now)) number ≡ Some s) × (out-Stmt s ≡ stmt.Atomic place to.now body) × IsTrue (is_served_tblock body) × (block_gives (length to.now - 1) body ≡ true) }
    requires arrives { (K : State) × (runner : Thread) × Arrives (program_of program.now) (image_in (N.words tx)) contexts.old K thread runner ctx (Action number) }
    ensures happened { IfOk result (λ idle. (K : State) (runner : Thread) → Arrives (program_of program.now) (image_in (N.words tx)) contexts.old K thread runner ctx (Action number)
        → KernelStands (program_of program.now) (image_in (N.words idle)) contexts.new (one (program_of program.now) K Step)) }
    ensures ends { MatchResult result (λ idle. IsCommitted N.Nv 5 EVENT_WRITES tx idle) (IsLost N.Nv EVENT_WRITES tx) }
{
    soundness();
    let _ = program.tree();
    let given = given_by(to);
    if words_used(&tx, thread) + 2 + given > RECORD_WORDS {
        return stop(tx, thread, NO_RECORD_ROOM);
    }
    perform_block(tx, program, contexts, ctx, thread, number, given)
}
