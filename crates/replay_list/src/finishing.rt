// Finishing the open call of a thread.
ghost use Rattle.std.specs.Prelude.{◌≡◌, ◌+◌, ◌<◌, ◌≤◌, length, IsErr, OnOk, OnErr, Some, IfSome, IsSomeAnd};
ghost use Rattle.nv_memory.specs.Budget.{IsShort};
ghost use Rattle.undo_journal.specs.Undo.{room_of};
ghost use Rattle.undo_journal.specs.Lending.{IsLent, IsWithin};
ghost use Rattle.thread_tree.specs.Kinds.{Action, action_of, kind_word, result_count};
ghost use Rattle.thread_tree.specs.LocalState.{next_action};
ghost use Rattle.thread_tree.specs.Program.{Program, program_of};
ghost use Rattle.thread_machine.specs.Context.{local_of};
ghost use Rattle.thread_machine.specs.declared.context.Ctx.{Ctx};
ghost use Rattle.thread_machine.specs.Reached.{IsContext};
ghost use Rattle.kernel_image.specs.Decoded.{image_in, row_at};
ghost use Rattle.replay_list.specs.Finished.{IsUnfinished, IsGiven, IsFinished};

use crate::appending::append;
use nv_memory::{Cut, Nv};
use thread_check::Checked;
use thread_machine::{Contexts, Ctx};
use thread_tree::{ATOMIC, EACH_GIVEN, RECORD_WORDS, ROWS, Stmt, TURN, kind_of_call};
use undo_journal::Open;

// The kind word of the record of an action with at most four results.
#[tactic(auto, using(crate::proofs::CountLaws::word_of_call))]
fn kind_word_of(statement: &Stmt) -> u32
    requires action { (p : Program) × IsSomeAnd (action_of p statement.now) (λ action. result_count action.kind action.given ≤ 4) }
    ensures kind { (p : Program) → IfSome (action_of p statement.now) (λ action. result ≡ kind_word action.kind action.given) }
{
    match statement {
        Stmt::Atomic(_, to, _) => ATOMIC + EACH_GIVEN * to.len().saturating_sub(1) as u32,
        Stmt::Call(_, call, _) => kind_of_call(call),
        Stmt::Ploop(..) => TURN,
        Stmt::Let(..) | Stmt::Set(..) | Stmt::Apply(..) | Stmt::If(..) => 0,
        Stmt::While(..) | Stmt::Break(..) | Stmt::Return(..) => 0,
    }
}

// The kind word of the record of the action at which a context stands.
fn kind_word_at(program: &Checked, ctx: &Ctx) -> u32
    requires context { IsContext (program_of program.now) ctx.now }
    requires action { IsSomeAnd (next_action (program_of program.now) (local_of (program_of program.now) ctx.now)) (λ action. result_count action.kind action.given ≤ 4) }
    ensures kind { IfSome (next_action (program_of program.now) (local_of (program_of program.now) ctx.now)) (λ action. result ≡ kind_word action.kind action.given) }
{
    let number = ctx.number(program.tree());
    kind_word_of(program.action(number))
}

// The kind word of the record of the action at which a thread stands.
fn kind_word_for(program: &Checked, contexts: &Contexts, thread: u32, results: &[u32]) -> u32
    requires few { length results.now ≤ 4 }
    requires unfinished { (ctx : Ctx) × (action : Action) × IsUnfinished (program_of program.now) contexts.now thread results.now ctx action }
    ensures kind { (ctx : Ctx) (action : Action) → IsUnfinished (program_of program.now) contexts.now thread results.now ctx action → result ≡ kind_word action.kind action.given }
{
    let _ = results.len();
    match contexts.get(thread) {
        Some(ctx) => kind_word_at(program, ctx),
        None => 0,
    }
}

// Gives a thread the results of the action at which it stands.
fn give(program: &Checked, contexts: &mut Contexts, thread: u32, results: &[u32])
    requires thread { thread < ROWS }
    requires unfinished { (ctx : Ctx) × (action : Action) × IsUnfinished (program_of program.now) contexts.old thread results.now ctx action }
    ensures given { (ctx : Ctx) (action : Action) → IsUnfinished (program_of program.now) contexts.old thread results.now ctx action → IsGiven (program_of program.now) thread results.now ctx contexts.old contexts.new }
{
    match contexts.take(thread) {
        Some(mut ctx) => {
            ctx.bind(program, results);
            contexts.set(thread, Some(ctx));
        }
        None => {}
    }
}

/// Finishes the action at which a thread, 0 to 15, stands with these results, as when it was delayed or waited:
/// appends its record, and gives the results to its context. On `Cut` fewer than 24 writes were left, none is left, and
/// the contexts are as before.
pub fn finish<N: Nv>(
    tx: &mut Open<N>,
    program: &Checked,
    contexts: &mut Contexts,
    thread: u32,
    results: &[u32],
) -> Result<(), Cut>
    requires thread { thread < ROWS }
    requires few { length results.now ≤ 4 }
    requires unfinished { (ctx : Ctx) × (action : Action) × IsUnfinished (program_of program.now) contexts.old thread results.now ctx action }
    requires fits { (row_at (image_in (N.words tx.old)) thread).used + 1 + length results.now ≤ RECORD_WORDS }
    requires room { 6 ≤ room_of (N.words tx.old) }
    ensures finished { OnOk result ((ctx : Ctx) (action : Action) → IsUnfinished (program_of program.now) contexts.old thread results.now ctx action
        → IsFinished (program_of program.now) thread results.now ctx action (image_in (N.words tx.old)) (image_in (N.words tx.new)) contexts.old contexts.new) }
    ensures kept { OnErr result (contexts.new ≡ contexts.old) }
    ensures cut { IsErr result → IsShort (N.left tx.old) 24 }
    ensures dark { OnErr result (N.left tx.new ≡ Some 0) }
    ensures lent { IsLent N.Nv tx.old tx.new }
    ensures within { OnOk result (IsWithin N.Nv tx.old tx.new 6) }
{
    let kind_word = kind_word_for(program, contexts, thread, results);
    append(tx, thread, kind_word, results)?;
    give(program, contexts, thread, results);
    Ok(())
}
