// A receive that is finished: its record, and the locals that take its results.
ghost use Rattle.std.specs.Prelude.{◌≡◌, ◌<◌, ◌∷◌, [], IfSome, IsSomeAnd, IsTrue, length, option_and_then, slice_get};
ghost use Rattle.thread_tree.specs.Actions.{actions};
ghost use Rattle.thread_tree.specs.Kinds.{Action, action_of};
ghost use Rattle.thread_tree.specs.LocalState.{next_action};
ghost use Rattle.thread_tree.specs.Program.{program_of};
ghost use Rattle.thread_machine.specs.declared.context.Ctx.{Ctx as Context};
ghost use Rattle.thread_machine.specs.Context.{local_of};
ghost use Rattle.thread_machine.specs.Reached.{IsContext};
ghost use Rattle.replay_list.specs.Finished.{IsUnfinished};

use crate::fixtures::{close, has_word, program_of, transaction};
use nv_memory::{Nv, SimNv};
use replay_list::{finish, words_used};
use std::marker::Brand;
use std::process::Abort;
use std::sync::ledger::{Blank, Ledger};
use step_counter::Steps;
use thread_check::{Checked, discard};
use thread_machine::{Contexts, Ctx, Next};
use thread_tree::{Call, Decl, Stmt};
use undo_journal::Open;

// The names are q, t, ok and x, which have the numbers 0 to 3.
const ONE_RECEIVER: &[u8] =
    b"queue q[1];\nthread t() priority 3 {\n  let ok = 0; let x = 0;\n  receive q, 5 -> ok, x;\n}\nstart t();\n";

// Whether a queue and a thread without parameters are declared first.
fn has_plain_thread(program: &Checked) -> bool
    ensures template { IsTrue result → IsSomeAnd (slice_get (program_of program.now).templates 0) (λ t. 0 ≡ length t.parameters) }
{
    let decls = &program.tree().decls;
    if decls.len() < 2 {
        return false;
    }
    match (decls.get(0), decls.get(1)) {
        (Decl::Queue(..), Decl::Thread(_, parameters, _, _)) => parameters.len() == 0,
        _ => false,
    }
}

// The locals of thread 2 took the results.
fn takes(rt: &impl Abort, program: &Checked, contexts: &Contexts)
    requires context { IfSome (option_and_then (λ ctx. ctx) (slice_get contexts.now 2)) (IsContext (program_of program.now)) }
{
    match contexts.get(2) {
        Some(ctx) => {
            let own = ctx.locals(program);
            assert_eq!(rt; own.len(), 2);
            assert_eq!(rt; (own[0].name, own[0].value), (2, 1));
            assert_eq!(rt; (own[1].name, own[1].value), (3, 41));
        }
        None => panic!(rt; "no context"),
    }
}

// Finishes the action of thread 2.
fn gives<N: Nv>(rt: &impl Abort, tx: &mut Open<N>, program: &Checked, contexts: &mut Contexts)
    requires unfinished { (ctx : Context) × (action : Action) × IsUnfinished (program_of program.now) contexts.old 2 (1 ∷ 41 ∷ []) ctx action }
    ensures context { IfSome (option_and_then (λ ctx. ctx) (slice_get contexts.new 2)) (IsContext (program_of program.now)) }
{
    assert!(rt; tx.room() >= 6);
    assert!(rt; words_used(tx, 2) <= 200);
    match finish(tx, program, contexts, 2, &[1, 41]) {
        Ok(()) => {}
        Err(_) => panic!(rt; "cut"),
    }
}

// Finishes the receive at which this context of thread 2 stands.
fn received<N: Nv>(rt: &impl Abort, tx: &mut Open<N>, program: &Checked, ctx: Ctx, number: u32)
    requires context { IsContext (program_of program.now) ctx }
    requires stands { IsSomeAnd (slice_get (actions (program_of program.now)) number) (λ s. next_action (program_of program.now) (local_of (program_of program.now) ctx) ≡ action_of (program_of program.now) s) }
{
    let mut contexts = Contexts::none();
    contexts.set(2, Some(ctx));
    match program.action(number) {
        Stmt::Call(_, Call::Receive(..), _) => {
            gives(rt, tx, program, &mut contexts);
            takes(rt, program, &contexts);
        }
        _ => panic!(rt; "no receive"),
    }
}

// A thread that was born and ran to its receive, which is finished.
fn born_and_received<N: Nv, L: Ledger>(
    rt: &impl Abort,
    tx: &mut Open<N>,
    program: &Checked,
    blank: Blank,
)
    requires name { blank.name ≡ L.name }
    requires parts { blank.parts ≡ L.parts }
    requires some { 0 < L.parts }
    requires template { IsSomeAnd (slice_get (program_of program.now).templates 0) (λ t. 0 ≡ length t.parameters) }
{
    let mut steps = Steps::<L>::of(blank);
    let mut ctx = Ctx::fresh(program, 0, &[]);
    match ctx.ahead(program, &mut steps) {
        Next::Action(number) => received(rt, tx, program, ctx, number),
        Next::Finished | Next::Watchdog => panic!(rt; "no action"),
    }
}

// The record is 8, 1, 41, and the locals that take the results are 1 and 41.
#[test]
fn a_receive_is_finished(rt: HostRuntime) {
    let program = program_of(&rt, rt.alloc(), ONE_RECEIVER);
    assert!(rt; has_plain_thread(&program));
    let mut tx = transaction(&rt, rt.alloc());
    born_and_received::<SimNv, Brand>(&rt, &mut tx, &program, Blank::new(1));
    assert_eq!(rt; words_used(&tx, 2), 3);
    for (at, word) in [(1_760, 8), (1_761, 1), (1_762, 41), (1_743, 3)] {
        has_word(&rt, &tx, at, word);
    }
    close(&rt, tx);
    discard(program);
}
