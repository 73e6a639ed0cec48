ghost use Rattle.std.specs.Prelude.{◌≡◌, ◌+◌, ◌^◌, ◌<◌, ◌≤◌, length, option_map, slice_get, take};
ghost use Rattle.thread_tree.specs.declared.block.Stmt.{out-Stmt};
ghost use Rattle.thread_tree.specs.Actions.{actions, spots};
ghost use Rattle.thread_tree.specs.Program.{function_of, program_of};
ghost use Rattle.thread_check.specs.ActionLists.{actions_in, actions_in_turn, actions_layer, actions_of_declaration};
ghost use Rattle.thread_machine.specs.Context.{block_in, body_of};
ghost use Rattle.thread_machine.specs.Parts.{IsPart, actions_if_some, spots_of_body};

use crate::body::{body_in, function_in};
use thread_tree::{Block, Decl, List, Stmt, Tree};

/// The number of actions in a statement, itself among them if it is one.
#[cycle(count)]
pub fn count_of(statement: &Stmt) -> usize
    ensures count { length (actions_layer actions_in (out-Stmt statement.now) statement.now) < 2 ^ 32
        → result ≡ length (actions_layer actions_in (out-Stmt statement.now) statement.now) }
{
    match statement {
        Stmt::If(_, block, None) => count_in(block),
        Stmt::If(_, block, Some(other)) => count_in(block).wrapping_add(count_in(other)),
        Stmt::While(_, block) => count_in(block),
        Stmt::Ploop(_, block) => count_in(block).wrapping_add(1),
        Stmt::Atomic(..) | Stmt::Call(..) => 1,
        Stmt::Let(..) | Stmt::Set(..) | Stmt::Apply(..) | Stmt::Break(..) | Stmt::Return(..) => 0,
    }
}

/// The number of actions in a block.
#[cycle(count)]
#[tactic(auto, using(crate::proofs::CountLemmas::block_laws))]
pub fn count_in(block: &Block) -> usize
    ensures count { length (actions_in block.now) < 2 ^ 32 → result ≡ length (actions_in block.now) }
{
    count_before(&block.stmts, block.stmts.len())
}

/// The number of actions in the first statements, so many of them.
#[cycle(count)]
#[tactic(auto, using(crate::proofs::CountLemmas::turn_laws))]
pub fn count_before(stmts: &List<Stmt>, upto: usize) -> usize
    ensures count { length (actions_in_turn stmts.now) < 2 ^ 32
        → result ≡ length (actions_in_turn (take upto stmts.now)) }
{
    let mut count: usize = 0;
    for at in 0..stmts.len() {
        if at < upto {
            count = count.wrapping_add(count_of(stmts.get(at)));
        }
    }
    count
}

/// The number of actions in a declaration.
fn count_declared(decl: &Decl) -> usize
    ensures count { length (actions_of_declaration decl.now) < 2 ^ 32 → result ≡ length (actions_of_declaration decl.now) }
{
    match decl {
        Decl::Function(_, _, block) | Decl::Thread(_, _, _, block) => count_in(block),
        Decl::Kind(..) | Decl::Object(..) | Decl::Queue(..) => 0,
        Decl::Semaphore(..) | Decl::Start(..) => 0,
    }
}

/// How many actions stand before the body of the function of this name.
pub fn function_offset(tree: &Tree, name: u32) -> usize
    requires few { length (actions (program_of tree.now)) < 2 ^ 32 }
    ensures part { IsPart (actions_if_some (block_in (option_map body_of (function_of (program_of tree.now) name))))
        (actions (program_of tree.now)) result }
{
    let mut offset: usize = 0;
    for at in 0..tree.decls.len() {
        let decl = tree.decls.get(at);
        match function_in(decl, name) {
            Some(_) => return offset,
            None => {}
        }
        offset = offset.wrapping_add(count_declared(decl));
    }
    0
}

/// How many actions stand before the body of this number.
pub fn body_offset(tree: &Tree, number: usize) -> usize
    requires few { length (actions (program_of tree.now)) < 2 ^ 32 }
    ensures part { IsPart (actions_if_some (block_in (slice_get (program_of tree.now).bodies number)))
        (actions (program_of tree.now)) result }
    ensures spots { IsPart (spots_of_body (slice_get (program_of tree.now).bodies number))
        (spots (program_of tree.now)) result }
{
    let mut left = number;
    let mut offset: usize = 0;
    for at in 0..tree.decls.len() {
        let decl = tree.decls.get(at);
        match body_in(decl) {
            Some(_) => {
                if left == 0 {
                    return offset;
                }
                left -= 1;
            }
            None => {}
        }
        offset = offset.wrapping_add(count_declared(decl));
    }
    0
}
