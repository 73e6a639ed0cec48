ghost use Rattle.std.specs.Prelude.{◌≡◌, ◌+◌, ◌<◌, ◌^◌, IsTrue, length, slice_get, Some, MatchResult};
ghost use Rattle.thread_tree.specs.declared.block.Stmt.{out-Stmt};
ghost use Rattle.thread_tree.specs.Program.{program_of};
ghost use Rattle.thread_tree.specs.Actions.{actions};
ghost use Rattle.thread_check.specs.ActionLists.{actions_in, actions_layer, actions_in_turn, actions_of_declaration, actions_of_declarations};

use crate::checked::Checked;
use thread_tree::{Block, Decl, List, Stmt, Tree};

/// The action of this number in a statement, or how many are left to pass.
#[cycle(action)]
#[tactic(auto, using(crate::proofs::ActionLaws::slice_get_behind, crate::proofs::ActionLaws::slice_get_before))]
fn in_statement<'a>(stmt: &'a Stmt, number: usize) -> Result<&'a Stmt, usize>
    ensures { MatchResult result
        (λ s. slice_get (actions_layer actions_in (out-Stmt stmt.now) stmt.now) number ≡ Some s.now)
        (λ left. number ≡ length (actions_layer actions_in (out-Stmt stmt.now) stmt.now) + left) }
{
    match stmt {
        Stmt::Let(_, _) => Err(number),
        Stmt::Set(_, _) => Err(number),
        Stmt::Apply(_, _, _) => Err(number),
        Stmt::If(_, then_block, else_block) => match in_block(then_block, number) {
            Ok(found) => Ok(found),
            Err(left) => match else_block {
                None => Err(left),
                Some(block) => in_block(block, left),
            },
        },
        Stmt::While(_, block) => in_block(block, number),
        Stmt::Ploop(_, block) => {
            if number == 0 {
                return Ok(stmt);
            }
            in_block(block, number - 1)
        }
        Stmt::Break(_) => Err(number),
        Stmt::Return(_, _) => Err(number),
        Stmt::Atomic(_, _, _) => {
            if number == 0 {
                return Ok(stmt);
            }
            Err(number - 1)
        }
        Stmt::Call(_, _, _) => {
            if number == 0 {
                return Ok(stmt);
            }
            Err(number - 1)
        }
    }
}

/// The action of this number in a block, or how many are left to pass.
#[cycle(action)]
#[tactic(auto, using(crate::proofs::ActionLaws::actions_in_out))]
fn in_block<'a>(block: &'a Block, number: usize) -> Result<&'a Stmt, usize>
    ensures { MatchResult result
        (λ s. slice_get (actions_in block.now) number ≡ Some s.now)
        (λ left. number ≡ length (actions_in block.now) + left) }
{
    in_turn(&block.stmts, number)
}

/// The action of this number in statements, or how many are left to pass.
#[cycle(action)]
#[tactic(auto, using(crate::proofs::Steps::drop_at, crate::proofs::ActionLaws::actions_of_out, crate::proofs::ActionLaws::slice_get_behind, crate::proofs::ActionLaws::slice_get_before))]
fn in_turn<'a>(stmts: &'a List<Stmt>, number: usize) -> Result<&'a Stmt, usize>
    ensures { MatchResult result
        (λ s. slice_get (actions_in_turn stmts.now) number ≡ Some s.now)
        (λ left. number ≡ length (actions_in_turn stmts.now) + left) }
{
    let mut left = number;
    for i in 0..stmts.len() {
        match in_statement(stmts.get(i), left) {
            Ok(found) => return Ok(found),
            Err(rest) => left = rest,
        }
    }
    Err(left)
}

/// The action of this number in a declaration, or how many are left to pass.
fn in_declaration<'a>(decl: &'a Decl, number: usize) -> Result<&'a Stmt, usize>
    ensures { MatchResult result
        (λ s. slice_get (actions_of_declaration decl.now) number ≡ Some s.now)
        (λ left. number ≡ length (actions_of_declaration decl.now) + left) }
{
    match decl {
        Decl::Kind(_, _) => Err(number),
        Decl::Object(_, _) => Err(number),
        Decl::Queue(_, _, _) => Err(number),
        Decl::Semaphore(_, _, _) => Err(number),
        Decl::Function(_, _, body) => in_block(body, number),
        Decl::Thread(_, _, _, body) => in_block(body, number),
        Decl::Start(_, _, _) => Err(number),
    }
}

/// The action of this number in declarations, or how many are left to pass.
fn in_declarations<'a>(decls: &'a List<Decl>, number: usize) -> Result<&'a Stmt, usize>
    ensures { MatchResult result
        (λ s. slice_get (actions_of_declarations decls.now) number ≡ Some s.now)
        (λ left. number ≡ length (actions_of_declarations decls.now) + left) }
{
    let mut left = number;
    for i in 0..decls.len() {
        match in_declaration(decls.get(i), left) {
            Ok(found) => return Ok(found),
            Err(rest) => left = rest,
        }
    }
    Err(left)
}

/// Whether the actions have numbers of 32 bits.
#[tactic(auto, using(crate::proofs::ActionLaws::actions_show))]
pub(crate) fn are_few(tree: &Tree) -> bool
    ensures few { IsTrue result → length (actions (program_of tree.now)) < 2 ^ 32 }
{
    match in_declarations(&tree.decls, u32::MAX as usize) {
        Ok(_) => false,
        Err(_) => true,
    }
}

impl Checked {
    /// The action of this number: the actions are numbered from 0 in order of the text.
    #[tactic(auto, using(crate::proofs::ActionLaws::actions_show))]
    pub fn action(&self, number: u32) -> &Stmt
        requires { number < length (actions (program_of self.now)) }
        ensures { slice_get (actions (program_of self.now)) number ≡ Some result.now }
    {
        match in_declarations(&self.tree().decls, number as usize) {
            Ok(found) => found,
            Err(_) => unreachable!(),
        }
    }
}
