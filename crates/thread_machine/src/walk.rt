ghost use Rattle.std.specs.Prelude.{◌≡◌, ◌+◌, ◌<◌, option_and_then, slice_get};
ghost use Rattle.std.specs.Option.{OnSome, option_copied};
ghost use Rattle.thread_tree.specs.declared.block.Stmt.{out-Stmt};
ghost use Rattle.thread_tree.specs.Program.{program_of};
ghost use Rattle.thread_machine.specs.Context.{block_in, block_inside, called_body, comes_again, first_block, is_loop, level_of, other_block, place_after, place_behind, result_name, statements};

use crate::body::{function, numbered};
use crate::context::{Ctx, Cursor, Way};
use thread_tree::{Block, Stmt, Tree};

/// The statement at a place of a block, if there is one.
pub fn statement_at<'a>(block: Option<&'a Block>, at: usize) -> Option<&'a Stmt>
    ensures found { option_copied result ≡ slice_get (statements (option_copied block.entry)) at }
    ensures fits { OnSome result (at < usize.MAX) }
{
    let block = block?;
    if at < block.stmts.len() {
        Some(block.stmts.get(at))
    } else {
        None
    }
}

/// Whether a statement is a loop.
fn comes_again(statement: &Stmt) -> bool
    ensures value { result ≡ comes_again (out-Stmt statement.now) }
{
    match statement {
        Stmt::While(..) | Stmt::Ploop(..) => true,
        Stmt::Let(..) | Stmt::Set(..) | Stmt::Apply(..) | Stmt::If(..) => false,
        Stmt::Break(..) | Stmt::Return(..) | Stmt::Atomic(..) | Stmt::Call(..) => false,
    }
}

/// Whether there is a statement and it is a loop.
pub fn is_loop(statement: Option<&Stmt>) -> bool
    ensures value { result ≡ is_loop (option_copied statement.entry) }
{
    match statement {
        Some(statement) => comes_again(statement),
        None => false,
    }
}

/// The place behind a statement, where there is one.
pub fn place_behind(statement: Option<&Stmt>, at: usize) -> usize
    requires fits { OnSome statement (at < usize.MAX) }
    ensures value { result ≡ place_behind (option_copied statement.entry) at }
{
    match statement {
        Some(_) => at + 1,
        None => at,
    }
}

/// The place where a block goes on when the block of a statement has ended: a loop comes again.
pub fn place_after(statement: Option<&Stmt>, at: usize) -> usize
    requires fits { OnSome statement (at < usize.MAX) }
    ensures value { result ≡ place_after (option_copied statement.entry) at }
{
    match statement {
        Some(statement) => if comes_again(statement) { at } else { at + 1 },
        None => at,
    }
}

/// The name of the local that takes the result of the function that a statement calls.
fn result_name(statement: &Stmt) -> Option<u32>
    ensures value { result ≡ result_name statement.now }
{
    match statement {
        Stmt::Apply(Some(to), ..) => Some(to.name),
        Stmt::Apply(None, ..) | Stmt::Let(..) | Stmt::Set(..) | Stmt::If(..) => None,
        Stmt::While(..) | Stmt::Ploop(..) | Stmt::Break(..) => None,
        Stmt::Return(..) | Stmt::Atomic(..) | Stmt::Call(..) => None,
    }
}

/// The name of the local that takes the result of the function that a statement calls, if there is one.
pub fn taking(statement: Option<&Stmt>) -> Option<u32>
    ensures value { result ≡ option_and_then result_name (option_copied statement.entry) }
{
    match statement {
        Some(statement) => result_name(statement),
        None => None,
    }
}

/// The first block of a statement.
fn first_block<'a>(statement: &'a Stmt) -> Option<&'a Block>
    ensures value { option_copied result ≡ first_block (out-Stmt statement.now) }
{
    match statement {
        Stmt::If(_, block, _) | Stmt::While(_, block) | Stmt::Ploop(_, block) => Some(block),
        Stmt::Let(..) | Stmt::Set(..) | Stmt::Apply(..) | Stmt::Break(..) => None,
        Stmt::Return(..) | Stmt::Atomic(..) | Stmt::Call(..) => None,
    }
}

/// The block behind a statement's `else`.
fn other_block<'a>(statement: &'a Stmt) -> Option<&'a Block>
    ensures value { option_copied result ≡ other_block (out-Stmt statement.now) }
{
    match statement {
        Stmt::If(_, _, other) => other.as_ref(),
        Stmt::Let(..) | Stmt::Set(..) | Stmt::Apply(..) | Stmt::While(..) => None,
        Stmt::Ploop(..) | Stmt::Break(..) => None,
        Stmt::Return(..) | Stmt::Atomic(..) | Stmt::Call(..) => None,
    }
}

/// The block of the function that a statement calls.
fn called_block<'a>(tree: &'a Tree, statement: &'a Stmt) -> Option<&'a Block>
    ensures value { option_copied result
        ≡ block_in (called_body (program_of tree.now) (out-Stmt statement.now)) }
{
    match statement {
        Stmt::Apply(_, callee, _) => match function(tree, callee.name) {
            Some(body) => Some(body.block),
            None => None,
        },
        Stmt::Let(..) | Stmt::Set(..) | Stmt::If(..) | Stmt::While(..) => None,
        Stmt::Ploop(..) | Stmt::Break(..) => None,
        Stmt::Return(..) | Stmt::Atomic(..) | Stmt::Call(..) => None,
    }
}

/// The block that is entered from a statement.
fn block_inside<'a>(tree: &'a Tree, way: Way, statement: &'a Stmt) -> Option<&'a Block>
    ensures value { option_copied result ≡ block_inside (program_of tree.now) way statement.now }
{
    match way {
        Way::First => first_block(statement),
        Way::Else => other_block(statement),
        Way::Call => called_block(tree, statement),
    }
}

/// The block that a cursor enters from a block.
pub fn block_by<'a>(tree: &'a Tree, block: Option<&'a Block>, cursor: Cursor) -> Option<&'a Block>
    ensures value { option_copied result
        ≡ option_and_then (block_inside (program_of tree.now) cursor.way)
        (slice_get (statements (option_copied block.entry)) cursor.at) }
{
    match statement_at(block, cursor.at) {
        Some(statement) => block_inside(tree, cursor.way, statement),
        None => None,
    }
}

/// The block of the body of a number.
pub fn body_block<'a>(tree: &'a Tree, number: usize) -> Option<&'a Block>
    ensures value { option_copied result ≡ block_in (slice_get (program_of tree.now).bodies number) }
{
    match numbered(tree, number) {
        Some(body) => Some(body.block),
        None => None,
    }
}

impl Ctx {
    /// The innermost open block, if the cursors lead to one.
    #[tactic(auto, using(crate::proofs::LevelLemmas::walk_laws))]
    pub fn block<'a>(&self, tree: &'a Tree) -> Option<&'a Block>
        ensures found { statements (option_copied result)
            ≡ (level_of (program_of tree.now) self.now).stmts }
    {
        let mut block = body_block(tree, self.body);
        for at in 0..self.cursors.len() {
            block = block_by(tree, block, self.cursors[at]);
        }
        block
    }
}
