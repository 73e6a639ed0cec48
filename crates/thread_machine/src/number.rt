ghost use Rattle.std.specs.Prelude.{◌≡◌, ◌^◌, ◌<◌, false, [], Some, length, option_and_then, slice_get, IfSome, IsSomeAnd};
ghost use Rattle.std.specs.Option.{option_copied};
ghost use Rattle.thread_tree.specs.declared.block.Stmt.{Stmt, out-Stmt};
ghost use Rattle.thread_tree.specs.Actions.{actions, names_in, spot_at, spots};
ghost use Rattle.thread_tree.specs.Program.{program_of};
ghost use Rattle.thread_check.specs.ActionLists.{actions_in, actions_layer};
ghost use Rattle.thread_machine.specs.Context.{block_in, block_inside, called_body, is_move, level_of, local_of, rest_of, statement_of, statements};
ghost use Rattle.thread_machine.specs.Parts.{IsEntered, IsPart, actions_if_some, first_offset, other_offset};
ghost use Rattle.thread_machine.specs.Scope.{IsScoped};

use crate::context::{Ctx, Cursor, Way};
use crate::count::{body_offset, count_before, count_in, function_offset};
use crate::walk::{block_by, body_block};
use thread_tree::{Block, Stmt, Tree};

/// How many actions of a statement stand before those of its first block.
fn first_offset(statement: &Stmt) -> usize
    ensures value { result ≡ first_offset (out-Stmt statement.now) }
{
    match statement {
        Stmt::Ploop(..) => 1,
        Stmt::Let(..) | Stmt::Set(..) | Stmt::Apply(..) | Stmt::If(..) | Stmt::While(..) => 0,
        Stmt::Break(..) | Stmt::Return(..) | Stmt::Atomic(..) | Stmt::Call(..) => 0,
    }
}

/// How many actions of a statement stand before those of the block behind its `else`.
fn other_offset(statement: &Stmt) -> usize
    ensures value { length (actions_layer actions_in (out-Stmt statement.now) statement.now) < 2 ^ 32
        → result ≡ other_offset (out-Stmt statement.now) }
{
    match statement {
        Stmt::If(_, block, _) => count_in(block),
        Stmt::Let(..) | Stmt::Set(..) | Stmt::Apply(..) | Stmt::Ploop(..) | Stmt::While(..) => 0,
        Stmt::Break(..) | Stmt::Return(..) | Stmt::Atomic(..) | Stmt::Call(..) => 0,
    }
}

/// How many actions stand before those of the function that a statement calls.
#[tactic(auto, using(crate::proofs::PartLemmas::part_zero))]
fn called_offset(tree: &Tree, statement: &Stmt) -> usize
    requires few { length (actions (program_of tree.now)) < 2 ^ 32 }
    ensures part { IsPart (actions_if_some (block_in (called_body (program_of tree.now) (out-Stmt statement.now))))
        (actions (program_of tree.now)) result }
{
    match statement {
        Stmt::Apply(_, callee, _) => function_offset(tree, callee.name),
        Stmt::Let(..) | Stmt::Set(..) | Stmt::If(..) | Stmt::Ploop(..) | Stmt::While(..) => 0,
        Stmt::Break(..) | Stmt::Return(..) | Stmt::Atomic(..) | Stmt::Call(..) => 0,
    }
}

/// How many actions stand before those of the block that is entered from a statement of a block.
fn inner_offset(tree: &Tree, block: &Block, offset: usize, at: usize, way: Way) -> usize
    requires few { length (actions (program_of tree.now)) < 2 ^ 32 }
    requires part { IsPart (actions_in block.now) (actions (program_of tree.now)) offset }
    requires within { at < length (statements (Some block.now)) }
    ensures part { IfSome (slice_get (statements (Some block.now)) at) (λ s.
        IsPart (actions_if_some (block_inside (program_of tree.now) way s)) (actions (program_of tree.now)) result) }
    ensures entered { IfSome (slice_get (statements (Some block.now)) at) (λ s.
        IsEntered way offset (statements (Some block.now)) at s result) }
{
    let statement = block.stmts.get(at);
    let before = offset.wrapping_add(count_before(&block.stmts, at));
    match way {
        Way::First => before.wrapping_add(first_offset(statement)),
        Way::Else => before.wrapping_add(other_offset(statement)),
        Way::Call => called_offset(tree, statement),
    }
}

/// How many actions stand before those of the block that a cursor enters from a block.
fn offset_by(tree: &Tree, block: Option<&Block>, offset: usize, cursor: Cursor) -> usize
    requires few { length (actions (program_of tree.now)) < 2 ^ 32 }
    requires part { IsPart (actions_if_some (option_copied block)) (actions (program_of tree.now)) offset }
    ensures part { IsPart (actions_if_some (option_and_then (block_inside (program_of tree.now) cursor.way)
        (slice_get (statements (option_copied block.entry)) cursor.at)))
        (actions (program_of tree.now)) result }
    ensures entered { IfSome (slice_get (statements (option_copied block.entry)) cursor.at) (λ s.
        IsEntered cursor.way offset (statements (option_copied block.entry)) cursor.at s result) }
{
    match block {
        Some(block) => {
            if cursor.at < block.stmts.len() {
                return inner_offset(tree, block, offset, cursor.at, cursor.way);
            }
            offset
        }
        None => offset,
    }
}

impl Ctx {
    /// The number of the action at which the context stands, in order of the text. In a body's own frame it is the
    /// place of the action among all of the program where they stand.
    #[tactic(auto, using(crate::proofs::LevelLemmas::walk_laws))]
    pub fn number(&self, tree: &Tree) -> u32
        requires few { length (actions (program_of tree.now)) < 2 ^ 32 }
        requires action { IsSomeAnd (statement_of (program_of tree.now) self.now) (λ s. is_move (out-Stmt s) ≡ false) }
        requires scoped { IsScoped (program_of tree.now) self.now }
        ensures number { slice_get (actions (program_of tree.now)) result ≡ statement_of (program_of tree.now) self.now }
        ensures spot { (level_of (program_of tree.now) self.now).waiting ≡ []
            → (s : Stmt) → statement_of (program_of tree.now) self.now ≡ Some s
            → slice_get (spots (program_of tree.now)) result
            ≡ Some (spot_at s (names_in (local_of (program_of tree.now) self.now).top.locals)
            (rest_of (program_of tree.now) self.now)) }
    {
        let mut block = body_block(tree, self.body);
        let mut offset = body_offset(tree, self.body);
        for at in 0..self.cursors.len() {
            let cursor = self.cursors[at];
            offset = offset_by(tree, block, offset, cursor);
            block = block_by(tree, block, cursor);
        }
        match block {
            Some(block) => offset.wrapping_add(count_before(&block.stmts, self.at)) as u32,
            None => 0,
        }
    }
}
