ghost use Rattle.std.specs.Prelude.{◌≡◌, ◌+◌, false, true, if◌then◌else◌};
ghost use Rattle.std.specs.Option.{is_some};
ghost use Rattle.thread_tree.specs.declared.block.Stmt.{out-Stmt};
ghost use Rattle.thread_tree.specs.Ahead.{ahead, arrival_of};
ghost use Rattle.thread_tree.specs.Ahead.Arrival.{Watchdog};
ghost use Rattle.thread_tree.specs.LocalState.{move};
ghost use Rattle.thread_tree.specs.Program.{program_of};
ghost use Rattle.thread_machine.specs.Context.{is_move, local_of};
ghost use Rattle.thread_tree.specs.Limits.{IsSound};
ghost use Rattle.thread_machine.specs.Reached.{IsContext};

use crate::context::Ctx;
use crate::walk::statement_at;
use std::sync::ledger::Ledger;
use step_counter::Steps;
use thread_tree::{MOVES, Stmt, Tree};

impl Ctx {
    /// Makes moves up to the next action, to the end, or to the bound, and says whether no move is next.
    pub fn run<L: Ledger>(&mut self, tree: &Tree, steps: &mut Steps<L>) -> bool
        requires sound { IsSound (program_of tree.now) }
        requires context { IsContext (program_of tree.now) self.old }
        ensures context { IsContext (program_of tree.now) self.new }
        ensures stopped { result ≡ true → move (program_of tree.now) (local_of (program_of tree.now) self.new) ≡ None }
        ensures arrived { (ahead (program_of tree.now) (local_of (program_of tree.now) self.old)).arrival
            ≡ (if result then arrival_of (local_of (program_of tree.now) self.new) else Watchdog) }
        ensures moved { local_of (program_of tree.now) self.new
            ≡ (ahead (program_of tree.now) (local_of (program_of tree.now) self.old)).local }
        ensures stepped { steps.new
            ≡ steps.old + (ahead (program_of tree.now) (local_of (program_of tree.now) self.old)).moves }
    {
        for at in 0..MOVES {
            if !self.step(tree) {
                return true;
            }
            steps.tick();
        }
        !self.has_move(tree)
    }

    /// Whether a move is next.
    fn has_move(&self, tree: &Tree) -> bool
        ensures value { result ≡ is_some (move (program_of tree.now) (local_of (program_of tree.now) self.now)) }
    {
        match statement_at(self.block(tree), self.at) {
            Some(statement) => is_move(statement),
            None => match self.cursors.last() {
                Some(_) => true,
                None => false,
            },
        }
    }
}

/// Whether a statement is a move, and no action.
fn is_move(statement: &Stmt) -> bool
    ensures value { result ≡ is_move (out-Stmt statement.now) }
{
    match statement {
        Stmt::Let(..) | Stmt::Set(..) | Stmt::Apply(..) | Stmt::If(..) => true,
        Stmt::While(..) | Stmt::Break(..) | Stmt::Return(..) => true,
        Stmt::Ploop(..) | Stmt::Atomic(..) | Stmt::Call(..) => false,
    }
}
