ghost use Rattle.std.specs.Prelude.{◌≡◌, ◌<◌, ◌≤◌, length, drop, false, slice_get, if◌then◌else◌};
ghost use Rattle.thread_tree.specs.declared.block.Stmt.{out-Stmt};
ghost use Rattle.thread_tree.specs.LocalState.{move, moved_by};
ghost use Rattle.thread_tree.specs.Value.{value_of};
ghost use Rattle.thread_tree.specs.Need.{Fits};
ghost use Rattle.thread_tree.specs.Program.{program_of};
ghost use Rattle.thread_machine.specs.Context.{IsCounted, local_of, rest_of, statement_of};
ghost use Rattle.thread_machine.specs.Scope.{IsScoped};
ghost use Rattle.thread_machine.specs.Within.{IsWithin};

use crate::context::Ctx;
use crate::evaluate::evaluate;
use crate::walk::statement_at;
use thread_tree::{Expr, Stmt, Tree};

impl Ctx {
    /// Makes the next move, and says whether there was one.
    pub fn step(&mut self, tree: &Tree) -> bool
        requires fits { Fits (program_of tree.now) }
        requires counted { IsCounted (program_of tree.now) self.old }
        requires within { IsWithin (program_of tree.now) (local_of (program_of tree.now) self.old) }
        ensures counted { IsCounted (program_of tree.now) self.new }
        ensures scoped { IsScoped (program_of tree.now) self.old → IsScoped (program_of tree.now) self.new }
        ensures unmoved { result ≡ false → self.new ≡ self.old }
        ensures moved { move (program_of tree.now) (local_of (program_of tree.now) self.old)
            ≡ (if result then Some (local_of (program_of tree.now) self.new) else None) }
    {
        match statement_at(self.block(tree), self.at) {
            Some(statement) => self.perform(tree, statement),
            None => self.end(tree),
        }
    }

    /// Makes the move that the statement at hand is, and says whether it is one.
    fn perform(&mut self, tree: &Tree, statement: &Stmt) -> bool
        requires place { self.old.at < usize.MAX }
        requires here { statement_of (program_of tree.now) self.old ≡ Some statement.now }
        requires fits { Fits (program_of tree.now) }
        requires counted { IsCounted (program_of tree.now) self.old }
        requires within { IsWithin (program_of tree.now) (local_of (program_of tree.now) self.old) }
        ensures counted { IsCounted (program_of tree.now) self.new }
        ensures scoped { IsScoped (program_of tree.now) self.old → IsScoped (program_of tree.now) self.new }
        ensures unmoved { result ≡ false → self.new ≡ self.old }
        ensures moved { moved_by (program_of tree.now) (local_of (program_of tree.now) self.old)
            (rest_of (program_of tree.now) self.old) (out-Stmt statement.now)
            ≡ (if result then Some (local_of (program_of tree.now) self.new) else None) }
    {
        match statement {
            Stmt::Let(at, e) => self.declare(at.name, self.value(e)),
            Stmt::Set(at, e) => self.set(at.name, self.value(e)),
            Stmt::Apply(_, callee, arguments) => self.call(tree, callee.name, arguments),
            Stmt::If(e, _, other) => self.branch(self.value(e), other.is_some()),
            Stmt::While(e, _) => self.test(self.value(e)),
            Stmt::Break(_) => self.leave_loop(tree),
            Stmt::Return(_, None) => self.give_back(tree, 0),
            Stmt::Return(_, Some(e)) => self.give_back(tree, self.value(e)),
            Stmt::Ploop(..) | Stmt::Atomic(..) | Stmt::Call(..) => return false,
        }
        true
    }

    /// The value of an expression over the locals of the innermost frame.
    fn value(&self, e: &Expr) -> u32
        requires within { self.now.base ≤ length self.now.slots.items }
        ensures value { result ≡ value_of (drop self.now.base self.now.slots.items) e.now }
    {
        evaluate(self.own(), e)
    }
}
