ghost use Rattle.std.specs.Prelude.{◌≡◌, ◌<◌, ◌≤◌, ◌++◌, length, take, drop, IfSome, IsSomeAnd, slice_get};
ghost use Rattle.std.specs.Option.{option_copied};
ghost use Rattle.thread_tree.specs.declared.block.Stmt.{out-Stmt};
ghost use Rattle.thread_tree.specs.Kinds.{result_count};
ghost use Rattle.thread_tree.specs.LocalState.{bind, next_action, with_values};
ghost use Rattle.thread_tree.specs.Program.{names_of, program_of};
ghost use Rattle.thread_tree.specs.Value.{value_of};
ghost use Rattle.thread_machine.specs.Context.{local_of};
ghost use Rattle.thread_machine.specs.Operands.{names_if_some, operands_by, taken_by};
ghost use Rattle.thread_machine.specs.Reached.{IsContext};

use crate::context::Ctx;
use crate::evaluate::evaluate;
use crate::operands::operand_of;
use crate::scope::assign;
use crate::walk::statement_at;
use arrayvec::ArrayVec;
use thread_check::Checked;
use thread_tree::{At, Expr, LOCALS, List, Local, Stmt};

impl Ctx {
    /// Gives the results of the action at which the context stands to the names that take them, and
    /// goes on behind the action.
    pub fn bind(&mut self, program: &Checked, results: &[u32])
        requires context { IsContext (program_of program.now) self.old }
        requires action { IsSomeAnd (next_action (program_of program.now) (local_of (program_of program.now) self.old))
            (λ action. length results.now ≡ result_count action.kind action.given) }
        ensures context { IsContext (program_of program.now) self.new }
        ensures bound { local_of (program_of program.now) self.new
            ≡ bind (program_of program.now) (local_of (program_of program.now) self.old) results.now }
    {
        match statement_at(self.block(program.tree()), self.at) {
            Some(statement) => {
                give_results(&mut self.slots, self.base, names_taking(statement), results);
                self.at += 1;
                self.again = false;
            }
            None => {}
        }
    }

    /// The value of an operand of the action at which the context stands: the expressions of the
    /// action in order of the text, counted from 0.
    pub fn operand(&self, program: &Checked, which: u32) -> u32
        requires context { IsContext (program_of program.now) self.now }
        requires operand { IsSomeAnd (next_action (program_of program.now) (local_of (program_of program.now) self.now))
            (λ action. which < length action.operands) }
        ensures value { IfSome (next_action (program_of program.now) (local_of (program_of program.now) self.now)) (λ action.
            IfSome (slice_get action.operands which)
            (λ e. result ≡ value_of (local_of (program_of program.now) self.now).top.locals e)) }
    {
        match statement_at(self.block(program.tree()), self.at) {
            Some(statement) => match operand_in(statement, which as usize) {
                Some(e) => evaluate(self.own(), e),
                None => 0,
            },
            None => 0,
        }
    }
}

/// The expression of this number in an action, in order of the text, if there is one.
fn operand_in<'a>(statement: &'a Stmt, which: usize) -> Option<&'a Expr>
    ensures found { option_copied result ≡ slice_get (operands_by (out-Stmt statement.now)) which }
{
    match statement {
        Stmt::Call(_, call, _) => operand_of(call, which),
        Stmt::Let(..) | Stmt::Set(..) | Stmt::Apply(..) | Stmt::If(..) => None,
        Stmt::While(..) | Stmt::Ploop(..) | Stmt::Break(..) | Stmt::Return(..) | Stmt::Atomic(..) =>
            None,
    }
}

/// The names that take the results of an action.
fn names_taking<'a>(statement: &'a Stmt) -> Option<&'a List<At>>
    ensures names { names_if_some (option_copied result) ≡ taken_by (out-Stmt statement.now) }
{
    match statement {
        Stmt::Call(_, _, to) | Stmt::Atomic(_, to, _) => Some(to),
        Stmt::Let(..) | Stmt::Set(..) | Stmt::Apply(..) | Stmt::If(..) => None,
        Stmt::While(..) | Stmt::Ploop(..) | Stmt::Break(..) | Stmt::Return(..) => None,
    }
}

/// Gives locals of these names these values, one after another, among the slots from `base` on.
fn assign_all(slots: &mut ArrayVec<Local, LOCALS>, base: usize, names: &List<At>, values: &[u32])
    requires within { base ≤ length slots.old.items }
    ensures assigned { slots.new.items
        ≡ take base slots.old.items ++ with_values (drop base slots.old.items) (names_of names.now) values.now }
{
    for at in 0..names.len().min(values.len()) {
        assign(slots, base, names.get(at).name, values[at]);
    }
}

/// Gives locals of these names, if there are any, these values, among the slots from `base` on.
fn give_results(
    slots: &mut ArrayVec<Local, LOCALS>,
    base: usize,
    names: Option<&List<At>>,
    values: &[u32],
)
    requires within { base ≤ length slots.old.items }
    ensures given { slots.new.items ≡ take base slots.old.items
        ++ with_values (drop base slots.old.items) (names_if_some (option_copied names.entry)) values.now }
{
    match names {
        Some(names) => assign_all(slots, base, names, values),
        None => {}
    }
}
