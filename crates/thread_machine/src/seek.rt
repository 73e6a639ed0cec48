ghost use Rattle.std.specs.Prelude.{◌≡◌, ◌+◌, ◌^◌, ◌<◌, ℕ, None, [], false, length, IfSome, IsSomeAnd};
ghost use Rattle.std.specs.Option.{IfNone, option_to_list};
ghost use Rattle.thread_tree.specs.declared.block.Stmt.{out-Stmt};
ghost use Rattle.thread_tree.specs.Actions.{Spot, declared_by};
ghost use Rattle.thread_tree.specs.Program.{Program, program_of};
ghost use Rattle.thread_machine.specs.Context.{statement_of};
ghost use Rattle.thread_machine.specs.Loops.{loops_of};
ghost use Rattle.thread_machine.specs.Seeking.{IsAtLoop, IsInner, IsOnWay, IsOwn, sought};

use crate::context::{Ctx, Way};
use crate::loops::{loops_in, loops_of};
use crate::walk::statement_at;
use thread_tree::{BLOCKS, Stmt, Tree};

/// The name of the local that a statement declares, if it declares one.
fn declared(statement: &Stmt) -> Option<u32>
    ensures value { option_to_list result ≡ declared_by (out-Stmt statement.now) }
{
    match statement {
        Stmt::Let(at, _) => Some(at.name),
        Stmt::Set(..) | Stmt::Apply(..) | Stmt::If(..) | Stmt::While(..) | Stmt::Ploop(..) => None,
        Stmt::Break(..) | Stmt::Return(..) | Stmt::Atomic(..) | Stmt::Call(..) => None,
    }
}

/// The block of a statement that has the persistent loop of this number, and the loop's number in
/// it; none where the statement is itself the loop.
#[tactic(auto, using(crate::proofs::InnerLemmas::inner_laws))]
fn inner(statement: &Stmt, left: usize) -> Option<(Way, usize)>
    requires few { loops_of (out-Stmt statement.now) < 2 ^ 32 }
    requires inside { left < loops_of (out-Stmt statement.now) }
    ensures own { IfNone result (IsOwn statement.now left) }
    ensures inner { (p : Program) → IfSome result (λ r. IsInner p statement.now left r.0 r.1) }
{
    match statement {
        Stmt::While(..) => Some((Way::First, left)),
        Stmt::Ploop(..) => {
            if left == 0 {
                return None;
            }
            Some((Way::First, left - 1))
        }
        Stmt::If(_, block, _) => {
            let count = loops_in(block);
            if left < count {
                return Some((Way::First, left));
            }
            Some((Way::Else, left - count))
        }
        Stmt::Let(..) | Stmt::Set(..) | Stmt::Apply(..) | Stmt::Break(..) => None,
        Stmt::Return(..) | Stmt::Atomic(..) | Stmt::Call(..) => None,
    }
}

impl Ctx {
    /// Passes a statement by, of which a local stays in scope if it declares one.
    #[tactic(auto, using(crate::proofs::SkipLemmas::skip_laws))]
    fn skip(&mut self, tree: &Tree, statement: &Stmt)
        requires place { self.old.at < usize.MAX }
        requires here { statement_of (program_of tree.now) self.old ≡ Some statement.now }
        requires way { IsOnWay (program_of tree.now) self.old }
        ensures kept { self.new ≡ record self.old { slots = self.new.slots; at = self.old.at + 1; again = false } }
        ensures way { IsOnWay (program_of tree.now) self.new }
        ensures sought { (left : ℕ) → sought (program_of tree.now) self.new left
            ≡ sought (program_of tree.now) self.old (left + loops_of (out-Stmt statement.now)) }
    {
        match declared(statement) {
            Some(name) => self.declare(name, 0),
            None => self.pass(),
        }
    }

    /// Goes to the statement of the innermost block that has the persistent loop of this number, and
    /// gives the loop's number in it, if there is such a loop.
    #[tactic(auto, using(crate::proofs::InnerLemmas::approach_laws))]
    fn approach(&mut self, tree: &Tree, left: usize) -> Option<usize>
        requires way { IsOnWay (program_of tree.now) self.old }
        requires begin { self.old.at ≡ 0 }
        ensures way { IsOnWay (program_of tree.now) self.new }
        ensures cursors { self.new.cursors ≡ self.old.cursors }
        ensures none { IfNone result (sought (program_of tree.now) self.old left ≡ None) }
        ensures sought { IfSome result (λ n. sought (program_of tree.now) self.new n
            ≡ sought (program_of tree.now) self.old left) }
        ensures inside { IfSome result (λ n. IsSomeAnd (statement_of (program_of tree.now) self.new)
            (λ s. n < loops_of (out-Stmt s))) }
    {
        let mut left = left;
        let block = self.block(tree)?;
        for at in 0..block.stmts.len() {
            let statement = block.stmts.get(at);
            let count = loops_of(statement);
            if left < count {
                return Some(left);
            }
            left -= count;
            self.skip(tree, statement);
        }
        None
    }

    /// Enters the block of the statement at hand that has the persistent loop of this number, and
    /// gives the loop's number in it; none where the statement is itself the loop.
    #[tactic(auto, using(crate::proofs::InnerLemmas::narrow_laws))]
    fn narrow(&mut self, tree: &Tree, left: usize) -> Option<usize>
        requires way { IsOnWay (program_of tree.now) self.old }
        requires inside { IsSomeAnd (statement_of (program_of tree.now) self.old) (λ s. left < loops_of (out-Stmt s)) }
        ensures way { IsOnWay (program_of tree.now) self.new }
        ensures own { IfNone result (IsSomeAnd (statement_of (program_of tree.now) self.new) (λ s. IsOwn s left)) }
        ensures kept { IfNone result (self.new ≡ self.old) }
        ensures sought { IfSome result (λ n. sought (program_of tree.now) self.new n
            ≡ sought (program_of tree.now) self.old left) }
        ensures begin { IfSome result (λ n. self.new.at ≡ 0) }
        ensures deeper { IfSome result (λ n. length self.new.cursors.items ≡ length self.old.cursors.items + 1) }
    {
        let statement = statement_at(self.block(tree), self.at)?;
        let (way, number) = inner(statement, left)?;
        self.enter(way);
        Some(number)
    }

    /// Goes to the persistent loop of this number, counted over those of the body.
    #[tactic(auto, using(crate::proofs::InnerLemmas::seek_laws))]
    pub fn seek(&mut self, tree: &Tree, number: usize)
        requires way { IsOnWay (program_of tree.now) self.old }
        requires begin { self.old.at ≡ 0 }
        requires outside { self.old.cursors.items ≡ [] }
        ensures arrived { (spot : Spot) → sought (program_of tree.now) self.old number ≡ Some spot
            → IsAtLoop (program_of tree.now) spot self.new }
    {
        let mut left = number;
        for depth in 0..BLOCKS {
            match self.approach(tree, left) {
                None => return,
                Some(here) => match self.narrow(tree, here) {
                    None => return,
                    Some(inside) => left = inside,
                },
            }
        }
    }
}
