ghost use Rattle.std.specs.Prelude.{◌≡◌, ◌+◌, ◌≤◌, length, map, OnOk};
ghost use Rattle.thread_tree.specs.declared.block.Stmt.{out-Stmt};
ghost use Rattle.thread_check.specs.Names.{peak_of};
ghost use Rattle.thread_check.specs.Scope.{room_for_call};
ghost use Rattle.thread_check.specs.Blocks.{in_turn};
ghost use Rattle.thread_check.specs.Statements.{taker, callee_rule, atomic_rule, statement_parts, block_rule, statement_rule};

use crate::blocks::allowed;
use crate::fault::{CheckFault, Kind};
use crate::names::Names;
use crate::peak::Peak;
use crate::scope::Scope;
use crate::sort::Sort;
use crate::transactions::Transaction;
use crate::uses::{same_count, within_limit};
use thread_tree::{
    At, BLOCKS, Block, LOCALS, LOOPS, List, Place, START_VALUES, Stmt, TBlock, kind_of_call,
    result_count,
};

impl Scope {
    /// Room for a call of a function with this peak.
    fn room_for_call(&self, place: Place, callee: Peak) -> Result<(), CheckFault>
        ensures verdict { result ≡ room_for_call place callee self.now }
        ensures locals { OnOk result (length self.now.locals + callee.locals ≤ LOCALS) }
        ensures blocks { OnOk result (self.now.blocks + callee.blocks ≤ BLOCKS) }
    {
        let locals = self.locals() + callee.locals as u32;
        let blocks = self.blocks() + callee.blocks as u32;
        within_limit(place, Kind::Locals, LOCALS as u32, locals)?;
        within_limit(place, Kind::Nesting, BLOCKS as u32, blocks)
    }
}

impl<'a> Names<'a> {
    /// A local that takes a result, if there is one.
    #[tactic(auto, unfolding(crate::specs::Statements::taker))]
    fn taker(&self, scope: &Scope, to: &Option<At>) -> Result<(), CheckFault>
        ensures { result ≡ taker self.now scope.now to.now }
    {
        match to {
            None => Ok(()),
            Some(at) => self.used(scope, Sort::Local, *at),
        }
    }

    /// A callee with so many arguments.
    #[tactic(auto, unfolding(crate::specs::Statements::callee_rule))]
    fn callee(&self, scope: &Scope, callee: At, count: usize) -> Result<(), CheckFault>
        ensures verdict { result ≡ callee_rule self.now scope.now callee count }
        ensures locals { OnOk result (length scope.now.locals + (peak_of self.now callee.name).locals ≤ LOCALS) }
        ensures blocks { OnOk result (scope.now.blocks + (peak_of self.now callee.name).blocks ≤ BLOCKS) }
    {
        self.used(scope, Sort::Function, callee)?;
        same_count(callee.place, self.arity(callee.name), count)?;
        scope.room_for_call(callee.place, self.peak(callee.name))
    }

    /// An `atomic` block with the names that take its results.
    #[tactic(auto, unfolding(crate::specs::Statements::atomic_rule))]
    fn atomic(&self, to: &List<At>, body: &TBlock, scope: Scope) -> Result<Scope, CheckFault>
        ensures { result ≡ atomic_rule self.now to.now body.now scope }
    {
        self.takers(&scope, to.len() <= 4, to)?;
        let transaction = Transaction::of(self, &scope, to.len().saturating_sub(1));
        let inner = transaction.block(body, scope.out_of_loops())?;
        Ok(scope.with_peak(inner.peak()))
    }

    /// A statement of a body.
    #[cycle(body)]
    fn statement(&self, stmt: &Stmt, scope: Scope) -> Result<Scope, CheckFault>
        ensures { result ≡ statement_parts self.now (out-Stmt stmt.now) scope }
    {
        match stmt {
            Stmt::Let(at, expr) => {
                self.new_local(&scope, *at)?;
                self.expression(&scope, expr)?;
                Ok(scope.with_local(at.name))
            }
            Stmt::Set(at, expr) => {
                self.used(&scope, Sort::Local, *at)?;
                self.expression(&scope, expr)?;
                Ok(scope)
            }
            Stmt::Apply(to, callee, arguments) => {
                self.taker(&scope, to)?;
                self.callee(&scope, *callee, arguments.len())?;
                self.expressions(&scope, arguments)?;
                Ok(scope.after_call(self.peak(callee.name)))
            }
            Stmt::If(expr, then_block, else_block) => {
                self.expression(&scope, expr)?;
                let scope = self.block(then_block, scope)?;
                match else_block {
                    None => Ok(scope),
                    Some(block) => self.block(block, scope),
                }
            }
            Stmt::While(expr, body) => {
                self.expression(&scope, expr)?;
                let inner = self.block(body, scope.copy().looping())?;
                Ok(scope.closed(&inner))
            }
            Stmt::Ploop(place, body) => {
                allowed(*place, !self.in_function())?;
                within_limit(*place, Kind::Loops, LOOPS, scope.loops() + 1)?;
                within_limit(*place, Kind::Scope, START_VALUES as u32, scope.locals())?;
                let inner = self.block(body, scope.copy().in_ploop())?;
                Ok(scope.closed(&inner))
            }
            Stmt::Break(place) => {
                allowed(*place, scope.in_loop())?;
                Ok(scope)
            }
            Stmt::Return(place, value) => match value {
                None => Ok(scope),
                Some(expr) => {
                    allowed(*place, self.in_function())?;
                    self.expression(&scope, expr)?;
                    Ok(scope)
                }
            },
            Stmt::Atomic(_, to, body) => self.atomic(to, body, scope),
            Stmt::Call(_, call, to) => {
                self.call(&scope, call)?;
                self.takers(
                    &scope,
                    to.len() == result_count(kind_of_call(call), 0) as usize,
                    to,
                )?;
                Ok(scope)
            }
        }
    }

    /// A block of a body.
    #[cycle(body)]
    #[tactic(auto, using(crate::proofs::StatementLaws::block_rule_out))]
    pub(crate) fn block(&self, block: &Block, scope: Scope) -> Result<Scope, CheckFault>
        ensures { result ≡ block_rule self.now block.now scope }
    {
        within_limit(
            block.place,
            Kind::Nesting,
            BLOCKS as u32,
            scope.blocks() + 1,
        )?;
        let inner = self.statements(&block.stmts, scope.opened())?;
        Ok(scope.closed(&inner))
    }

    /// Statements one after another.
    #[tactic(auto, using(crate::proofs::Steps::drop_at, crate::proofs::StatementLaws::statement_rule_out))]
    #[cycle(body)]
    fn statements(&self, stmts: &List<Stmt>, scope: Scope) -> Result<Scope, CheckFault>
        ensures { result ≡ in_turn (map (statement_rule self.now) stmts.now) scope }
    {
        let mut scope = scope;
        for i in 0..stmts.len() {
            match self.statement(stmts.get(i), scope) {
                Ok(next) => scope = next,
                Err(fault) => return Err(fault),
            }
        }
        Ok(scope)
    }
}
