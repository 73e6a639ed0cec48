ghost use Rattle.std.specs.Prelude.{◌≡◌, map};
ghost use Rattle.thread_tree.specs.declared.transaction.TStmt.{out-TStmt};
ghost use Rattle.thread_check.specs.Blocks.{in_turn};
ghost use Rattle.thread_check.specs.Transactions.{own_local, tstatement_parts, tblock_rule, tstatement_rule};

use crate::blocks::allowed;
use crate::fault::{CheckFault, Kind};
use crate::names::Names;
use crate::scope::Scope;
use crate::sort::Sort;
use crate::uses::{same_count, within_limit};
use std::marker::Model;
use thread_tree::{At, BLOCKS, List, TBlock, TStmt};

/// An `atomic` block whose statements are checked.
#[derive(Drop)]
pub(crate) struct Transaction<'a> {
    names: &'a Names<'a>,
    outside: &'a Scope,
    given: usize,
}

impl<'a> Model for Transaction<'a> {
    ghost use Rattle.std.specs.Coded.{codes};
    ghost use Rattle.thread_tree.specs.contracts.tree.Decl as decl;
    ghost use Rattle.thread_check.specs.Transactions.{Transaction as Parts};

    ghost Value = { Parts };

    ghost coded = { Prim.hlevel (codes, decl.the_row.coded) };

    ghost view = { λ t. record { names = t.names.now; outside = t.outside.now.locals; given = t.given } };
}

impl<'a> Transaction<'a> {
    /// An `atomic` block that gives so many words, with this scope outside.
    pub(crate) fn of(names: &'a Names<'a>, outside: &'a Scope, given: usize) -> Transaction<'a>
        ensures { result ≡ record { names = names.now; outside = outside.now.locals; given = given } }
    {
        Transaction {
            names,
            outside,
            given,
        }
    }

    /// A local that the block assigns to.
    #[tactic(auto, unfolding(crate::specs::Transactions::own_local))]
    fn own_local(&self, scope: &Scope, at: At) -> Result<(), CheckFault>
        ensures { result ≡ own_local self.now scope.now at }
    {
        self.names.used(scope, Sort::Local, at)?;
        if self.outside.has(at.name) {
            Err(CheckFault::NotAllowedHere(at.place))
        } else {
            Ok(())
        }
    }

    /// A statement of the block.
    #[cycle(transaction)]
    fn statement(&self, stmt: &TStmt, scope: Scope) -> Result<Scope, CheckFault>
        ensures { result ≡ tstatement_parts self.now (out-TStmt stmt.now) scope }
    {
        match stmt {
            TStmt::Let(at, expr) => {
                self.names.new_local(&scope, *at)?;
                self.names.expression(&scope, expr)?;
                Ok(scope.with_local(at.name))
            }
            TStmt::LetNew(at, kind) => {
                self.names.new_local(&scope, *at)?;
                self.names.used(&scope, Sort::Kind, *kind)?;
                Ok(scope.with_local(at.name))
            }
            TStmt::Set(at, expr) => {
                self.own_local(&scope, *at)?;
                self.names.expression(&scope, expr)?;
                Ok(scope)
            }
            TStmt::SetNew(at, kind) => {
                self.own_local(&scope, *at)?;
                self.names.used(&scope, Sort::Kind, *kind)?;
                Ok(scope)
            }
            TStmt::Store(field, expr) => {
                self.names.field(&scope, *field)?;
                self.names.expression(&scope, expr)?;
                Ok(scope)
            }
            TStmt::Free(expr) => {
                self.names.expression(&scope, expr)?;
                Ok(scope)
            }
            TStmt::If(expr, then_block, else_block) => {
                self.names.expression(&scope, expr)?;
                let scope = self.block(then_block, scope)?;
                match else_block {
                    None => Ok(scope),
                    Some(block) => self.block(block, scope),
                }
            }
            TStmt::While(expr, body) => {
                self.names.expression(&scope, expr)?;
                let inner = self.block(body, scope.copy().looping())?;
                Ok(scope.closed(&inner))
            }
            TStmt::Break(place) => {
                allowed(*place, scope.in_loop())?;
                Ok(scope)
            }
            TStmt::Abort(_) => Ok(scope),
            TStmt::Give(place, exprs) => {
                same_count(*place, self.given, exprs.len())?;
                self.names.expressions(&scope, exprs)?;
                Ok(scope)
            }
        }
    }

    /// A block of the transaction.
    #[cycle(transaction)]
    #[tactic(auto, using(crate::proofs::TransactionLaws::tblock_rule_out))]
    pub(crate) fn block(&self, block: &TBlock, scope: Scope) -> Result<Scope, CheckFault>
        ensures { result ≡ tblock_rule self.now block.now scope }
    {
        within_limit(
            block.place,
            Kind::Nesting,
            BLOCKS as u32,
            scope.blocks() + 1,
        )?;
        let inner = self.statements(&block.stmts, scope.opened())?;
        Ok(scope.closed(&inner))
    }

    /// Statements one after another.
    #[tactic(auto, using(crate::proofs::Steps::drop_at, crate::proofs::TransactionLaws::tstatement_rule_out))]
    #[cycle(transaction)]
    fn statements(&self, stmts: &List<TStmt>, scope: Scope) -> Result<Scope, CheckFault>
        ensures { result ≡ in_turn (map (tstatement_rule self.now) stmts.now) scope }
    {
        let mut scope = scope;
        for i in 0..stmts.len() {
            match self.statement(stmts.get(i), scope) {
                Ok(next) => scope = next,
                Err(fault) => return Err(fault),
            }
        }
        Ok(scope)
    }
}
