ghost use Rattle.std.specs.Prelude.{◌≡◌, Option, List as Sequence};
ghost use Rattle.std.specs.List.{flat_map};
ghost use Rattle.thread_tree.specs.declared.block.Stmt.{out-Stmt};
ghost use Rattle.thread_print.specs.Canonical.{application, atomically, block as block_tokens, result_to, returned, statement, statement_parts, value_of};
ghost use Rattle.thread_print.specs.Wrote.{Wrote};

use crate::out::Out;
use crate::printer::Printer;
use thread_tree::{At, Block, Expr, List, Mark, Stmt, TBlock, Word};

impl<'a> Printer<'a> {
    /// The name that gets a call's result, where one does.
    #[tactic(auto, using(crate::proofs::Writer::wrote_none, crate::proofs::Writer::wrote_two))]
    fn result_to(&self, out: &mut Out, at: Option<At>)
        ensures { Wrote self.now out.old out.new (result_to at) }
    {
        match at {
            None => {}
            Some(at) => {
                self.name(out, at);
                self.mark(out, Mark::Equals);
            }
        }
    }

    /// An expression that may be left out.
    #[tactic(auto, using(crate::proofs::Writer::wrote_none))]
    fn value_of(&self, out: &mut Out, value: &Option<Expr>)
        ensures { Wrote self.now out.old out.new (value_of value.now) }
    {
        match value {
            None => {}
            Some(expr) => self.expression(out, expr),
        }
    }

    /// A function that is applied.
    #[tactic(auto, using(crate::proofs::Writer::wrote_two))]
    fn application(&self, out: &mut Out, at: Option<At>, function: At, exprs: &List<Expr>)
        ensures { Wrote self.now out.old out.new (application at function exprs.now) }
    {
        self.result_to(out, at);
        self.name(out, function);
        self.mark(out, Mark::OpenParenthesis);
        self.arguments(out, exprs);
        self.mark(out, Mark::Semicolon);
    }

    /// A `return`.
    #[tactic(auto, using(crate::proofs::Writer::wrote_two))]
    fn returned(&self, out: &mut Out, value: &Option<Expr>)
        ensures { Wrote self.now out.old out.new (returned value.now) }
    {
        self.word(out, Word::Return);
        self.value_of(out, value);
        self.mark(out, Mark::Semicolon);
    }

    /// An `atomic`.
    #[tactic(auto, using(crate::proofs::Writer::wrote_two))]
    fn atomic(&self, out: &mut Out, ats: &List<At>, body: &TBlock)
        ensures { Wrote self.now out.old out.new (atomically ats.now body.now) }
    {
        self.word(out, Word::Atomic);
        self.to(out, ats);
        self.tblock(out, body);
    }

    /// A statement.
    #[cycle(body)]
    #[tactic(auto, using(crate::proofs::Writer::wrote_two))]
    fn statement(&self, out: &mut Out, stmt: &Stmt)
        ensures { Wrote self.now out.old out.new (statement_parts (out-Stmt stmt.now)) }
    {
        match stmt {
            Stmt::Let(at, expr) => {
                self.word(out, Word::Let);
                self.set(out, *at, expr);
            }
            Stmt::Set(at, expr) => self.set(out, *at, expr),
            Stmt::Apply(at, function, exprs) => self.application(out, *at, *function, exprs),
            Stmt::If(expr, then_block, None) => {
                self.word(out, Word::If);
                self.expression(out, expr);
                self.block(out, then_block);
            }
            Stmt::If(expr, then_block, Some(else_block)) => {
                self.word(out, Word::If);
                self.expression(out, expr);
                self.block(out, then_block);
                self.word(out, Word::Else);
                self.block(out, else_block);
            }
            Stmt::While(expr, body) => {
                self.word(out, Word::While);
                self.expression(out, expr);
                self.block(out, body);
            }
            Stmt::Ploop(_, body) => {
                self.word(out, Word::Ploop);
                self.block(out, body);
            }
            Stmt::Break(_) => self.alone(out, Word::Break),
            Stmt::Return(_, value) => self.returned(out, value),
            Stmt::Atomic(_, ats, body) => self.atomic(out, ats, body),
            Stmt::Call(_, call, ats) => {
                self.call(out, call);
                self.results(out, ats);
            }
        }
    }

    /// A block.
    #[cycle(body)]
    #[tactic(auto, using(crate::proofs::Loops::wrote_block))]
    pub(crate) fn block(&self, out: &mut Out, block: &Block)
        ensures { Wrote self.now out.old out.new (block_tokens block.now) }
    {
        self.mark(out, Mark::OpenBrace);
        self.statements(out, &block.stmts);
        self.mark(out, Mark::CloseBrace);
    }

    /// Statements one after another.
    #[cycle(body)]
    #[tactic(auto, using(crate::proofs::Writer::wrote_none, crate::proofs::Loops::statements_step))]
    fn statements(&self, out: &mut Out, stmts: &List<Stmt>)
        ensures { Wrote self.now out.old out.new (flat_map statement stmts.now) }
    {
        for i in 0..stmts.len() {
            self.statement(out, stmts.get(i));
        }
    }
}
