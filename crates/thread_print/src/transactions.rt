ghost use Rattle.std.specs.Prelude.{◌≡◌, Option, List as Sequence};
ghost use Rattle.std.specs.List.{flat_map};
ghost use Rattle.thread_tree.specs.declared.transaction.TStmt.{out-TStmt};
ghost use Rattle.thread_print.specs.Canonical.{alone, assigned, assigned_new, freed, stored, tblock, tstatement, tstatement_parts};
ghost use Rattle.thread_print.specs.Wrote.{Wrote};

use crate::out::Out;
use crate::printer::Printer;
use thread_tree::{At, Expr, FieldOf, List, Mark, TBlock, TStmt, Word};

impl<'a> Printer<'a> {
    /// A name that gets the value of an expression.
    #[tactic(auto, using(crate::proofs::Writer::wrote_two))]
    pub(crate) fn set(&self, out: &mut Out, at: At, expr: &Expr)
        ensures { Wrote self.now out.old out.new (assigned at expr.now) }
    {
        self.name(out, at);
        self.mark(out, Mark::Equals);
        self.expression(out, expr);
        self.mark(out, Mark::Semicolon);
    }

    /// A name that gets a new object.
    #[tactic(auto, using(crate::proofs::Writer::wrote_two))]
    fn set_new(&self, out: &mut Out, at: At, kind: At)
        ensures { Wrote self.now out.old out.new (assigned_new at kind) }
    {
        self.name(out, at);
        self.mark(out, Mark::Equals);
        self.word(out, Word::New);
        self.name(out, kind);
        self.mark(out, Mark::Semicolon);
    }

    /// A word that is a statement of its own.
    #[tactic(auto, using(crate::proofs::Writer::wrote_two))]
    pub(crate) fn alone(&self, out: &mut Out, word: Word)
        ensures { Wrote self.now out.old out.new (alone word) }
    {
        self.word(out, word);
        self.mark(out, Mark::Semicolon);
    }

    /// A field that gets the value of an expression.
    #[tactic(auto, using(crate::proofs::Writer::wrote_two))]
    fn store(&self, out: &mut Out, field: FieldOf, expr: &Expr)
        ensures { Wrote self.now out.old out.new (stored field expr.now) }
    {
        self.field(out, field);
        self.mark(out, Mark::Equals);
        self.expression(out, expr);
        self.mark(out, Mark::Semicolon);
    }

    /// An object that is freed.
    #[tactic(auto, using(crate::proofs::Writer::wrote_two))]
    fn free(&self, out: &mut Out, expr: &Expr)
        ensures { Wrote self.now out.old out.new (freed expr.now) }
    {
        self.word(out, Word::Free);
        self.expression(out, expr);
        self.mark(out, Mark::Semicolon);
    }

    /// A statement of an `atomic` block.
    #[cycle(transaction)]
    #[tactic(auto, using(crate::proofs::Writer::wrote_two))]
    fn tstatement(&self, out: &mut Out, stmt: &TStmt)
        ensures { Wrote self.now out.old out.new (tstatement_parts (out-TStmt stmt.now)) }
    {
        match stmt {
            TStmt::Let(at, expr) => {
                self.word(out, Word::Let);
                self.set(out, *at, expr);
            }
            TStmt::LetNew(at, kind) => {
                self.word(out, Word::Let);
                self.set_new(out, *at, *kind);
            }
            TStmt::Set(at, expr) => self.set(out, *at, expr),
            TStmt::SetNew(at, kind) => self.set_new(out, *at, *kind),
            TStmt::Store(field, expr) => self.store(out, *field, expr),
            TStmt::Free(expr) => self.free(out, expr),
            TStmt::If(expr, then_block, None) => {
                self.word(out, Word::If);
                self.expression(out, expr);
                self.tblock(out, then_block);
            }
            TStmt::If(expr, then_block, Some(else_block)) => {
                self.word(out, Word::If);
                self.expression(out, expr);
                self.tblock(out, then_block);
                self.word(out, Word::Else);
                self.tblock(out, else_block);
            }
            TStmt::While(expr, body) => {
                self.word(out, Word::While);
                self.expression(out, expr);
                self.tblock(out, body);
            }
            TStmt::Break(_) => self.alone(out, Word::Break),
            TStmt::Abort(_) => self.alone(out, Word::Abort),
            TStmt::Give(_, exprs) => {
                self.word(out, Word::Give);
                self.values(out, exprs);
            }
        }
    }

    /// An `atomic` block.
    #[cycle(transaction)]
    #[tactic(auto, using(crate::proofs::Loops::wrote_tblock))]
    pub(crate) fn tblock(&self, out: &mut Out, block: &TBlock)
        ensures { Wrote self.now out.old out.new (tblock block.now) }
    {
        self.mark(out, Mark::OpenBrace);
        self.tstatements(out, &block.stmts);
        self.mark(out, Mark::CloseBrace);
    }

    /// Such statements one after another.
    #[cycle(transaction)]
    #[tactic(auto, using(crate::proofs::Writer::wrote_none, crate::proofs::Loops::tstatements_step))]
    fn tstatements(&self, out: &mut Out, stmts: &List<TStmt>)
        ensures { Wrote self.now out.old out.new (flat_map tstatement stmts.now) }
    {
        for i in 0..stmts.len() {
            self.tstatement(out, stmts.get(i));
        }
    }
}
