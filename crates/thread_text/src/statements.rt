ghost use Rattle.std.specs.Prelude.{◌≡◌, ◌≤◌, ◌<◌, ◌+◌, List, ◌∷◌, Bool, true, false, Some, None, IfOk, MatchOption, length};
ghost use Rattle.thread_tree.specs.Spelling.{TakesMark, SpellsName};
ghost use Rattle.thread_tree.specs.SpellingOfBlocks.{SpellsBlock, SpellsStmt, SpellsGiven, SpellsOther};
ghost use Rattle.thread_tree.specs.declared.token.Placed.{Placed};
ghost use Rattle.thread_tree.specs.Parts.{Part, TheMark, ABlock, Statements, Otherwise, AfterName, Assigned, Returned, AtomicTo, ATBlock};
ghost use Rattle.thread_tree.specs.declared.token.Mark.TheVariants.{CloseBrace, Semicolon, Equals};
ghost use Rattle.thread_tree.specs.declared.token.Word.TheVariants as word;
ghost use Rattle.thread_text.specs.Fate.{ahead, Follows, next_of, sees};
ghost use Rattle.thread_text.specs.Kinds.{word_in};

use crate::Halt;
use crate::cursor::Cursor;
use crate::memory::add;
use std::alloc::Global;
use thread_tree::{At, Block, List, Mark, Stmt, TBlock, Word, shape};

impl<'a> Cursor<'a> {
    /// Reads a block.
    #[cycle(statements)]
    pub fn block(&mut self, alloc: Global) -> Result<Block, Halt>
        ensures fate { (parts : List Part) → Follows result (ahead (ABlock ∷ parts) self.old) (ahead (parts) self.new) self.new }
        ensures tree { IfOk result (λ tree. SpellsBlock self.old.left self.new.left tree) }
        ensures shorter { IfOk result (λ _. length self.new.left < length self.old.left) }
    {
        let place = self.open_block()?;
        let mut stmts = Vec::new(alloc);
        'stmts: while !self.sees(Mark::CloseBrace) {
            let stmt = self.statement(alloc)?;
            add(&mut stmts, stmt)?;
        }
        self.close_block();
        Ok(Block {
            place,
            stmts: List::of(stmts),
        })
    }

    /// Reads a statement.
    #[cycle(statements)]
    #[tactic(auto, using(crate::proofs::BlockRows::statement_stuck))]
    fn statement(&mut self, alloc: Global) -> Result<Stmt, Halt>
        requires more { sees CloseBrace self.old ≡ false }
        ensures fate { (parts : List Part) → Follows result (ahead (Statements ∷ parts) self.old) (ahead (Statements ∷ parts) self.new) self.new }
        ensures tree { IfOk result (λ tree. SpellsStmt self.old.left self.new.left tree) }
        ensures shorter { IfOk result (λ _. length self.new.left < length self.old.left) }
    {
        let Some(word) = self.word() else {
            return self.named_statement(alloc);
        };
        if let Some(slots) = shape(word) {
            return self.call_statement(alloc, word, slots);
        }
        match word {
            Word::Let => self.let_statement(alloc),
            Word::If => self.if_statement(alloc),
            Word::While => self.while_statement(alloc),
            Word::Ploop => self.ploop_statement(alloc),
            Word::Break => self.break_statement(),
            Word::Return => self.return_statement(alloc),
            Word::Atomic => self.atomic_statement(alloc),
            _ => Err(Halt::Stuck),
        }
    }

    /// Reads a statement that begins with `if`.
    #[cycle(statements)]
    #[tactic(auto, using(crate::proofs::StatementRows::states_if, crate::proofs::Steps::read_some))]
    fn if_statement(&mut self, alloc: Global) -> Result<Stmt, Halt>
        requires word { next_of word_in self.old ≡ Some word.If }
        ensures fate { (parts : List Part) → Follows result (ahead (Statements ∷ parts) self.old) (ahead (Statements ∷ parts) self.new) self.new }
        ensures tree { IfOk result (λ tree. SpellsStmt self.old.left self.new.left tree) }
        ensures shorter { IfOk result (λ _. length self.new.left < length self.old.left) }
    {
        self.skip_word();
        let test = self.expression(alloc, false)?;
        let block = self.block(alloc)?;
        let other = self.otherwise(alloc)?;
        Ok(Stmt::If(test, block, other))
    }

    /// Reads what stands behind the block of an `if`.
    #[cycle(statements)]
    #[tactic(auto, using(crate::proofs::StatementRows::else_some, crate::proofs::StatementRows::else_none))]
    fn otherwise(&mut self, alloc: Global) -> Result<Option<Block>, Halt>
        ensures fate { (parts : List Part) → Follows result (ahead (Otherwise ∷ parts) self.old) (ahead (Statements ∷ parts) self.new) self.new }
        ensures tree { IfOk result (λ other. MatchOption other (self.new.left ≡ self.old.left) (λ block. SpellsOther self.old.left self.new.left block)) }
        ensures no_longer { IfOk result (λ _. length self.new.left ≤ length self.old.left) }
    {
        if !self.eat_word(Word::Else) {
            return Ok(None);
        }
        let block = self.block(alloc)?;
        Ok(Some(block))
    }

    /// Reads a statement that begins with `while`.
    #[cycle(statements)]
    #[tactic(auto, using(crate::proofs::StatementRows::states_while, crate::proofs::Steps::read_some))]
    fn while_statement(&mut self, alloc: Global) -> Result<Stmt, Halt>
        requires word { next_of word_in self.old ≡ Some word.While }
        ensures fate { (parts : List Part) → Follows result (ahead (Statements ∷ parts) self.old) (ahead (Statements ∷ parts) self.new) self.new }
        ensures tree { IfOk result (λ tree. SpellsStmt self.old.left self.new.left tree) }
        ensures shorter { IfOk result (λ _. length self.new.left < length self.old.left) }
    {
        self.skip_word();
        let test = self.expression(alloc, false)?;
        let block = self.block(alloc)?;
        Ok(Stmt::While(test, block))
    }

    /// Reads a statement that begins with `ploop`.
    #[cycle(statements)]
    #[tactic(auto, using(crate::proofs::StatementRows::states_ploop, crate::proofs::Steps::read_some))]
    fn ploop_statement(&mut self, alloc: Global) -> Result<Stmt, Halt>
        requires word { next_of word_in self.old ≡ Some word.Ploop }
        ensures fate { (parts : List Part) → Follows result (ahead (Statements ∷ parts) self.old) (ahead (Statements ∷ parts) self.new) self.new }
        ensures tree { IfOk result (λ tree. SpellsStmt self.old.left self.new.left tree) }
        ensures shorter { IfOk result (λ _. length self.new.left < length self.old.left) }
    {
        let place = self.skip_word();
        let block = self.block(alloc)?;
        Ok(Stmt::Ploop(place, block))
    }

    /// Reads a statement that begins with `let`.
    #[tactic(auto, using(crate::proofs::StatementRows::states_let, crate::proofs::Steps::read_some))]
    fn let_statement(&mut self, alloc: Global) -> Result<Stmt, Halt>
        requires word { next_of word_in self.old ≡ Some word.Let }
        ensures fate { (parts : List Part) → Follows result (ahead (Statements ∷ parts) self.old) (ahead (Statements ∷ parts) self.new) self.new }
        ensures tree { IfOk result (λ tree. SpellsStmt self.old.left self.new.left tree) }
        ensures shorter { IfOk result (λ _. length self.new.left < length self.old.left) }
    {
        self.skip_word();
        let name = self.name()?;
        self.expect(Mark::Equals)?;
        let value = self.expression(alloc, false)?;
        self.expect(Mark::Semicolon)?;
        Ok(Stmt::Let(name, value))
    }

    /// Reads a statement that begins with `break`.
    #[tactic(auto, using(crate::proofs::StatementRows::states_break, crate::proofs::Steps::read_some))]
    fn break_statement(&mut self) -> Result<Stmt, Halt>
        requires word { next_of word_in self.old ≡ Some word.Break }
        ensures fate { (parts : List Part) → Follows result (ahead (Statements ∷ parts) self.old) (ahead (Statements ∷ parts) self.new) self.new }
        ensures tree { IfOk result (λ tree. SpellsStmt self.old.left self.new.left tree) }
        ensures shorter { IfOk result (λ _. length self.new.left < length self.old.left) }
    {
        let place = self.skip_word();
        self.expect(Mark::Semicolon)?;
        Ok(Stmt::Break(place))
    }

    /// Reads a statement that begins with `return`.
    #[tactic(auto, using(crate::proofs::StatementRows::states_return, crate::proofs::Steps::read_some, crate::proofs::StatementRows::returns_none, crate::proofs::StatementRows::returns_some))]
    fn return_statement(&mut self, alloc: Global) -> Result<Stmt, Halt>
        requires word { next_of word_in self.old ≡ Some word.Return }
        ensures fate { (parts : List Part) → Follows result (ahead (Statements ∷ parts) self.old) (ahead (Statements ∷ parts) self.new) self.new }
        ensures tree { IfOk result (λ tree. SpellsStmt self.old.left self.new.left tree) }
        ensures shorter { IfOk result (λ _. length self.new.left < length self.old.left) }
    {
        let place = self.skip_word();
        if self.eat(Mark::Semicolon) {
            return Ok(Stmt::Return(place, None));
        }
        let value = self.expression(alloc, false)?;
        self.expect(Mark::Semicolon)?;
        Ok(Stmt::Return(place, Some(value)))
    }

    /// Reads a statement that begins with `atomic`.
    #[tactic(auto, using(crate::proofs::StatementRows::states_atomic, crate::proofs::Steps::read_some))]
    fn atomic_statement(&mut self, alloc: Global) -> Result<Stmt, Halt>
        requires word { next_of word_in self.old ≡ Some word.Atomic }
        ensures fate { (parts : List Part) → Follows result (ahead (Statements ∷ parts) self.old) (ahead (Statements ∷ parts) self.new) self.new }
        ensures tree { IfOk result (λ tree. SpellsStmt self.old.left self.new.left tree) }
        ensures shorter { IfOk result (λ _. length self.new.left < length self.old.left) }
    {
        let place = self.skip_word();
        let names = self.atomic_names(alloc)?;
        let block = self.tblock(alloc)?;
        Ok(Stmt::Atomic(place, names, block))
    }

    /// Reads the names that get what an `atomic` gives.
    #[tactic(auto, using(crate::proofs::StatementRows::atomic_some, crate::proofs::StatementRows::atomic_none))]
    fn atomic_names(&mut self, alloc: Global) -> Result<List<At>, Halt>
        ensures fate { (parts : List Part) → Follows result (ahead (AtomicTo ∷ parts) self.old) (ahead (ATBlock ∷ parts) self.new) self.new }
        ensures tree { IfOk result (λ tree. SpellsGiven self.old.left self.new.left tree) }
        ensures no_longer { IfOk result (λ _. length self.new.left ≤ length self.old.left) }
    {
        if !self.eat(Mark::Arrow) {
            return Ok(List::of(Vec::new(alloc)));
        }
        let names = self.names(alloc)?;
        Ok(names)
    }

    /// Reads a statement that begins with a name.
    #[tactic(auto, using(crate::proofs::StatementRows::begins_named, crate::proofs::StatementRows::calls, crate::proofs::StatementRows::assigns))]
    fn named_statement(&mut self, alloc: Global) -> Result<Stmt, Halt>
        requires more { sees CloseBrace self.old ≡ false }
        requires no_word { next_of word_in self.old ≡ None }
        ensures fate { (parts : List Part) → Follows result (ahead (Statements ∷ parts) self.old) (ahead (Statements ∷ parts) self.new) self.new }
        ensures tree { IfOk result (λ tree. SpellsStmt self.old.left self.new.left tree) }
        ensures shorter { IfOk result (λ _. length self.new.left < length self.old.left) }
    {
        let name = self.name()?;
        if !self.eat(Mark::OpenParenthesis) {
            self.expect(Mark::Equals)?;
            let statement = self.assigned(alloc, name)?;
            return Ok(statement);
        }
        let arguments = self.arguments(alloc)?;
        self.expect(Mark::Semicolon)?;
        Ok(Stmt::Apply(None, name, arguments))
    }

    /// Reads what is assigned to a local: a value, or the result of a function.
    #[tactic(auto, using(crate::proofs::StatementRows::assigned_call, crate::proofs::StatementRows::assigned_value))]
    fn assigned(&mut self, alloc: Global, name: At) -> Result<Stmt, Halt>
        ensures fate { (parts : List Part) → Follows result (ahead (Assigned ∷ parts) self.old) (ahead (parts) self.new) self.new }
        ensures tree { (before middle : List Placed) → SpellsName before middle name → TakesMark Equals middle self.old.left → IfOk result (λ tree. SpellsStmt before self.new.left tree) }
        ensures shorter { IfOk result (λ _. length self.new.left < length self.old.left) }
    {
        if !self.sees_call() {
            let value = self.expression(alloc, false)?;
            self.expect(Mark::Semicolon)?;
            return Ok(Stmt::Set(name, value));
        }
        self.begin();
        let function = self.name()?;
        self.expect(Mark::OpenParenthesis)?;
        let arguments = self.arguments(alloc)?;
        self.expect(Mark::Semicolon)?;
        Ok(Stmt::Apply(Some(name), function, arguments))
    }
}
