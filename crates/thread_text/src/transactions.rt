ghost use Rattle.std.specs.Prelude.{◌≡◌, ◌≤◌, ◌<◌, ◌+◌, List, ◌∷◌, Bool, true, false, Some, None, IfOk, MatchOption, length};
ghost use Rattle.thread_tree.specs.Spelling.{TakesMark, SpellsName};
ghost use Rattle.thread_tree.specs.SpellingOfTransactions.{SpellsTBlock, SpellsTStmt, SpellsTOther, SpellsStored};
ghost use Rattle.thread_tree.specs.declared.token.Placed.{Placed};
ghost use Rattle.thread_tree.specs.Parts.{Part, ATBlock, TStatements, TOtherwise, AfterTName, TAssigned, MoreField, TheMark, Expression};
ghost use Rattle.thread_tree.specs.declared.token.Mark.TheVariants.{CloseBrace, Equals, Semicolon, Dot};
ghost use Rattle.thread_tree.specs.declared.token.Word.TheVariants as word;
ghost use Rattle.thread_text.specs.Fate.{ahead, Follows, next_of, sees};
ghost use Rattle.thread_text.specs.Kinds.{word_in};

use crate::Halt;
use crate::cursor::Cursor;
use crate::memory::add;
use std::alloc::Global;
use thread_tree::{At, Expr, FieldOf, List, Mark, TBlock, TStmt, Word};

impl<'a> Cursor<'a> {
    /// Reads the block of a transaction.
    #[cycle(transactions)]
    pub fn tblock(&mut self, alloc: Global) -> Result<TBlock, Halt>
        ensures fate { (parts : List Part) → Follows result (ahead (ATBlock ∷ parts) self.old) (ahead (parts) self.new) self.new }
        ensures tree { IfOk result (λ tree. SpellsTBlock self.old.left self.new.left tree) }
        ensures shorter { IfOk result (λ _. length self.new.left < length self.old.left) }
    {
        let place = self.open_block()?;
        let mut stmts = Vec::new(alloc);
        'stmts: while !self.sees(Mark::CloseBrace) {
            let stmt = self.tstatement(alloc)?;
            add(&mut stmts, stmt)?;
        }
        self.close_block();
        Ok(TBlock {
            place,
            stmts: List::of(stmts),
        })
    }

    /// Reads a statement of a transaction.
    #[cycle(transactions)]
    #[tactic(auto, using(crate::proofs::BlockRows::tstatement_stuck))]
    fn tstatement(&mut self, alloc: Global) -> Result<TStmt, Halt>
        requires more { sees CloseBrace self.old ≡ false }
        ensures fate { (parts : List Part) → Follows result (ahead (TStatements ∷ parts) self.old) (ahead (TStatements ∷ parts) self.new) self.new }
        ensures tree { IfOk result (λ tree. SpellsTStmt self.old.left self.new.left tree) }
        ensures shorter { IfOk result (λ _. length self.new.left < length self.old.left) }
    {
        let Some(word) = self.word() else {
            return self.named_tstatement(alloc);
        };
        match word {
            Word::Let => self.let_tstatement(alloc),
            Word::Free => self.free_tstatement(alloc),
            Word::If => self.if_tstatement(alloc),
            Word::While => self.while_tstatement(alloc),
            Word::Break => self.break_tstatement(),
            Word::Abort => self.abort_tstatement(),
            Word::Give => self.give_tstatement(alloc),
            _ => Err(Halt::Stuck),
        }
    }

    /// Reads a statement of a transaction that begins with `if`.
    #[cycle(transactions)]
    #[tactic(auto, using(crate::proofs::TransactionRows::transacts_if, crate::proofs::Steps::read_some))]
    fn if_tstatement(&mut self, alloc: Global) -> Result<TStmt, Halt>
        requires word { next_of word_in self.old ≡ Some word.If }
        ensures fate { (parts : List Part) → Follows result (ahead (TStatements ∷ parts) self.old) (ahead (TStatements ∷ parts) self.new) self.new }
        ensures tree { IfOk result (λ tree. SpellsTStmt self.old.left self.new.left tree) }
        ensures shorter { IfOk result (λ _. length self.new.left < length self.old.left) }
    {
        self.skip_word();
        let test = self.expression(alloc, true)?;
        let block = self.tblock(alloc)?;
        let other = self.totherwise(alloc)?;
        Ok(TStmt::If(test, block, other))
    }

    /// Reads what stands behind the block of an `if`.
    #[cycle(transactions)]
    #[tactic(auto, using(crate::proofs::TransactionRows::telse_some, crate::proofs::TransactionRows::telse_none))]
    fn totherwise(&mut self, alloc: Global) -> Result<Option<TBlock>, Halt>
        ensures fate { (parts : List Part) → Follows result (ahead (TOtherwise ∷ parts) self.old) (ahead (TStatements ∷ parts) self.new) self.new }
        ensures tree { IfOk result (λ other. MatchOption other (self.new.left ≡ self.old.left) (λ block. SpellsTOther self.old.left self.new.left block)) }
        ensures no_longer { IfOk result (λ _. length self.new.left ≤ length self.old.left) }
    {
        if !self.eat_word(Word::Else) {
            return Ok(None);
        }
        let block = self.tblock(alloc)?;
        Ok(Some(block))
    }

    /// Reads a statement of a transaction that begins with `while`.
    #[cycle(transactions)]
    #[tactic(auto, using(crate::proofs::TransactionRows::transacts_while, crate::proofs::Steps::read_some))]
    fn while_tstatement(&mut self, alloc: Global) -> Result<TStmt, Halt>
        requires word { next_of word_in self.old ≡ Some word.While }
        ensures fate { (parts : List Part) → Follows result (ahead (TStatements ∷ parts) self.old) (ahead (TStatements ∷ parts) self.new) self.new }
        ensures tree { IfOk result (λ tree. SpellsTStmt self.old.left self.new.left tree) }
        ensures shorter { IfOk result (λ _. length self.new.left < length self.old.left) }
    {
        self.skip_word();
        let test = self.expression(alloc, true)?;
        let block = self.tblock(alloc)?;
        Ok(TStmt::While(test, block))
    }

    /// Reads a statement of a transaction that begins with `let`.
    #[tactic(auto, using(crate::proofs::TransactionRows::transacts_let, crate::proofs::Steps::read_some, crate::proofs::TransactionRows::makes, crate::proofs::TransactionRows::values))]
    fn let_tstatement(&mut self, alloc: Global) -> Result<TStmt, Halt>
        requires word { next_of word_in self.old ≡ Some word.Let }
        ensures fate { (parts : List Part) → Follows result (ahead (TStatements ∷ parts) self.old) (ahead (TStatements ∷ parts) self.new) self.new }
        ensures tree { IfOk result (λ tree. SpellsTStmt self.old.left self.new.left tree) }
        ensures shorter { IfOk result (λ _. length self.new.left < length self.old.left) }
    {
        self.skip_word();
        let name = self.name()?;
        self.expect(Mark::Equals)?;
        if self.eat_word(Word::New) {
            let kind = self.name()?;
            self.expect(Mark::Semicolon)?;
            return Ok(TStmt::LetNew(name, kind));
        }
        let value = self.expression(alloc, true)?;
        self.expect(Mark::Semicolon)?;
        Ok(TStmt::Let(name, value))
    }

    /// Reads a statement of a transaction that begins with `free`.
    #[tactic(auto, using(crate::proofs::TransactionRows::transacts_free, crate::proofs::Steps::read_some))]
    fn free_tstatement(&mut self, alloc: Global) -> Result<TStmt, Halt>
        requires word { next_of word_in self.old ≡ Some word.Free }
        ensures fate { (parts : List Part) → Follows result (ahead (TStatements ∷ parts) self.old) (ahead (TStatements ∷ parts) self.new) self.new }
        ensures tree { IfOk result (λ tree. SpellsTStmt self.old.left self.new.left tree) }
        ensures shorter { IfOk result (λ _. length self.new.left < length self.old.left) }
    {
        self.skip_word();
        let object = self.expression(alloc, true)?;
        self.expect(Mark::Semicolon)?;
        Ok(TStmt::Free(object))
    }

    /// Reads a statement of a transaction that begins with `break`.
    #[tactic(auto, using(crate::proofs::TransactionRows::transacts_break, crate::proofs::Steps::read_some))]
    fn break_tstatement(&mut self) -> Result<TStmt, Halt>
        requires word { next_of word_in self.old ≡ Some word.Break }
        ensures fate { (parts : List Part) → Follows result (ahead (TStatements ∷ parts) self.old) (ahead (TStatements ∷ parts) self.new) self.new }
        ensures tree { IfOk result (λ tree. SpellsTStmt self.old.left self.new.left tree) }
        ensures shorter { IfOk result (λ _. length self.new.left < length self.old.left) }
    {
        let place = self.skip_word();
        self.expect(Mark::Semicolon)?;
        Ok(TStmt::Break(place))
    }

    /// Reads a statement of a transaction that begins with `abort`.
    #[tactic(auto, using(crate::proofs::TransactionRows::transacts_abort, crate::proofs::Steps::read_some))]
    fn abort_tstatement(&mut self) -> Result<TStmt, Halt>
        requires word { next_of word_in self.old ≡ Some word.Abort }
        ensures fate { (parts : List Part) → Follows result (ahead (TStatements ∷ parts) self.old) (ahead (TStatements ∷ parts) self.new) self.new }
        ensures tree { IfOk result (λ tree. SpellsTStmt self.old.left self.new.left tree) }
        ensures shorter { IfOk result (λ _. length self.new.left < length self.old.left) }
    {
        let place = self.skip_word();
        self.expect(Mark::Semicolon)?;
        Ok(TStmt::Abort(place))
    }

    /// Reads a statement of a transaction that begins with `give`.
    #[tactic(auto, using(crate::proofs::TransactionRows::transacts_give, crate::proofs::Steps::read_some))]
    fn give_tstatement(&mut self, alloc: Global) -> Result<TStmt, Halt>
        requires word { next_of word_in self.old ≡ Some word.Give }
        ensures fate { (parts : List Part) → Follows result (ahead (TStatements ∷ parts) self.old) (ahead (TStatements ∷ parts) self.new) self.new }
        ensures tree { IfOk result (λ tree. SpellsTStmt self.old.left self.new.left tree) }
        ensures shorter { IfOk result (λ _. length self.new.left < length self.old.left) }
    {
        let place = self.skip_word();
        let values = self.values(alloc)?;
        Ok(TStmt::Give(place, values))
    }

    /// Reads a statement of a transaction that begins with a name.
    #[tactic(auto, using(crate::proofs::TransactionRows::begins_tnamed, crate::proofs::TransactionRows::tassigns, crate::proofs::TransactionRows::stores))]
    fn named_tstatement(&mut self, alloc: Global) -> Result<TStmt, Halt>
        requires more { sees CloseBrace self.old ≡ false }
        requires no_word { next_of word_in self.old ≡ None }
        ensures fate { (parts : List Part) → Follows result (ahead (TStatements ∷ parts) self.old) (ahead (TStatements ∷ parts) self.new) self.new }
        ensures tree { IfOk result (λ tree. SpellsTStmt self.old.left self.new.left tree) }
        ensures shorter { IfOk result (λ _. length self.new.left < length self.old.left) }
    {
        let name = self.name()?;
        if self.eat(Mark::Equals) {
            let statement = self.tassigned(alloc, name)?;
            return Ok(statement);
        }
        self.expect(Mark::Dot)?;
        let second = self.name()?;
        let statement = self.stored(alloc, name, second)?;
        Ok(statement)
    }

    /// Reads what is assigned to a local: a new object, or a value.
    #[tactic(auto, using(crate::proofs::TransactionRows::makes, crate::proofs::TransactionRows::values))]
    fn tassigned(&mut self, alloc: Global, name: At) -> Result<TStmt, Halt>
        ensures fate { (parts : List Part) → Follows result (ahead (TAssigned ∷ parts) self.old) (ahead (parts) self.new) self.new }
        ensures tree { (before middle : List Placed) → SpellsName before middle name → TakesMark Equals middle self.old.left → IfOk result (λ tree. SpellsTStmt before self.new.left tree) }
        ensures shorter { IfOk result (λ _. length self.new.left < length self.old.left) }
    {
        if self.eat_word(Word::New) {
            let kind = self.name()?;
            self.expect(Mark::Semicolon)?;
            return Ok(TStmt::SetNew(name, kind));
        }
        let value = self.expression(alloc, true)?;
        self.expect(Mark::Semicolon)?;
        Ok(TStmt::Set(name, value))
    }

    /// Reads the rest of a store, behind two of its names.
    #[tactic(auto, using(crate::proofs::TransactionRows::field_more, crate::proofs::TransactionRows::field_over))]
    fn stored(&mut self, alloc: Global, first: At, second: At) -> Result<TStmt, Halt>
        ensures fate { (parts : List Part) → Follows result (ahead (MoreField ∷ parts) self.old) (ahead (parts) self.new) self.new }
        ensures tree { (before a b : List Placed) → SpellsName before a first → TakesMark Dot a b → SpellsName b self.old.left second → IfOk result (λ tree. SpellsTStmt before self.new.left tree) }
        ensures shorter { IfOk result (λ _. length self.new.left < length self.old.left) }
    {
        if !self.eat(Mark::Dot) {
            let value = self.stored_value(alloc)?;
            return Ok(TStmt::Store(FieldOf::Static(first, second), value));
        }
        let third = self.name()?;
        let value = self.stored_value(alloc)?;
        Ok(TStmt::Store(FieldOf::Through(first, second, third), value))
    }

    /// Reads the value that is stored.
    fn stored_value(&mut self, alloc: Global) -> Result<Expr, Halt>
        ensures fate { (parts : List Part) → Follows result (ahead (TheMark Equals ∷ Expression true (TheMark Semicolon) ∷ parts) self.old) (ahead (parts) self.new) self.new }
        ensures tree { IfOk result (λ tree. SpellsStored self.old.left self.new.left tree) }
        ensures shorter { IfOk result (λ _. length self.new.left < length self.old.left) }
    {
        self.expect(Mark::Equals)?;
        let value = self.expression(alloc, true)?;
        self.expect(Mark::Semicolon)?;
        Ok(value)
    }
}
