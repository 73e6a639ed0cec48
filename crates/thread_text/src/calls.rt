ghost use Rattle.std.specs.Prelude.{◌≡◌, ◌≤◌, ◌<◌, ◌+◌, List, [], ◌∷◌, ◌++◌, Bool, true, false, Some, None, IfOk, length};
ghost use Rattle.thread_tree.specs.Spelling.{Separated};
ghost use Rattle.thread_tree.specs.Few.{listed};
ghost use Rattle.thread_tree.specs.Grammar.{row};
ghost use Rattle.thread_tree.specs.Pieces.{pieces, shape, slot_of, word_of};
ghost use Rattle.thread_tree.specs.declared.slot.Slot.{Slot};
ghost use Rattle.thread_tree.specs.declared.slot.Slot.TheVariants as slot;
ghost use Rattle.thread_tree.specs.SpellingOfCalls.{SpellsCall, SpellsItem, SpellsPiece, SpellsPieces, SpellsWho};
ghost use Rattle.thread_tree.specs.SpellingOfBlocks.{SpellsStmt};
ghost use Rattle.thread_tree.specs.declared.token.Placed.{Placed};
ghost use Rattle.thread_tree.specs.Parts.{Part, TheMark, AName, Arguments, Statements, AnItem, MoreItems, AWho, To};
ghost use Rattle.thread_tree.specs.declared.token.Mark.TheVariants.{Comma, OpenParenthesis};
ghost use Rattle.thread_text.specs.Fate.{ahead, Follows, next_of, sees};
ghost use Rattle.thread_text.specs.Kinds.{word_in};
ghost use Rattle.thread_text.specs.Operands.{SpellsFirst, goes_on, piece_of};

use crate::Halt;
use crate::building::{call_of_none, call_of_one, call_of_three, call_of_two};
use crate::cursor::Cursor;
use crate::memory::{add, copied};
use crate::operand::Operand;
use std::alloc::Global;
use thread_tree::{Call, Few, Item, List, Mark, Place, Slot, Stmt, Who, Word};

impl<'a> Cursor<'a> {
    /// Reads the end of a call, which is then a statement.
    fn call_end(&mut self, alloc: Global, place: Place, call: Call) -> Result<Stmt, Halt>
        ensures fate { (parts : List Part) → Follows result (ahead (To ∷ parts) self.old) (ahead (parts) self.new) self.new }
        ensures tree { (before : List Placed) → SpellsCall place before self.old.left call → IfOk result (λ tree. SpellsStmt before self.new.left tree) }
        ensures shorter { IfOk result (λ _. length self.new.left < length self.old.left) }
    {
        let results = self.results(alloc)?;
        Ok(Stmt::Call(place, call, results))
    }

    /// Reads an item of a `print`.
    #[tactic(auto, using(crate::proofs::ListRows::item_text, crate::proofs::ListRows::item_value, crate::proofs::Steps::read_some, crate::proofs::Steps::ahead_end))]
    fn item(&mut self, alloc: Global) -> Result<Item, Halt>
        ensures fate { (parts : List Part) → Follows result (ahead (AnItem ∷ parts) self.old) (ahead (MoreItems ∷ parts) self.new) self.new }
        ensures tree { IfOk result (λ tree. SpellsItem self.old.left self.new.left tree) }
        ensures shorter { IfOk result (λ _. length self.new.left < length self.old.left) }
    {
        if let Some(text) = self.text_ahead() {
            let text = copied(text);
            let place = self.skip();
            return Ok(Item::Text(place, text));
        }
        let Some(place) = self.place() else {
            return Err(Halt::Stuck);
        };
        let value = self.expression(alloc, false)?;
        Ok(Item::Value(place, value))
    }

    /// Reads items with commas between them.
    #[tactic(auto, using(crate::proofs::ListRows::items_more, crate::proofs::ListRows::items_over))]
    fn items(&mut self, alloc: Global) -> Result<List<Item>, Halt>
        ensures fate { (parts : List Part) → Follows result (ahead (AnItem ∷ parts) self.old) (ahead (To ∷ parts) self.new) self.new }
        ensures tree { IfOk result (λ tree. Separated SpellsItem self.old.left self.new.left tree) }
        ensures shorter { IfOk result (λ _. length self.new.left < length self.old.left) }
    {
        let mut items = Vec::new(alloc);
        let first = self.item(alloc)?;
        add(&mut items, first)?;
        'items: while self.eat(Mark::Comma) {
            let item = self.item(alloc)?;
            add(&mut items, item)?;
        }
        Ok(List::of(items))
    }

    /// Reads `self`, or the number of a thread.
    #[tactic(auto, using(crate::proofs::ListRows::who_own, crate::proofs::ListRows::who_of))]
    fn who(&mut self, alloc: Global) -> Result<Who, Halt>
        ensures fate { (next : Part) (parts : List Part) → Follows result (ahead (AWho next ∷ parts) self.old) (ahead (next ∷ parts) self.new) self.new }
        ensures tree { IfOk result (λ tree. SpellsWho self.old.left self.new.left tree) }
        ensures shorter { IfOk result (λ _. length self.new.left < length self.old.left) }
    {
        if self.eat_word(Word::Own) {
            return Ok(Who::Own);
        }
        let thread = self.expression(alloc, false)?;
        Ok(Who::Of(thread))
    }

    /// Reads a template's name and its arguments in parentheses.
    fn application(&mut self, alloc: Global) -> Result<Operand, Halt>
        ensures fate { (parts : List Part) → Follows result (ahead (AName ∷ TheMark OpenParenthesis ∷ Arguments ∷ parts) self.old) (ahead parts self.new) self.new }
        ensures slot { IfOk result (λ operand. slot_of (piece_of operand) ≡ slot.Application) }
        ensures tree { IfOk result (λ operand. SpellsPiece self.old.left self.new.left (piece_of operand)) }
        ensures shorter { IfOk result (λ _. length self.new.left < length self.old.left) }
    {
        let template = self.name()?;
        self.expect(Mark::OpenParenthesis)?;
        let arguments = self.arguments(alloc)?;
        Ok(Operand::Application(template, arguments))
    }

    /// Reads what fills a place of a call.
    fn filled(&mut self, alloc: Global, slot: Slot) -> Result<Operand, Halt>
        ensures first { (next : Slot) (slots : List Slot) (parts : List Part) → goes_on slot ≡ true → Follows result (ahead (row (slot ∷ next ∷ slots) ++ parts) self.old) (ahead (TheMark Comma ∷ row (next ∷ slots) ++ parts) self.new) self.new }
        ensures last { (parts : List Part) → Follows result (ahead (row (slot ∷ []) ++ parts) self.old) (ahead (To ∷ parts) self.new) self.new }
        ensures slot { IfOk result (λ operand. slot_of (piece_of operand) ≡ slot) }
        ensures tree { IfOk result (λ operand. SpellsPiece self.old.left self.new.left (piece_of operand)) }
        ensures shorter { IfOk result (λ _. length self.new.left < length self.old.left) }
    {
        match slot {
            Slot::Name(needed) => {
                let name = self.name()?;
                Ok(Operand::Name(needed, name))
            }
            Slot::Value => {
                let value = self.expression(alloc, false)?;
                Ok(Operand::Value(value))
            }
            Slot::Whom => {
                let whom = self.who(alloc)?;
                Ok(Operand::Whom(whom))
            }
            Slot::Items => {
                let items = self.items(alloc)?;
                Ok(Operand::Items(items))
            }
            Slot::Application => {
                let application = self.application(alloc)?;
                Ok(application)
            }
        }
    }

    /// Reads what fills a place of a call that isn't the last, and the comma.
    fn filled_before(&mut self, alloc: Global, slot: Slot) -> Result<Operand, Halt>
        requires goes_on { goes_on slot ≡ true }
        ensures fate { (next : Slot) (slots : List Slot) (parts : List Part) → Follows result (ahead (row (slot ∷ next ∷ slots) ++ parts) self.old) (ahead (row (next ∷ slots) ++ parts) self.new) self.new }
        ensures slot { IfOk result (λ operand. slot_of (piece_of operand) ≡ slot) }
        ensures tree { IfOk result (λ operand. SpellsFirst self.old.left self.new.left (piece_of operand)) }
        ensures shorter { IfOk result (λ _. length self.new.left < length self.old.left) }
    {
        let operand = self.filled(alloc, slot)?;
        self.expect(Mark::Comma)?;
        Ok(operand)
    }

    /// Reads a call of this word with two operands, from behind the word up to its end.
    #[tactic(auto, using(crate::proofs::CallRows::first_goes_on))]
    fn call_with_two(&mut self, alloc: Global, word: Word, a: Slot, b: Slot) -> Result<Call, Halt>
        requires shape { shape word ≡ Some (a ∷ b ∷ []) }
        ensures fate { (parts : List Part) → Follows result (ahead (row (a ∷ b ∷ []) ++ parts) self.old) (ahead (To ∷ parts) self.new) self.new }
        ensures word { IfOk result (λ call. word_of call ≡ word) }
        ensures tree { IfOk result (λ call. SpellsPieces self.old.left self.new.left (pieces call)) }
        ensures no_longer { IfOk result (λ _. length self.new.left ≤ length self.old.left) }
    {
        let first = self.filled_before(alloc, a)?;
        let second = self.filled(alloc, b)?;
        Ok(call_of_two(word, first, second))
    }

    /// Reads a call of this word with three operands, from behind the word up to its end.
    #[tactic(auto, using(crate::proofs::CallRows::first_goes_on, crate::proofs::CallRows::second_goes_on))]
    fn call_with_three(
        &mut self,
        alloc: Global,
        word: Word,
        a: Slot,
        b: Slot,
        c: Slot,
    ) -> Result<Call, Halt>
        requires shape { shape word ≡ Some (a ∷ b ∷ c ∷ []) }
        ensures fate { (parts : List Part) → Follows result (ahead (row (a ∷ b ∷ c ∷ []) ++ parts) self.old) (ahead (To ∷ parts) self.new) self.new }
        ensures word { IfOk result (λ call. word_of call ≡ word) }
        ensures tree { IfOk result (λ call. SpellsPieces self.old.left self.new.left (pieces call)) }
        ensures no_longer { IfOk result (λ _. length self.new.left ≤ length self.old.left) }
    {
        let first = self.filled_before(alloc, a)?;
        let second = self.filled_before(alloc, b)?;
        let third = self.filled(alloc, c)?;
        Ok(call_of_three(word, first, second, third))
    }

    /// Reads a call of this word by the places behind it, up to its end.
    fn call(&mut self, alloc: Global, word: Word, slots: Few<Slot>) -> Result<Call, Halt>
        requires shape { shape word ≡ Some (listed slots) }
        ensures fate { (parts : List Part) → Follows result (ahead (row (listed slots) ++ parts) self.old) (ahead (To ∷ parts) self.new) self.new }
        ensures word { IfOk result (λ call. word_of call ≡ word) }
        ensures tree { IfOk result (λ call. SpellsPieces self.old.left self.new.left (pieces call)) }
        ensures no_longer { IfOk result (λ _. length self.new.left ≤ length self.old.left) }
    {
        match slots {
            Few::Zero => Ok(call_of_none(word)),
            Few::One(a) => {
                let operand = self.filled(alloc, a)?;
                Ok(call_of_one(word, operand))
            }
            Few::Two(a, b) => {
                let call = self.call_with_two(alloc, word, a, b)?;
                Ok(call)
            }
            Few::Three(a, b, c) => {
                let call = self.call_with_three(alloc, word, a, b, c)?;
                Ok(call)
            }
            // No word has so many places.
            Few::Four(_, _, _, _) => unreachable!(),
            Few::Five(_, _, _, _, _) => unreachable!(),
        }
    }

    /// Reads a statement that is a call.
    #[tactic(auto, using(crate::proofs::CallRows::states_call, crate::proofs::Steps::read_some))]
    pub fn call_statement(
        &mut self,
        alloc: Global,
        word: Word,
        slots: Few<Slot>,
    ) -> Result<Stmt, Halt>
        requires word { next_of word_in self.old ≡ Some word }
        requires shape { shape word ≡ Some (listed slots) }
        ensures fate { (parts : List Part) → Follows result (ahead (Statements ∷ parts) self.old) (ahead (Statements ∷ parts) self.new) self.new }
        ensures tree { IfOk result (λ tree. SpellsStmt self.old.left self.new.left tree) }
        ensures shorter { IfOk result (λ _. length self.new.left < length self.old.left) }
    {
        let place = self.skip_word();
        let call = self.call(alloc, word, slots)?;
        let statement = self.call_end(alloc, place, call)?;
        Ok(statement)
    }
}
