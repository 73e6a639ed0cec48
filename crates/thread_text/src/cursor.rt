ghost use Rattle.std.specs.Prelude.{◌≡◌, ◌≤◌, ◌<◌, ◌+◌, List, ◌∷◌, IfOk, IfSome, IfNone, IsSome, IsTrue, Some, None, length, if◌then◌else◌, MatchResult, MatchOption};
ghost use Rattle.std.specs.Option.{option_copied};
ghost use Rattle.thread_tree.specs.declared.token.Token.{Token};
ghost use Rattle.thread_tree.specs.declared.token.Word.{Word};
ghost use Rattle.thread_tree.specs.declared.token.Token.TheVariants as token;
ghost use Rattle.thread_tree.specs.SpellingOfCalls.{BeginsAt};
ghost use Rattle.thread_tree.specs.Spelling.{Takes, TakesAny, SpellsName, SpellsNumber};
ghost use Rattle.thread_tree.specs.Parts.{Part, TheMark, TheWord, AName, ANumber};
ghost use Rattle.thread_text.specs.Kinds.{name_in, number_in, word_in, operator_in, text_in};
ghost use Rattle.thread_tree.specs.Grammar.{is_prefix};
ghost use Rattle.thread_text.specs.Fate.{ahead, Follows, next, next_binding, next_is, next_of, sees, sees_call, sees_word, skipped};

use crate::Halt;
use crate::kinds::{is_mark, is_word, name_in, number_in, operator_in, text_in, word_in};
use crate::operators::{binding, is_prefix};
use std::marker::Model;
use thread_tree::{At, Mark, Num, Op, Place, Placed, Text, Token, Word};

/// A place in a text's tokens, with the counts of what its expression and its blocks have so far.
#[derive(Drop)]
pub struct Cursor<'a> {
    pub rest: &'a [Placed],
    pub operators: u32,
    pub parentheses: u32,
    pub blocks: u32,
}

impl<'a> Model for Cursor<'a> {
    ghost use Rattle.thread_text.specs.Fate.{Reading};

    ghost Value = { Reading };

    ghost view = { λ c. record { left = c.rest.now; counts = record { operators = c.operators; parentheses = c.parentheses; blocks = c.blocks } } };
}

impl<'a> Cursor<'a> {
    /// The next token.
    #[tactic(auto, unfolding(crate::specs::Fate::next))]
    pub fn token(&self) -> Option<&Token>
        ensures value { option_copied result ≡ next self.now.left }
    {
        let [first, ..] = self.rest else {
            return None;
        };
        Some(&first.token)
    }

    /// Whether the next token is this mark.
    #[tactic(auto, unfolding(crate::specs::Fate::next_is))]
    pub fn sees(&self, mark: Mark) -> bool
        ensures value { result ≡ sees mark self.now }
    {
        match self.token() {
            Some(token) => is_mark(token, mark),
            None => false,
        }
    }

    /// Whether the next token is this word.
    #[tactic(auto, unfolding(crate::specs::Fate::next_is))]
    pub fn sees_word(&self, word: Word) -> bool
        ensures value { result ≡ sees_word word self.now }
    {
        match self.token() {
            Some(token) => is_word(token, word),
            None => false,
        }
    }

    /// The next token's word, where it is one.
    #[tactic(auto, unfolding(crate::specs::Fate::next_of))]
    pub fn word(&self) -> Option<Word>
        ensures value { result ≡ next_of word_in self.now }
    {
        match self.token() {
            Some(token) => word_in(token),
            None => None,
        }
    }

    /// The next token's operator, where it is one.
    #[tactic(auto, unfolding(crate::specs::Fate::next_of))]
    pub fn operator(&self) -> Option<Op>
        ensures value { result ≡ next_of operator_in self.now }
    {
        match self.token() {
            Some(token) => operator_in(token),
            None => None,
        }
    }

    /// The next token's name, where it is one.
    #[tactic(auto, unfolding(crate::specs::Fate::next_of))]
    pub fn name_ahead(&self) -> Option<u32>
        ensures value { result ≡ next_of name_in self.now }
    {
        match self.token() {
            Some(token) => name_in(token),
            None => None,
        }
    }

    /// The next token's number, where it is one.
    #[tactic(auto, unfolding(crate::specs::Fate::next_of))]
    pub fn number_ahead(&self) -> Option<u32>
        ensures value { result ≡ next_of number_in self.now }
    {
        match self.token() {
            Some(token) => number_in(token),
            None => None,
        }
    }

    /// How tightly the next token binds, 0 where it is no operator between two operands.
    #[tactic(auto, unfolding(crate::specs::Fate::next_binding))]
    pub fn binding(&self) -> u32
        ensures value { result ≡ next_binding self.now }
    {
        match self.token() {
            Some(token) => binding(token),
            None => 0,
        }
    }

    /// Whether a prefix is next.
    #[tactic(auto, unfolding(crate::specs::Fate::next_is))]
    pub fn sees_prefix(&self) -> bool
        ensures value { result ≡ next_is is_prefix self.now }
    {
        match self.token() {
            Some(token) => is_prefix(token),
            None => false,
        }
    }

    /// The next token's string, where it is one.
    #[tactic(auto, unfolding(crate::specs::Fate::next_of))]
    pub fn text_ahead(&self) -> Option<&Text>
        ensures value { option_copied result ≡ next_of text_in self.now }
    {
        match self.token() {
            Some(token) => text_in(token),
            None => None,
        }
    }

    /// The next token's place, where there is one.
    #[tactic(auto, unfolding(crate::specs::Fate::next))]
    pub fn place(&self) -> Option<Place>
        ensures none { IfNone result (next self.now.left ≡ None) }
        ensures begins { IfSome result (λ place. BeginsAt place self.now.left) }
    {
        let [first, ..] = self.rest else {
            return None;
        };
        Some(first.place)
    }

    /// Whether a name and an opening parenthesis are next.
    #[tactic(auto, using(crate::proofs::Steps::read_some, crate::proofs::Steps::named_next, crate::proofs::Steps::unnamed_next), unfolding(crate::specs::Fate::sees_call))]
    pub fn sees_call(&self) -> bool
        ensures value { result ≡ sees_call self.now }
    {
        if self.name_ahead().is_none() {
            return false;
        }
        let mut behind = Cursor {
            rest: self.rest,
            operators: self.operators,
            parentheses: self.parentheses,
            blocks: self.blocks,
        };
        behind.skip();
        behind.sees(Mark::OpenParenthesis)
    }

    /// Passes over the next token.
    #[tactic(auto, unfolding(crate::specs::Fate::next, crate::specs::Fate::skipped))]
    pub fn skip(&mut self) -> Place
        requires some { IsSome (next self.old.left) }
        ensures skipped { self.new ≡ skipped self.old }
        ensures taken { (t : Token) → next self.old.left ≡ Some t → Takes t result self.old.left self.new.left }
        ensures shorter { length self.new.left + 1 ≡ length self.old.left }
    {
        let [first, rest @ ..] = self.rest else {
            unreachable!()
        };
        self.rest = rest;
        first.place
    }

    /// Passes over the word that is next.
    #[tactic(auto, using(crate::proofs::Steps::read_some))]
    pub fn skip_word(&mut self) -> Place
        requires some { IsSome (next_of word_in self.old) }
        ensures skipped { self.new ≡ skipped self.old }
        ensures word { (w : Word) → next_of word_in self.old ≡ Some w → Takes (token.Word w) result self.old.left self.new.left }
        ensures any { (w : Word) → next_of word_in self.old ≡ Some w → TakesAny (token.Word w) self.old.left self.new.left }
        ensures shorter { length self.new.left + 1 ≡ length self.old.left }
    {
        self.skip()
    }

    /// Passes over this mark, where it is next.
    #[tactic(auto, using(crate::proofs::Steps::seen_some))]
    pub fn eat(&mut self, mark: Mark) -> bool
        ensures value { result ≡ sees mark self.old }
        ensures state { self.new ≡ (if result then skipped self.old else self.old) }
        ensures taken { IsTrue result → TakesAny (token.Mark mark) self.old.left self.new.left }
        ensures shorter { length self.new.left + (if result then 1 else 0) ≡ length self.old.left }
    {
        if !self.sees(mark) {
            return false;
        }
        self.skip();
        true
    }

    /// Passes over this word, where it is next.
    #[tactic(auto, using(crate::proofs::Steps::seen_some))]
    pub fn eat_word(&mut self, word: Word) -> bool
        ensures value { result ≡ sees_word word self.old }
        ensures state { self.new ≡ (if result then skipped self.old else self.old) }
        ensures taken { IsTrue result → TakesAny (token.Word word) self.old.left self.new.left }
        ensures shorter { length self.new.left + (if result then 1 else 0) ≡ length self.old.left }
    {
        if !self.sees_word(word) {
            return false;
        }
        self.skip();
        true
    }

    /// Takes this mark.
    #[tactic(auto, using(crate::proofs::Steps::seen_some, crate::proofs::Steps::mark_taken, crate::proofs::Steps::mark_stuck))]
    pub fn expect(&mut self, mark: Mark) -> Result<Place, Halt>
        ensures fate { (parts : List Part) → Follows result (ahead (TheMark mark ∷ parts) self.old) (ahead parts self.new) self.new }
        ensures taken { IfOk result (λ place. Takes (token.Mark mark) place self.old.left self.new.left) }
        ensures any { IfOk result (λ _. TakesAny (token.Mark mark) self.old.left self.new.left) }
        ensures shorter { IfOk result (λ _. length self.new.left + 1 ≡ length self.old.left) }
        ensures no_longer { length self.new.left ≤ length self.old.left }
    {
        if !self.sees(mark) {
            return Err(Halt::Stuck);
        }
        Ok(self.skip())
    }

    /// Takes this word.
    #[tactic(auto, using(crate::proofs::Steps::seen_some, crate::proofs::Steps::word_taken, crate::proofs::Steps::word_stuck))]
    pub fn expect_word(&mut self, word: Word) -> Result<Place, Halt>
        ensures fate { (parts : List Part) → Follows result (ahead (TheWord word ∷ parts) self.old) (ahead parts self.new) self.new }
        ensures taken { IfOk result (λ place. Takes (token.Word word) place self.old.left self.new.left) }
        ensures any { IfOk result (λ _. TakesAny (token.Word word) self.old.left self.new.left) }
        ensures shorter { IfOk result (λ _. length self.new.left + 1 ≡ length self.old.left) }
    {
        if !self.sees_word(word) {
            return Err(Halt::Stuck);
        }
        Ok(self.skip())
    }

    /// Takes a name.
    #[tactic(auto, using(crate::proofs::Steps::read_some, crate::proofs::Steps::name_taken, crate::proofs::Steps::name_stuck))]
    pub fn name(&mut self) -> Result<At, Halt>
        ensures fate { (parts : List Part) → Follows result (ahead (AName ∷ parts) self.old) (ahead parts self.new) self.new }
        ensures tree { IfOk result (λ name. SpellsName self.old.left self.new.left name) }
        ensures shorter { IfOk result (λ _. length self.new.left + 1 ≡ length self.old.left) }
        ensures no_longer { length self.new.left ≤ length self.old.left }
    {
        let Some(name) = self.name_ahead() else {
            return Err(Halt::Stuck);
        };
        Ok(At {
            name,
            place: self.skip(),
        })
    }

    /// Takes a number.
    #[tactic(auto, using(crate::proofs::Steps::read_some, crate::proofs::Steps::number_taken, crate::proofs::Steps::number_stuck))]
    pub fn number(&mut self) -> Result<Num, Halt>
        ensures fate { (parts : List Part) → Follows result (ahead (ANumber ∷ parts) self.old) (ahead parts self.new) self.new }
        ensures tree { IfOk result (λ number. SpellsNumber self.old.left self.new.left number) }
        ensures shorter { IfOk result (λ _. length self.new.left + 1 ≡ length self.old.left) }
    {
        let Some(value) = self.number_ahead() else {
            return Err(Halt::Stuck);
        };
        Ok(Num {
            value,
            place: self.skip(),
        })
    }
}
