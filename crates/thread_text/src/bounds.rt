ghost use Rattle.std.specs.Prelude.{◌≡◌, ◌≤◌, ◌<◌, ◌+◌, ◌-◌, List, ◌∷◌, Bool, true, IfOk, Some, length};
ghost use Rattle.thread_tree.specs.Grammar.{is_between, is_prefix};
ghost use Rattle.thread_tree.specs.Grammar.{prefixes};
ghost use Rattle.thread_tree.specs.Levels.{level_of};
ghost use Rattle.thread_tree.specs.Spelling.{Takes, TakesAny, TakesMark};
ghost use Rattle.thread_tree.specs.declared.token.Token.TheVariants as token;
ghost use Rattle.thread_tree.specs.Parts.{Part, TheMark, ABlock, ATBlock, Statements, TStatements, Inner, After};
ghost use Rattle.thread_tree.specs.declared.token.Mark.TheVariants.{OpenBrace, CloseBrace, OpenParenthesis, CloseParenthesis};
ghost use Rattle.thread_text.specs.Fate.{ahead, Follows, next_is, next_binding, sees, begun};

use crate::Halt;
use crate::cursor::Cursor;
use thread_tree::{Mark, Op, Place};

/// The most operators of one expression.
const OPERATORS: u32 = 32;
/// The most opening parentheses of one expression.
const PARENTHESES: u32 = 64;
/// The most blocks that are open at once.
const BLOCKS: u32 = 24;

impl<'a> Cursor<'a> {
    /// Begins an expression of its own.
    #[tactic(auto, unfolding(crate::specs::Fate::begun, crate::specs::Bounds::afresh))]
    pub fn begin(&mut self)
        ensures begun { self.new ≡ begun self.old }
        ensures stays { self.new.left ≡ self.old.left }
    {
        self.operators = 0;
        self.parentheses = 0;
    }

    /// Passes over the operator between two operands that is next.
    #[tactic(auto, using(crate::proofs::Steps::seen_some, crate::proofs::ExpressionRows::between_there, crate::proofs::ExpressionRows::operator_taken, crate::proofs::ExpressionRows::operator_long), unfolding(crate::specs::Fate::counting, crate::specs::Fate::skipped))]
    pub fn take_operator(&mut self) -> Result<Op, Halt>
        requires between { next_is is_between self.old ≡ true }
        ensures fate { (fields : Bool) (next : Part) (parts : List Part) → Follows result (ahead (After fields next ∷ parts) self.old) (ahead (Inner fields next ∷ parts) self.new) self.new }
        ensures tree { IfOk result (λ op. TakesAny (token.Operator op) self.old.left self.new.left) }
        ensures level { IfOk result (λ op. level_of op ≡ next_binding self.old) }
        ensures shorter { IfOk result (λ _. length self.new.left < length self.old.left) }
    {
        let Some(op) = self.operator() else {
            unreachable!()
        };
        if self.operators >= OPERATORS {
            return Err(Halt::Long);
        }
        self.skip();
        self.operators += 1;
        Ok(op)
    }

    /// Passes over the prefix that is next.
    #[tactic(auto, using(crate::proofs::Steps::seen_some, crate::proofs::ExpressionRows::prefix_there, crate::proofs::ExpressionRows::prefix_taken, crate::proofs::ExpressionRows::prefix_long), unfolding(crate::specs::Fate::counting, crate::specs::Fate::skipped))]
    pub fn take_prefix(&mut self) -> Result<Op, Halt>
        requires prefix { next_is is_prefix self.old ≡ true }
        ensures fate { (fields : Bool) (next : Part) (parts : List Part) → Follows result (ahead (Inner fields next ∷ parts) self.old) (ahead (Inner fields next ∷ parts) self.new) self.new }
        ensures tree { IfOk result (λ op. TakesAny (token.Operator op) self.old.left self.new.left) }
        ensures prefix { IfOk result (λ op. prefixes op ≡ true) }
        ensures shorter { IfOk result (λ _. length self.new.left < length self.old.left) }
    {
        let Some(op) = self.operator() else {
            unreachable!()
        };
        if self.operators >= OPERATORS {
            return Err(Halt::Long);
        }
        self.skip();
        self.operators += 1;
        Ok(op)
    }

    /// Passes over the opening parenthesis of an operand that is next.
    #[tactic(auto, using(crate::proofs::Steps::seen_some, crate::proofs::ExpressionRows::parenthesis_taken, crate::proofs::ExpressionRows::parenthesis_long), unfolding(crate::specs::Fate::counting, crate::specs::Fate::skipped))]
    pub fn take_parenthesis(&mut self) -> Result<(), Halt>
        requires parenthesis { sees OpenParenthesis self.old ≡ true }
        ensures fate { (fields : Bool) (next : Part) (parts : List Part) → Follows result (ahead (Inner fields next ∷ parts) self.old) (ahead (Inner fields (TheMark CloseParenthesis) ∷ After fields next ∷ parts) self.new) self.new }
        ensures tree { IfOk result (λ _. TakesMark OpenParenthesis self.old.left self.new.left) }
        ensures shorter { IfOk result (λ _. length self.new.left + 1 ≡ length self.old.left) }
    {
        if self.parentheses >= PARENTHESES {
            return Err(Halt::Long);
        }
        self.skip();
        self.parentheses += 1;
        Ok(())
    }

    /// Opens the block or the transaction's block that begins here.
    #[tactic(auto, using(crate::proofs::Steps::seen_some, crate::proofs::BlockRows::block_opened, crate::proofs::BlockRows::block_long, crate::proofs::BlockRows::block_stuck, crate::proofs::BlockRows::tblock_opened, crate::proofs::BlockRows::tblock_long, crate::proofs::BlockRows::tblock_stuck), unfolding(crate::specs::Fate::counting, crate::specs::Fate::skipped))]
    pub fn open_block(&mut self) -> Result<Place, Halt>
        ensures fate { (parts : List Part) → Follows result (ahead (ABlock ∷ parts) self.old) (ahead (Statements ∷ parts) self.new) self.new }
        ensures transaction { (parts : List Part) → Follows result (ahead (ATBlock ∷ parts) self.old) (ahead (TStatements ∷ parts) self.new) self.new }
        ensures tree { IfOk result (λ place. Takes (token.Mark OpenBrace) place self.old.left self.new.left) }
        ensures shorter { IfOk result (λ _. length self.new.left < length self.old.left) }
    {
        if !self.sees(Mark::OpenBrace) {
            return Err(Halt::Stuck);
        }
        if self.blocks >= BLOCKS {
            return Err(Halt::Long);
        }
        let place = self.skip();
        self.blocks += 1;
        Ok(place)
    }

    /// Passes over the closing brace of a block that is next.
    #[tactic(auto, using(crate::proofs::Steps::seen_some, crate::proofs::BlockRows::block_closed, crate::proofs::BlockRows::tblock_closed), unfolding(crate::specs::Fate::counting, crate::specs::Fate::skipped))]
    pub fn close_block(&mut self)
        requires brace { sees CloseBrace self.old ≡ true }
        ensures fate { (parts : List Part) → ahead (Statements ∷ parts) self.old ≡ ahead parts self.new }
        ensures transaction { (parts : List Part) → ahead (TStatements ∷ parts) self.old ≡ ahead parts self.new }
        ensures tree { TakesMark CloseBrace self.old.left self.new.left }
        ensures shorter { length self.new.left < length self.old.left }
    {
        self.skip();
        self.blocks = self.blocks.saturating_sub(1);
    }
}
