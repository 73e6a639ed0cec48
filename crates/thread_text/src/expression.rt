ghost use Rattle.std.specs.Prelude.{◌≡◌, ◌≤◌, ◌<◌, ◌+◌, List, ◌∷◌, Bool, true, false, Some, cond, IfOk, IfErr, length, ℕ};
ghost use Rattle.thread_text.specs.declared.halt.Halt.TheVariants.{NoMemory};
ghost use Rattle.thread_tree.specs.Levels.{level_of};
ghost use Rattle.thread_tree.specs.Spelling.{TakesAny, SpellsName, SpellsLevel, SpellsExpr};
ghost use Rattle.thread_tree.specs.declared.token.Placed.{Placed};
ghost use Rattle.thread_tree.specs.declared.token.Token.TheVariants as token;
ghost use Rattle.thread_tree.specs.Parts.{Part, TheMark, Expression, Inner, After, Dots};
ghost use Rattle.thread_tree.specs.Grammar.{behind_name};
ghost use Rattle.thread_text.specs.Fate.{ahead, Follows, next_is, sees, next_binding};
ghost use Rattle.thread_tree.specs.Grammar.{is_prefix};
ghost use Rattle.thread_tree.specs.declared.token.Mark.TheVariants.{OpenParenthesis};

use crate::Halt;
use crate::cursor::Cursor;
use crate::memory::boxed;
use std::alloc::Global;
use thread_tree::{At, Expr, FieldOf, Mark, Op};

/// The level of prefixes and operands, above those of the operators between two operands.
const TIGHTEST: u32 = 8;

impl<'a> Cursor<'a> {
    /// Reads an expression of its own.
    #[tactic(auto, using(crate::proofs::ExpressionRows::expression_begins, crate::proofs::ExpressionRows::expression_ends))]
    pub fn expression(&mut self, alloc: Global, fields: bool) -> Result<Expr, Halt>
        ensures fate { (next : Part) (parts : List Part) → Follows result (ahead (Expression fields next ∷ parts) self.old) (ahead (next ∷ parts) self.new) self.new }
        ensures shorter { IfOk result (λ _. length self.new.left < length self.old.left) }
        ensures tree { IfOk result (λ e. SpellsExpr fields self.old.left self.new.left e) }
    {
        self.begin();
        let expression = self.level(alloc, fields, 1)?;
        Ok(expression)
    }

    /// Reads the fields behind a name.
    #[tactic(auto, using(crate::proofs::ExpressionRows::dot_taken, crate::proofs::ExpressionRows::dots_end, crate::proofs::ExpressionRows::more_dot_taken, crate::proofs::ExpressionRows::more_dots_end))]
    fn field(&mut self, first: At) -> Result<Expr, Halt>
        ensures fate { (next : Part) (parts : List Part) → Follows result (ahead (Dots next ∷ parts) self.old) (ahead (After true next ∷ parts) self.new) self.new }
        ensures no_longer { IfOk result (λ _. length self.new.left ≤ length self.old.left) }
        ensures tree { (before : List Placed) → SpellsName before self.old.left first → IfOk result (λ e. SpellsLevel true 8 before self.new.left e) }
    {
        if !self.eat(Mark::Dot) {
            return Ok(Expr::Local(first));
        }
        let second = self.name()?;
        if !self.eat(Mark::Dot) {
            return Ok(Expr::Field(FieldOf::Static(first, second)));
        }
        let third = self.name()?;
        Ok(Expr::Field(FieldOf::Through(first, second, third)))
    }

    /// Reads what stands behind a name: where fields may be read, those.
    #[tactic(auto, using(crate::proofs::ExpressionRows::behind_inside, crate::proofs::ExpressionRows::behind_outside, crate::proofs::ExpressionRows::after_inside))]
    fn behind_name(&mut self, fields: bool, name: At) -> Result<Expr, Halt>
        ensures fate { (next : Part) (parts : List Part) → Follows result (ahead (behind_name fields next ∷ parts) self.old) (ahead (After fields next ∷ parts) self.new) self.new }
        ensures no_longer { IfOk result (λ _. length self.new.left ≤ length self.old.left) }
        ensures tree { (before : List Placed) → SpellsName before self.old.left name → IfOk result (λ e. SpellsLevel fields 8 before self.new.left e) }
    {
        if !fields {
            return Ok(Expr::Local(name));
        }
        let expression = self.field(name)?;
        Ok(expression)
    }

    /// Reads operands and the operators between them of this level and the tighter ones.
    #[cycle(expression)]
    #[tactic(auto, using(crate::proofs::ExpressionRows::bound_is_between))]
    pub fn level(&mut self, alloc: Global, fields: bool, level: u32) -> Result<Expr, Halt>
        requires from { 1 ≤ level }
        requires to { level ≤ 8 }
        ensures fate { (next : Part) (parts : List Part) → Follows result (ahead (Inner fields next ∷ parts) self.old) (ahead (After fields next ∷ parts) self.new) self.new }
        ensures ends { IfOk result (λ _. next_binding self.new < level) }
        ensures shorter { IfOk result (λ _. length self.new.left < length self.old.left) }
        ensures tree { IfOk result (λ e. SpellsLevel fields level self.old.left self.new.left e) }
    {
        if level == TIGHTEST {
            return self.prefixed(alloc, fields);
        }
        let mut left = self.level(alloc, fields, level + 1)?;
        'operators: while self.binding() == level {
            let op = self.take_operator()?;
            let right = self.level(alloc, fields, level + 1)?;
            left = binary(alloc, op, left, right)?;
        }
        Ok(left)
    }

    /// Reads an operand and the prefixes before it.
    #[cycle(expression)]
    fn prefixed(&mut self, alloc: Global, fields: bool) -> Result<Expr, Halt>
        ensures fate { (next : Part) (parts : List Part) → Follows result (ahead (Inner fields next ∷ parts) self.old) (ahead (After fields next ∷ parts) self.new) self.new }
        ensures ends { IfOk result (λ _. next_binding self.new < 8) }
        ensures shorter { IfOk result (λ _. length self.new.left < length self.old.left) }
        ensures tree { IfOk result (λ e. SpellsLevel fields 8 self.old.left self.new.left e) }
    {
        if !self.sees_prefix() {
            return self.operand(alloc, fields);
        }
        let op = self.take_prefix()?;
        let operand = self.prefixed(alloc, fields)?;
        let operand = boxed(alloc, operand)?;
        Ok(Expr::Prefix(op, operand))
    }

    /// Reads an operand.
    #[cycle(expression)]
    #[tactic(auto, using(crate::proofs::ExpressionRows::number_operand, crate::proofs::ExpressionRows::name_operand, crate::proofs::ExpressionRows::bound_below, crate::proofs::Steps::read_some))]
    fn operand(&mut self, alloc: Global, fields: bool) -> Result<Expr, Halt>
        requires no_prefix { next_is is_prefix self.old ≡ false }
        ensures fate { (next : Part) (parts : List Part) → Follows result (ahead (Inner fields next ∷ parts) self.old) (ahead (After fields next ∷ parts) self.new) self.new }
        ensures ends { IfOk result (λ _. next_binding self.new < 8) }
        ensures shorter { IfOk result (λ _. length self.new.left < length self.old.left) }
        ensures tree { IfOk result (λ e. SpellsLevel fields 8 self.old.left self.new.left e) }
    {
        if self.sees(Mark::OpenParenthesis) {
            return self.parenthesised(alloc, fields);
        }
        if let Some(value) = self.number_ahead() {
            self.skip();
            return Ok(Expr::Num(value));
        }
        let name = self.name()?;
        let operand = self.behind_name(fields, name)?;
        Ok(operand)
    }

    /// Reads an expression in parentheses.
    #[cycle(expression)]
    #[tactic(auto, using(crate::proofs::ExpressionRows::expression_ends))]
    fn parenthesised(&mut self, alloc: Global, fields: bool) -> Result<Expr, Halt>
        requires parenthesis { sees OpenParenthesis self.old ≡ true }
        ensures fate { (next : Part) (parts : List Part) → Follows result (ahead (Inner fields next ∷ parts) self.old) (ahead (After fields next ∷ parts) self.new) self.new }
        ensures shorter { IfOk result (λ _. length self.new.left < length self.old.left) }
        ensures tree { IfOk result (λ e. SpellsLevel fields 8 self.old.left self.new.left e) }
    {
        self.take_parenthesis()?;
        let expression = self.level(alloc, fields, 1)?;
        self.expect(Mark::CloseParenthesis)?;
        Ok(expression)
    }
}

/// The operator between these two operands.
fn binary(alloc: Global, op: Op, left: Expr, right: Expr) -> Result<Expr, Halt>
    ensures memory { IfErr result (λ e. e ≡ NoMemory) }
    ensures tree { (fields : Bool) (level : ℕ) (before a b after : List Placed) → level_of op ≡ level → SpellsLevel fields level before a left → TakesAny (token.Operator op) a b → SpellsLevel fields (level + 1) b after right → IfOk result (λ e. SpellsLevel fields level before after e) }
{
    let left = boxed(alloc, left)?;
    let right = boxed(alloc, right)?;
    Ok(Expr::Binary(op, left, right))
}
