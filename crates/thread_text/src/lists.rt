ghost use Rattle.std.specs.Prelude.{◌≡◌, ◌≤◌, ◌<◌, ◌+◌, List, ◌∷◌, Bool, true, false, IfOk, length};
ghost use Rattle.thread_tree.specs.Spelling.{Separated, SpellsNames, SpellsExpr};
ghost use Rattle.thread_tree.specs.SpellingOfCalls.{SpellsArguments, SpellsResults};
ghost use Rattle.thread_tree.specs.SpellingOfTransactions.{SpellsValues};
ghost use Rattle.thread_tree.specs.SpellingOfDeclarations.{SpellsParameters, SpellsNumbers};
ghost use Rattle.thread_tree.specs.Parts.{Part, TheMark, AName, ANumber, MoreNames, Parameters, Numbers, Arguments, Values, Expression, MoreExpressions, To};
ghost use Rattle.thread_text.specs.Fate.{ahead, Follows};

use crate::Halt;
use crate::cursor::Cursor;
use crate::memory::add;
use std::alloc::Global;
use thread_tree::{At, Expr, List, Mark, Num};

impl<'a> Cursor<'a> {
    /// Reads names with commas between them.
    #[tactic(auto, using(crate::proofs::ListRows::names_more, crate::proofs::ListRows::names_over))]
    pub fn names(&mut self, alloc: Global) -> Result<List<At>, Halt>
        ensures fate { (next : Part) (parts : List Part) → Follows result (ahead (AName ∷ MoreNames next ∷ parts) self.old) (ahead (next ∷ parts) self.new) self.new }
        ensures tree { IfOk result (λ list. SpellsNames self.old.left self.new.left list) }
        ensures shorter { IfOk result (λ _. length self.new.left < length self.old.left) }
    {
        let mut names = Vec::new(alloc);
        let first = self.name()?;
        add(&mut names, first)?;
        'names: while self.eat(Mark::Comma) {
            let name = self.name()?;
            add(&mut names, name)?;
        }
        Ok(List::of(names))
    }

    /// Reads parameters and the closing parenthesis.
    #[tactic(auto, using(crate::proofs::ListRows::parameters_none, crate::proofs::ListRows::parameters_some))]
    pub fn parameters(&mut self, alloc: Global) -> Result<List<At>, Halt>
        ensures fate { (parts : List Part) → Follows result (ahead (Parameters ∷ parts) self.old) (ahead parts self.new) self.new }
        ensures tree { IfOk result (λ list. SpellsParameters self.old.left self.new.left list) }
        ensures shorter { IfOk result (λ _. length self.new.left < length self.old.left) }
    {
        if self.eat(Mark::CloseParenthesis) {
            return Ok(List::of(Vec::new(alloc)));
        }
        let names = self.names(alloc)?;
        self.expect(Mark::CloseParenthesis)?;
        Ok(names)
    }

    /// Reads numbers with commas between them and the closing parenthesis.
    #[tactic(auto, using(crate::proofs::ListRows::numbers_none, crate::proofs::ListRows::numbers_some, crate::proofs::ListRows::numbers_more, crate::proofs::ListRows::numbers_over))]
    pub fn numbers(&mut self, alloc: Global) -> Result<List<Num>, Halt>
        ensures fate { (parts : List Part) → Follows result (ahead (Numbers ∷ parts) self.old) (ahead parts self.new) self.new }
        ensures tree { IfOk result (λ list. SpellsNumbers self.old.left self.new.left list) }
        ensures shorter { IfOk result (λ _. length self.new.left < length self.old.left) }
    {
        let mut numbers = Vec::new(alloc);
        if self.eat(Mark::CloseParenthesis) {
            return Ok(List::of(numbers));
        }
        let first = self.number()?;
        add(&mut numbers, first)?;
        'numbers: while self.eat(Mark::Comma) {
            let number = self.number()?;
            add(&mut numbers, number)?;
        }
        self.expect(Mark::CloseParenthesis)?;
        Ok(List::of(numbers))
    }

    /// Reads expressions with commas between them.
    #[tactic(auto, using(crate::proofs::ListRows::expressions_more, crate::proofs::ListRows::expressions_over))]
    pub fn expressions(&mut self, alloc: Global, fields: bool) -> Result<List<Expr>, Halt>
        ensures fate { (next : Part) (parts : List Part) → Follows result (ahead (Expression fields (MoreExpressions fields next) ∷ parts) self.old) (ahead (next ∷ parts) self.new) self.new }
        ensures tree { IfOk result (λ list. Separated (SpellsExpr fields) self.old.left self.new.left list) }
        ensures shorter { IfOk result (λ _. length self.new.left < length self.old.left) }
    {
        let mut expressions = Vec::new(alloc);
        let first = self.expression(alloc, fields)?;
        add(&mut expressions, first)?;
        'expressions: while self.eat(Mark::Comma) {
            let expression = self.expression(alloc, fields)?;
            add(&mut expressions, expression)?;
        }
        Ok(List::of(expressions))
    }

    /// Reads the arguments of a call and the closing parenthesis.
    #[tactic(auto, using(crate::proofs::ListRows::arguments_none, crate::proofs::ListRows::arguments_some))]
    pub fn arguments(&mut self, alloc: Global) -> Result<List<Expr>, Halt>
        ensures fate { (parts : List Part) → Follows result (ahead (Arguments ∷ parts) self.old) (ahead parts self.new) self.new }
        ensures tree { IfOk result (λ list. SpellsArguments self.old.left self.new.left list) }
        ensures shorter { IfOk result (λ _. length self.new.left < length self.old.left) }
    {
        if self.eat(Mark::CloseParenthesis) {
            return Ok(List::of(Vec::new(alloc)));
        }
        let arguments = self.expressions(alloc, false)?;
        self.expect(Mark::CloseParenthesis)?;
        Ok(arguments)
    }

    /// Reads the values of a `give` and the semicolon.
    #[tactic(auto, using(crate::proofs::ListRows::values_none, crate::proofs::ListRows::values_some))]
    pub fn values(&mut self, alloc: Global) -> Result<List<Expr>, Halt>
        ensures fate { (parts : List Part) → Follows result (ahead (Values ∷ parts) self.old) (ahead parts self.new) self.new }
        ensures tree { IfOk result (λ list. SpellsValues self.old.left self.new.left list) }
        ensures shorter { IfOk result (λ _. length self.new.left < length self.old.left) }
    {
        if self.eat(Mark::Semicolon) {
            return Ok(List::of(Vec::new(alloc)));
        }
        let values = self.expressions(alloc, true)?;
        self.expect(Mark::Semicolon)?;
        Ok(values)
    }

    /// Reads the end of a call: the names that get its results, and the semicolon.
    #[tactic(auto, using(crate::proofs::ListRows::to_some, crate::proofs::ListRows::to_none))]
    pub fn results(&mut self, alloc: Global) -> Result<List<At>, Halt>
        ensures fate { (parts : List Part) → Follows result (ahead (To ∷ parts) self.old) (ahead parts self.new) self.new }
        ensures tree { IfOk result (λ list. SpellsResults self.old.left self.new.left list) }
        ensures shorter { IfOk result (λ _. length self.new.left < length self.old.left) }
    {
        if !self.eat(Mark::Arrow) {
            self.expect(Mark::Semicolon)?;
            return Ok(List::of(Vec::new(alloc)));
        }
        let names = self.names(alloc)?;
        self.expect(Mark::Semicolon)?;
        Ok(names)
    }
}
