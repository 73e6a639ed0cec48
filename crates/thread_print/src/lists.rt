// Writes several with commas between, and what closes them.
ghost use Rattle.std.specs.Prelude.{◌≡◌, ◌<◌, Option, List as Sequence};
ghost use Rattle.thread_print.specs.Canonical.{arguments, expressions, names, numbers, parameters, results, start_values, to, values};
ghost use Rattle.thread_print.specs.Wrote.{Wrote};

use crate::out::Out;
use crate::printer::Printer;
use thread_tree::{At, Expr, List, Mark, Num};

impl<'a> Printer<'a> {
    /// Names with commas between.
    #[tactic(auto, using(crate::proofs::Writer::wrote_none, crate::proofs::Loops::names_step))]
    pub(crate) fn names(&self, out: &mut Out, ats: &List<At>)
        ensures { Wrote self.now out.old out.new (names ats.now) }
    {
        for i in 0..ats.len() {
            self.mark_if(out, i > 0, Mark::Comma);
            self.name(out, *ats.get(i));
        }
    }

    /// Numbers with commas between.
    #[tactic(auto, using(crate::proofs::Writer::wrote_none, crate::proofs::Loops::numbers_step))]
    fn numbers(&self, out: &mut Out, nums: &List<Num>)
        ensures { Wrote self.now out.old out.new (numbers nums.now) }
    {
        for i in 0..nums.len() {
            self.mark_if(out, i > 0, Mark::Comma);
            self.number(out, nums.get(i).value);
        }
    }

    /// Expressions with commas between.
    #[tactic(auto, using(crate::proofs::Writer::wrote_none, crate::proofs::Loops::expressions_step))]
    fn expressions(&self, out: &mut Out, exprs: &List<Expr>)
        ensures { Wrote self.now out.old out.new (expressions exprs.now) }
    {
        for i in 0..exprs.len() {
            self.mark_if(out, i > 0, Mark::Comma);
            self.expression(out, exprs.get(i));
        }
    }

    /// Arguments, with the closing parenthesis.
    #[tactic(auto, using(crate::proofs::Writer::wrote_two))]
    pub(crate) fn arguments(&self, out: &mut Out, exprs: &List<Expr>)
        ensures { Wrote self.now out.old out.new (arguments exprs.now) }
    {
        self.expressions(out, exprs);
        self.mark(out, Mark::CloseParenthesis);
    }

    /// Parameters, with the closing parenthesis.
    #[tactic(auto, using(crate::proofs::Writer::wrote_two))]
    pub(crate) fn parameters(&self, out: &mut Out, ats: &List<At>)
        ensures { Wrote self.now out.old out.new (parameters ats.now) }
    {
        self.names(out, ats);
        self.mark(out, Mark::CloseParenthesis);
    }

    /// The arguments of a start, with the closing parenthesis.
    #[tactic(auto, using(crate::proofs::Writer::wrote_two))]
    pub(crate) fn start_values(&self, out: &mut Out, nums: &List<Num>)
        ensures { Wrote self.now out.old out.new (start_values nums.now) }
    {
        self.numbers(out, nums);
        self.mark(out, Mark::CloseParenthesis);
    }

    /// The values of a `give`, with the semicolon.
    #[tactic(auto, using(crate::proofs::Writer::wrote_two))]
    pub(crate) fn values(&self, out: &mut Out, exprs: &List<Expr>)
        ensures { Wrote self.now out.old out.new (values exprs.now) }
    {
        self.expressions(out, exprs);
        self.mark(out, Mark::Semicolon);
    }

    /// Names behind an arrow, where there are some.
    #[tactic(auto, using(crate::proofs::Loops::wrote_to))]
    pub(crate) fn to(&self, out: &mut Out, ats: &List<At>)
        ensures { Wrote self.now out.old out.new (to ats.now) }
    {
        self.mark_if(out, ats.len() > 0, Mark::Arrow);
        self.names(out, ats);
    }

    /// The end of a call, with the names that get its results.
    #[tactic(auto, using(crate::proofs::Writer::wrote_two))]
    pub(crate) fn results(&self, out: &mut Out, ats: &List<At>)
        ensures { Wrote self.now out.old out.new (results ats.now) }
    {
        self.to(out, ats);
        self.mark(out, Mark::Semicolon);
    }
}
