ghost use Rattle.std.specs.Prelude.{◌≡◌, Option, List as Sequence};
ghost use Rattle.thread_print.specs.Canonical.{expression, field_tokens, is_compound};
ghost use Rattle.thread_print.specs.Wrote.{Wrote};

use crate::out::Out;
use crate::printer::Printer;
use thread_tree::{Expr, FieldOf, Mark};

/// Whether an operand stands in parentheses: a prefix or binary expression.
fn is_compound(expr: &Expr) -> bool
    ensures { result ≡ is_compound expr.now }
{
    match expr {
        Expr::Num(_) | Expr::Local(_) | Expr::Field(_) => false,
        Expr::Prefix(_, _) => true,
        Expr::Binary(_, _, _) => true,
    }
}

impl<'a> Printer<'a> {
    /// A field.
    #[tactic(auto, using(crate::proofs::Writer::wrote_two))]
    pub(crate) fn field(&self, out: &mut Out, field: FieldOf)
        ensures { Wrote self.now out.old out.new (field_tokens field) }
    {
        match field {
            FieldOf::Static(object, name) => {
                self.name(out, object);
                self.mark(out, Mark::Dot);
                self.name(out, name);
            }
            FieldOf::Through(local, kind, name) => {
                self.name(out, local);
                self.mark(out, Mark::Dot);
                self.name(out, kind);
                self.mark(out, Mark::Dot);
                self.name(out, name);
            }
        }
    }

    /// An expression.
    #[tactic(auto, using(crate::proofs::Writer::wrote_two))]
    pub(crate) fn expression(&self, out: &mut Out, expr: &Expr)
        ensures { Wrote self.now out.old out.new (expression expr.now) }
    {
        match expr {
            Expr::Num(value) => self.number(out, *value),
            Expr::Local(at) => self.name(out, *at),
            Expr::Field(field) => self.field(out, *field),
            Expr::Prefix(operator, operand) => {
                self.operator(out, *operator);
                self.mark_if(out, is_compound(operand), Mark::OpenParenthesis);
                self.expression(out, operand);
                self.mark_if(out, is_compound(operand), Mark::CloseParenthesis);
            }
            Expr::Binary(operator, left, right) => {
                self.mark_if(out, is_compound(left), Mark::OpenParenthesis);
                self.expression(out, left);
                self.mark_if(out, is_compound(left), Mark::CloseParenthesis);
                self.operator(out, *operator);
                self.mark_if(out, is_compound(right), Mark::OpenParenthesis);
                self.expression(out, right);
                self.mark_if(out, is_compound(right), Mark::CloseParenthesis);
            }
        }
    }
}
