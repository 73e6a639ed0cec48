// The expressions of `atomic` blocks that are served.
ghost use Rattle.std.specs.Prelude.{◌≡◌};
ghost use Rattle.std.specs.List.{list_all};
ghost use Rattle.served_program.specs.Served.{is_served_field, is_served_expr};

use thread_tree::{Expr, FieldOf, List};

/// Whether a field is one of a static object.
pub(crate) fn is_served_field(field: FieldOf) -> bool
    ensures served { result ≡ is_served_field field }
{
    match field {
        FieldOf::Static(_, _) => true,
        FieldOf::Through(_, _, _) => false,
    }
}

/// Whether an expression of an `atomic` block is served.
pub(crate) fn is_served_expr(expr: &Expr) -> bool
    ensures served { result ≡ is_served_expr expr.now }
{
    match expr {
        Expr::Num(_) => true,
        Expr::Local(_) => true,
        Expr::Field(field) => is_served_field(*field),
        Expr::Prefix(_, operand) => is_served_expr(operand),
        Expr::Binary(_, left, right) => is_served_expr(left) && is_served_expr(right),
    }
}

/// Whether all of these expressions of an `atomic` block are served.
#[tactic(auto, using(thread_check::proofs::Callers::drop_at))]
pub(crate) fn are_served(exprs: &List<Expr>) -> bool
    ensures served { result ≡ list_all is_served_expr exprs.now }
{
    for i in 0..exprs.len() {
        if !is_served_expr(exprs.get(i)) {
            return false;
        }
    }
    true
}
