ghost use Rattle.std.specs.Prelude.{◌≡◌};
ghost use Rattle.thread_check.specs.Expressions.{known, field_rule, expression, expressions};

use crate::fault::CheckFault;
use crate::names::Names;
use crate::scope::Scope;
use crate::sort::Sort;
use thread_tree::{At, Expr, FieldOf, List};

/// A field that must be found in its type.
#[tactic(auto, unfolding(crate::specs::Expressions::known))]
fn known(field: At, found: bool) -> Result<(), CheckFault>
    ensures { result ≡ known field found }
{
    if found {
        Ok(())
    } else {
        Err(CheckFault::UnknownName(field.place))
    }
}

impl<'a> Names<'a> {
    /// A field of a static object, or of an object through a local.
    #[tactic(auto, unfolding(crate::specs::Expressions::field_rule))]
    pub(crate) fn field(&self, scope: &Scope, field: FieldOf) -> Result<(), CheckFault>
        ensures { result ≡ field_rule self.now scope.now field }
    {
        match field {
            FieldOf::Static(object, name) => {
                self.used(scope, Sort::Object, object)?;
                known(name, self.object_has_field(object.name, name.name))
            }
            FieldOf::Through(local, kind, name) => {
                self.used(scope, Sort::Local, local)?;
                self.used(scope, Sort::Kind, kind)?;
                known(name, self.has_field(kind.name, name.name))
            }
        }
    }

    /// The names of an expression.
    pub(crate) fn expression(&self, scope: &Scope, expr: &Expr) -> Result<(), CheckFault>
        ensures { result ≡ expression self.now scope.now expr.now }
    {
        match expr {
            Expr::Num(_) => Ok(()),
            Expr::Local(at) => self.used(scope, Sort::Local, *at),
            Expr::Field(field) => self.field(scope, *field),
            Expr::Prefix(_, operand) => self.expression(scope, operand),
            Expr::Binary(_, left, right) => {
                self.expression(scope, left)?;
                self.expression(scope, right)
            }
        }
    }

    /// The names of expressions from left to right.
    #[tactic(auto, using(crate::proofs::Steps::drop_at))]
    pub(crate) fn expressions(&self, scope: &Scope, exprs: &List<Expr>) -> Result<(), CheckFault>
        ensures { result ≡ expressions self.now scope.now exprs.now }
    {
        for i in 0..exprs.len() {
            match self.expression(scope, exprs.get(i)) {
                Ok(()) => {}
                Err(fault) => return Err(fault),
            }
        }
        Ok(())
    }
}
