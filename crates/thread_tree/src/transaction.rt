use crate::{At, Expr, FieldOf, List, Place};

/// Statements of an `atomic` block in braces, with the place of the opening one.
#[cycle(tstmts)]
#[derive(Debug, Drop)]
pub struct TBlock {
    pub place: Place,
    pub stmts: List<TStmt>,
}

/// A statement inside of `atomic`.
#[cycle(tstmts)]
#[derive(Debug, Drop)]
pub enum TStmt {
    Let(At, Expr),
    LetNew(At, At),
    Set(At, Expr),
    SetNew(At, At),
    Store(FieldOf, Expr),
    Free(Expr),
    If(Expr, TBlock, Option<TBlock>),
    While(Expr, TBlock),
    Break(Place),
    Abort(Place),
    Give(Place, List<Expr>),
}
