use crate::{At, Call, Expr, List, Place, TBlock};

/// Statements in braces, with the place of the opening one.
#[cycle(stmts)]
#[derive(Debug, Drop)]
pub struct Block {
    pub place: Place,
    pub stmts: List<Stmt>,
}

/// A statement outside of `atomic`.
#[cycle(stmts)]
#[derive(Debug, Drop)]
pub enum Stmt {
    Let(At, Expr),
    Set(At, Expr),
    Apply(Option<At>, At, List<Expr>),
    If(Expr, Block, Option<Block>),
    While(Expr, Block),
    Ploop(Place, Block),
    Break(Place),
    Return(Place, Option<Expr>),
    Atomic(Place, List<At>, TBlock),
    Call(Place, Call, List<At>),
}
