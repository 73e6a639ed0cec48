use crate::{At, Box};

/// An operator. All but the last two stand between two operands.
#[derive(Clone, Copy, Debug, Drop, PartialEq)]
pub enum Op {
    Or,
    Xor,
    And,
    Same,
    Other,
    Less,
    AtMost,
    More,
    AtLeast,
    Left,
    Right,
    Plus,
    Minus,
    Times,
    Over,
    Rest,
    Not,
    Flip,
}

/// A field of a persistent object: of a static one by its name, or through a local that holds
/// the place of an object of the named type.
#[derive(Clone, Copy, Debug, Drop)]
pub enum FieldOf {
    Static(At, At),
    Through(At, At, At),
}

/// An expression. Its value is a number below 2^32 (docs/LANGUAGE.md, "Values").
#[derive(Debug, Drop)]
pub enum Expr {
    Num(u32),
    Local(At),
    Field(FieldOf),
    Prefix(Op, Box<Expr>),
    Binary(Op, Box<Expr>, Box<Expr>),
}
