use crate::{At, Expr, Item, List, Needed, Who};

/// A piece of a call, which fills a place of its own kind ([`crate::Slot`]).
#[derive(Clone, Copy, Debug, Drop)]
pub enum Piece<'a> {
    Name(Needed, At),
    Value(&'a Expr),
    Whom(&'a Who),
    Items(&'a List<Item>),
    Application(At, &'a List<Expr>),
}
