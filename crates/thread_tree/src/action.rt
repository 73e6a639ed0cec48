use crate::{At, Expr, List, Place, Text};

/// A kernel call with its operands (docs/LANGUAGE.md, "Calls").
#[derive(Debug, Drop)]
pub enum Call {
    Print(List<Item>),
    Spawn(At, List<Expr>),
    Delete(Who),
    Delay(Expr),
    Setprio(Who, Expr),
    Getprio(Who),
    Send(At, Expr, Expr),
    Receive(At, Expr),
    Take(At, Expr),
    Give(At),
    Now,
    Yield,
    Waiting(At),
}

/// An item of a `print`, with the place of its first byte.
#[derive(Debug, Drop)]
pub enum Item {
    Text(Place, Text),
    Value(Place, Expr),
}

/// The thread that a call speaks of: the caller, or the one of this number.
#[derive(Debug, Drop)]
pub enum Who {
    Own,
    Of(Expr),
}
