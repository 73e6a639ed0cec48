use crate::{Op, Place, Text};

/// A token of a text (docs/LANGUAGE.md, "Tokens").
#[derive(Debug, Drop)]
pub enum Token {
    /// A name, as an index into the distinct names of the text in order of their first place.
    Name(u32),
    Number(u32),
    Text(Text),
    Word(Word),
    Mark(Mark),
    Operator(Op),
}

/// A token with the place of its first byte.
#[derive(Debug, Drop)]
pub struct Placed {
    pub token: Token,
    pub place: Place,
}

/// A word of the language, which is no name. `Own` is `self`.
#[derive(Clone, Copy, Debug, Drop, PartialEq)]
pub enum Word {
    Type,
    Object,
    Queue,
    Input,
    Semaphore,
    Max,
    Fn,
    Thread,
    Priority,
    Start,
    Let,
    If,
    Else,
    While,
    Ploop,
    Break,
    Return,
    Atomic,
    Give,
    Abort,
    New,
    Free,
    Spawn,
    Delete,
    Delay,
    Setprio,
    Getprio,
    Own,
    Send,
    Receive,
    Take,
    Print,
    Now,
    Yield,
    Waiting,
}

/// A mark that is no operator.
#[derive(Clone, Copy, Debug, Drop, PartialEq)]
pub enum Mark {
    OpenBrace,
    CloseBrace,
    OpenParenthesis,
    CloseParenthesis,
    OpenBracket,
    CloseBracket,
    Semicolon,
    Comma,
    Colon,
    Dot,
    Equals,
    Arrow,
}
