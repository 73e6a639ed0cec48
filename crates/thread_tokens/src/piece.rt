use thread_tree::{Name, Token};

/// Why the tokens of a text end before its end.
#[derive(Clone, Copy, Debug, Drop, PartialEq)]
pub enum Fault {
    BadToken,
    NumberTooLarge,
    TooLong,
}

/// What stands at the head of a text.
#[derive(Debug, Drop)]
pub enum Piece {
    /// So many bytes that separate tokens.
    Blank(usize),
    /// A name of at most 24 bytes, and how many bytes it has.
    Name(usize, Name),
    /// Another token, and how many bytes it has.
    Token(usize, Token),
    /// No token, or one that passes a bound.
    Wrong(Fault),
}
