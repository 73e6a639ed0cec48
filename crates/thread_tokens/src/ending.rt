use thread_tree::Place;

/// How the tokens of a text end.
#[derive(Clone, Copy, Debug, Drop, PartialEq)]
pub enum Ending {
    /// At the end of the text, which is behind its last byte.
    End(Place),
    /// At a byte where no token begins, or at the quote of a string that isn't closed.
    BadToken(Place),
    /// At a number above 4,294,967,295.
    NumberTooLarge(Place),
    /// At a name of more than 24 bytes or a string of more than 64.
    TooLong(Place),
}
