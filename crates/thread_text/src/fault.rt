use thread_tree::Place;

/// Why a text is no program, with the place of the first byte of the token that it comes from.
#[derive(Clone, Copy, Debug, Drop, PartialEq)]
pub enum TextFault {
    /// No token begins here, or a string isn't closed.
    BadToken(Place),
    /// No program can have this token here; at the text's end the place is behind its last byte.
    Expected(Place),
    /// A number above 4,294,967,295.
    NumberTooLarge(Place),
    /// A name of more than 24 bytes, a string of more than 64, the 33rd operator or the 65th opening
    /// parenthesis of one expression, or the brace of the 25th block that is open at once.
    TooLong(Place),
    NoMemory,
}
