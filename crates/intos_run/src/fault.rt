// A fault of a program, as it is named behind its place.
use thread_check::Kind;

/// What is wrong with a program (docs/LANGUAGE.md, "Faults").
#[derive(Clone, Copy, Debug, Drop, PartialEq)]
pub enum Fault {
    /// No token begins there.
    BadToken,
    /// A number above 4,294,967,295.
    NumberTooLarge,
    /// A name, a string, an expression or a nesting beyond its bound.
    TooLong,
    /// No program goes on so.
    Expected,
    /// A name that isn't in scope.
    UnknownName,
    /// A name that is taken.
    TwiceNamed,
    /// A name of another kind, or a word that can't stand there.
    NotAllowedHere,
    /// Another number of arguments, results or given values.
    WrongCount,
    /// A number out of its range.
    OutOfRange(u32),
    /// A limit was passed, by this count.
    TooMany(Kind, u32),
}
