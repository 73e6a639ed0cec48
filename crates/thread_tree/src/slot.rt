use crate::Needed;

/// A place for a piece of a call (docs/LANGUAGE.md, "Calls").
#[derive(Clone, Copy, Debug, Drop, PartialEq)]
pub enum Slot {
    /// A name that is declared so.
    Name(Needed),
    /// An expression.
    Value,
    /// `self`, or the number of a thread.
    Whom,
    /// Items with commas between. They stand last.
    Items,
    /// A template's name with arguments in parentheses. They stand last.
    Application,
}
