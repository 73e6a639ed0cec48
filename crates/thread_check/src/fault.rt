use thread_tree::Place;

/// Which limit a program passes.
#[derive(Clone, Copy, Debug, Drop, PartialEq)]
pub enum Kind {
    Types,
    Objects,
    Queues,
    Semaphores,
    Functions,
    Threads,
    Starts,
    Loops,
    Parameters,
    Fields,
    Items,
    Scope,
    Locals,
    Nesting,
}

/// Why a program isn't accepted, and where (docs/LANGUAGE.md, "Faults").
#[derive(Clone, Copy, Debug, Drop, PartialEq)]
pub enum CheckFault {
    /// A name isn't in scope, or a field isn't one of its type.
    UnknownName(Place),
    /// A declared name is in scope, a field or a name after `->` stands twice, or a channel is taken.
    TwiceNamed(Place),
    /// A name of another kind than its place needs, or a word that may not stand here.
    NotAllowedHere(Place),
    /// Another number of arguments, results or given words than is wanted.
    WrongCount(Place),
    /// A number that its place doesn't allow.
    OutOfRange(Place, u32),
    /// A count that passed its limit.
    TooMany(Place, Kind, u32),
    /// There was no memory for the check.
    NoMemory,
}
