// Why a run isn't begun: its status and its line.
ghost use Rattle.std.specs.Prelude.{◌≡◌, ◌<◌, ◌≤◌, ◌+◌, ◌++◌, [], ◌∷◌, length};
ghost use Rattle.outer_world.specs.Causes.{HasCause};
ghost use Rattle.outer_world.specs.Written.{Puts};
ghost use Rattle.intos_run.specs.Refusals.{status_of, line_of, kind_name, fault_text, faulty_line, refusal_of_text, refusal_of_check};

use crate::fault::Fault;
use kernel_dump::Line;
use outer_world::{Sink, SinkFault};
use thread_check::{CheckFault, Kind};
use thread_text::TextFault;
use thread_tree::Place;

/// Why a run isn't begun (docs/PROGRAM.md).
#[derive(Clone, Copy, Debug, Drop, PartialEq)]
pub enum Refusal {
    /// The words of the command line aren't the defined words.
    Usage,
    /// The program couldn't be read.
    ProgramUnread,
    /// The program has more than 65,536 bytes.
    ProgramTooLong,
    /// The program has a fault at this place.
    Faulty(Place, Fault),
    /// The program isn't served today.
    ProgramNotYet,
    /// There was no memory.
    NoMemory,
}

/// The refusal of a text that has no tree.
pub fn refusal_of_text(fault: TextFault) -> Refusal
    ensures same { result ≡ refusal_of_text fault }
{
    match fault {
        TextFault::BadToken(place) => Refusal::Faulty(place, Fault::BadToken),
        TextFault::Expected(place) => Refusal::Faulty(place, Fault::Expected),
        TextFault::NumberTooLarge(place) => Refusal::Faulty(place, Fault::NumberTooLarge),
        TextFault::TooLong(place) => Refusal::Faulty(place, Fault::TooLong),
        TextFault::NoMemory => Refusal::NoMemory,
    }
}

/// The refusal of a tree that breaks a rule.
pub fn refusal_of_check(fault: CheckFault) -> Refusal
    ensures same { result ≡ refusal_of_check fault }
{
    match fault {
        CheckFault::UnknownName(place) => Refusal::Faulty(place, Fault::UnknownName),
        CheckFault::TwiceNamed(place) => Refusal::Faulty(place, Fault::TwiceNamed),
        CheckFault::NotAllowedHere(place) => Refusal::Faulty(place, Fault::NotAllowedHere),
        CheckFault::WrongCount(place) => Refusal::Faulty(place, Fault::WrongCount),
        CheckFault::OutOfRange(place, number) => {
            Refusal::Faulty(place, Fault::OutOfRange(number))
        }
        CheckFault::TooMany(place, kind, count) => {
            Refusal::Faulty(place, Fault::TooMany(kind, count))
        }
        CheckFault::NoMemory => Refusal::NoMemory,
    }
}

/// The name of what there is too much of.
fn kind_name(kind: Kind) -> &'static str
    ensures name { result.now ≡ kind_name kind }
    ensures short { length result.now ≤ 10 }
{
    match kind {
        Kind::Types => "types",
        Kind::Objects => "objects",
        Kind::Queues => "queues",
        Kind::Semaphores => "semaphores",
        Kind::Functions => "functions",
        Kind::Threads => "threads",
        Kind::Starts => "starts",
        Kind::Loops => "loops",
        Kind::Parameters => "parameters",
        Kind::Fields => "fields",
        Kind::Items => "items",
        Kind::Scope => "scope",
        Kind::Locals => "locals",
        Kind::Nesting => "nesting",
    }
}

/// The line with a fault behind it, and its further values.
fn with_fault(line: Line, fault: Fault) -> Line
    requires room { length line < 64 }
    ensures text { result ≡ line ++ fault_text fault }
    ensures room { length result < 128 }
{
    match fault {
        Fault::BadToken => line.word("BadToken"),
        Fault::NumberTooLarge => line.word("NumberTooLarge"),
        Fault::TooLong => line.word("TooLong"),
        Fault::Expected => line.word("Expected"),
        Fault::UnknownName => line.word("UnknownName"),
        Fault::TwiceNamed => line.word("TwiceNamed"),
        Fault::NotAllowedHere => line.word("NotAllowedHere"),
        Fault::WrongCount => line.word("WrongCount"),
        Fault::OutOfRange(number) => line.word("OutOfRange ").number(number),
        Fault::TooMany(kind, count) => line
            .word("TooMany ")
            .word(kind_name(kind))
            .word(" ")
            .number(count),
    }
}

/// The line of a program's fault and its place.
#[tactic(auto, unfolding(crate::specs::Refusals::faulty_line))]
fn faulty(place: Place, fault: Fault) -> Line
    ensures text { result ≡ faulty_line place fault }
    ensures room { length result < 128 }
{
    let line = Line::new("program ")
        .number(place.line)
        .word(":")
        .number(place.column)
        .word(" ");
    with_fault(line, fault)
}

impl Refusal {
    /// The status with which the program ends.
    pub fn status(self) -> u8
        ensures status { result ≡ status_of self }
    {
        match self {
            Refusal::Usage => 2,
            Refusal::ProgramUnread => 3,
            Refusal::ProgramTooLong => 4,
            Refusal::Faulty(_, _) => 4,
            Refusal::ProgramNotYet => 4,
            Refusal::NoMemory => 7,
        }
    }

    /// The line that says it, without its newline.
    fn line(self) -> Line
        ensures line { result ≡ line_of self }
        ensures room { length result < 128 }
    {
        match self {
            Refusal::Usage => Line::new("usage: intos run PROGRAM STEPS [CUT ..]"),
            Refusal::ProgramUnread => Line::new("cannot read program"),
            Refusal::ProgramTooLong => Line::new("program TooLong"),
            Refusal::Faulty(place, fault) => faulty(place, fault),
            Refusal::ProgramNotYet => Line::new("program NotYet"),
            Refusal::NoMemory => Line::new("no memory"),
        }
    }

    /// Writes the line.
    ///
    /// # Errors
    ///
    /// `SinkFault` where the sink didn't take all of it.
    pub fn put<S: Sink>(self, sink: &mut S) -> Result<(), SinkFault>
        ensures puts { Puts result (S.bytes sink.old) (S.bytes sink.new) (line_of self ++ 10 ∷ []) }
        ensures cause { HasCause (S.faults sink.old) (S.faults sink.new) result }
    {
        self.line().put(sink)?;
        Ok(())
    }
}
