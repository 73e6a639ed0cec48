// A walk over a text that collects its tokens.
ghost use Rattle.std.specs.Prelude.{◌≡◌, ◌+◌, ◌-◌, ◌<◌, ◌≤◌, ◌^◌, [], ◌∷◌, ◌++◌, length, drop, IfOk, OnOk};
ghost use Rattle.thread_tokens.specs.Scan.{after, beginning, ending_at, scan_of};
ghost use Rattle.thread_tokens.specs.Spelled.{IsOrderly};
ghost use Rattle.thread_tokens.specs.Steps.{HasRoom, GoesOn, going_on};

use crate::lexeme::piece;
use crate::names::Names;
use crate::place::{BEGINNING, after};
use crate::{Ending, Fault, Piece, Scanned};
use std::alloc::{AllocError, Global};
use thread_tree::{Place, Placed, Token};

/// What was collected so far, and where the rest of the text begins.
#[derive(Drop)]
struct Scanner {
    tokens: Vec<Placed>,
    names: Names,
    place: Place,
}

/// What one step met.
#[derive(Drop)]
enum Step {
    /// So many bytes were taken.
    Taken(usize),
    /// The tokens end.
    Ended(Ending),
}

/// How the tokens end at a fault.
fn ending_at(fault: Fault, place: Place) -> Ending
    ensures same { result ≡ ending_at fault place }
{
    match fault {
        Fault::BadToken => Ending::BadToken(place),
        Fault::NumberTooLarge => Ending::NumberTooLarge(place),
        Fault::TooLong => Ending::TooLong(place),
    }
}

impl Scanner {
    /// Nothing collected, at the beginning of a text.
    fn new(alloc: Global) -> Self
        ensures tokens { result.tokens.items ≡ [] }
        ensures names { result.names ≡ [] }
        ensures place { result.place ≡ beginning }
    {
        Scanner {
            tokens: Vec::new(alloc),
            names: Names::new(alloc),
            place: BEGINNING,
        }
    }

    /// Puts a token of these bytes behind the others, and goes behind it.
    fn push(&mut self, token: Token, bytes: &[u8]) -> Result<(), AllocError>
        requires lines { self.old.place.line + length bytes.now < 2 ^ 32 }
        requires columns { self.old.place.column + length bytes.now < 2 ^ 32 }
        ensures tokens { OnOk result (self.new.tokens.items ≡ self.old.tokens.items ++ record { token = token; place = self.old.place } ∷ []) }
        ensures place { OnOk result (self.new.place ≡ after self.old.place bytes.now) }
        ensures names { self.new.names ≡ self.old.names }
    {
        let place = self.place;
        self.tokens.push(Placed { token, place })?;
        self.place = after(place, bytes);
        Ok(())
    }

    /// Takes the piece at the head of the rest of the text.
    fn step(&mut self, rest: &[u8]) -> Result<Step, AllocError>
        requires more { 0 < length rest.now }
        requires room { HasRoom self.old.names self.old.place rest.now }
        ensures goes_on { IfOk result (λ step. GoesOn (going_on self.old.tokens.items self.old.names self.old.place rest.now) self.new.tokens.items self.new.names self.new.place rest.now step) }
    {
        match piece(rest) {
            Piece::Blank(length) => {
                self.place = after(self.place, &rest[..length]);
                Ok(Step::Taken(length))
            }
            Piece::Name(length, name) => {
                let index = self.names.index_of(name)?;
                self.push(Token::Name(index as u32), &rest[..length])?;
                Ok(Step::Taken(length))
            }
            Piece::Token(length, token) => {
                self.push(token, &rest[..length])?;
                Ok(Step::Taken(length))
            }
            Piece::Wrong(fault) => Ok(Step::Ended(ending_at(fault, self.place))),
        }
    }
    /// What was collected, with this ending.
    fn finish(self, alloc: Global, ending: Ending) -> Result<Scanned, AllocError>
        ensures tokens { IfOk result (λ scanned. scanned.tokens.items ≡ self.tokens.items) }
        ensures names { IfOk result (λ scanned. scanned.names ≡ self.names) }
        ensures ending { IfOk result (λ scanned. scanned.ending ≡ ending) }
    {
        let names = self.names.into_list(alloc)?;
        Ok(Scanned {
            tokens: self.tokens,
            names,
            ending,
        })
    }
}

/// The text without so many bytes at its head.
fn behind(text: &[u8], taken: usize) -> &[u8]
    requires within { taken ≤ length text.now }
    ensures same { result.now ≡ drop taken text.now }
{
    &text[taken..]
}

/// The tokens of a text, up to its end or to the first token that is none or passes a bound.
///
/// # Errors
///
/// Want of memory.
pub fn scan(alloc: Global, text: &[u8]) -> Result<Scanned, AllocError>
    requires short { length text.now < 2 ^ 32 - 1 }
    ensures tokens { IfOk result (λ scanned. scanned.tokens.items ≡ (scan_of text.now).tokens) }
    ensures names { IfOk result (λ scanned. scanned.names ≡ (scan_of text.now).names) }
    ensures ending { IfOk result (λ scanned. scanned.ending ≡ (scan_of text.now).ending) }
    ensures orderly { IfOk result (λ scanned. IsOrderly scanned.names scanned.tokens.items) }
{
    let mut scanner = Scanner::new(alloc);
    let mut rest = text;
    while !rest.is_empty() {
        match scanner.step(rest)? {
            Step::Taken(taken) => rest = behind(rest, taken),
            Step::Ended(ending) => {
                let scanned = scanner.finish(alloc, ending)?;
                return Ok(scanned);
            }
        }
    }
    let ending = Ending::End(scanner.place);
    let scanned = scanner.finish(alloc, ending)?;
    Ok(scanned)
}
