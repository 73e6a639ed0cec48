ghost use Rattle.std.specs.Prelude.{◌≡◌, ◌<◌, ◌-◌, ◌^◌, IfOk, IfErr, length, [], List};
ghost use Rattle.thread_tree.specs.SpellingOfDeclarations.{SpellsProgram};
ghost use Rattle.thread_tokens.specs.Scan.{scan_of};
ghost use Rattle.thread_print.specs.Rescanned.{IsParsed};
ghost use Rattle.thread_text.specs.Fate.{Whole, StuckAt, LongAt};
ghost use Rattle.thread_text.specs.Refusals.{Explains};
ghost use Rattle.thread_text.specs.Verdict.{Answers, Faulty, verdict, owed_at, whole_at, stuck_at, long_at};

use crate::cursor::Cursor;
use crate::{Halt, TextFault};
use std::alloc::Global;
use thread_tokens::{Ending, Scanned, scan};
use thread_tree::{Decl, List, Placed, Tree};

/// The tree of a program's text.
///
/// The text is shorter than 2^32 - 1 bytes.
///
/// # Errors
///
/// The first fault of the text, or want of memory.
pub fn parse(alloc: Global, text: &[u8]) -> Result<Tree, TextFault>
    requires short { length text.now < 2 ^ 32 - 1 }
    // What is read is spelled so, with the names of the text.
    ensures ok { IfOk result (λ tree. SpellsProgram (scan_of text.now).tokens tree.decls) }
    ensures names { IfOk result (λ tree. tree.names ≡ (scan_of text.now).names) }
    // So it can be printed and read again.
    ensures parsed { IfOk result IsParsed }
    // Which fault it is, and that there is none where it is read.
    ensures answer { Answers result (verdict (scan_of text.now).tokens (scan_of text.now).ending) }
    // What a fault says of the grammar.
    ensures explained { IfErr result (Explains (scan_of text.now).tokens (scan_of text.now).ending) }
{
    answered(alloc, text)
}

/// The tree of a program's text, or its fault.
fn answered(alloc: Global, text: &[u8]) -> Result<Tree, TextFault>
    requires short { length text.now < 2 ^ 32 - 1 }
    ensures ok { IfOk result (λ tree. SpellsProgram (scan_of text.now).tokens tree.decls) }
    ensures names { IfOk result (λ tree. tree.names ≡ (scan_of text.now).names) }
    ensures answer { Answers result (verdict (scan_of text.now).tokens (scan_of text.now).ending) }
{
    let Ok(scanned) = scan(alloc, text) else {
        return Err(TextFault::NoMemory);
    };
    let Scanned {
        tokens,
        names,
        ending,
    } = scanned;
    let decls = parse_tokens(alloc, &tokens, ending)?;
    Ok(Tree { names, decls })
}

/// The declarations that these tokens spell, which end so.
#[tactic(auto, unfolding(crate::specs::Verdict::verdict, crate::specs::Fate::ahead))]
fn parse_tokens(alloc: Global, tokens: &[Placed], ending: Ending) -> Result<List<Decl>, TextFault>
    ensures spelled { IfOk result (λ decls. SpellsProgram tokens.now decls) }
    ensures answer { Answers result (verdict tokens.now ending) }
{
    let mut cursor = Cursor {
        rest: tokens,
        operators: 0,
        parentheses: 0,
        blocks: 0,
    };
    match cursor.declarations(alloc) {
        Ok(decls) => ended(decls, ending),
        Err(Halt::Stuck) => Err(stuck_at(cursor.rest, ending)),
        Err(Halt::Long) => Err(long_at(cursor.rest, ending)),
        Err(Halt::NoMemory) => Err(TextFault::NoMemory),
    }
}

/// These declarations, where the text ends behind them.
fn ended(decls: List<Decl>, ending: Ending) -> Result<List<Decl>, TextFault>
    ensures same { IfOk result (λ found. found ≡ decls) }
    ensures answer { Answers result (whole_at ending) }
{
    match ending {
        Ending::End(_) => Ok(decls),
        Ending::BadToken(place) => Err(TextFault::BadToken(place)),
        Ending::NumberTooLarge(place) => Err(TextFault::NumberTooLarge(place)),
        Ending::TooLong(place) => Err(TextFault::TooLong(place)),
    }
}

/// The fault where all tokens are used and more are owed.
fn owed_at(ending: Ending) -> TextFault
    ensures answer { Faulty result ≡ owed_at ending }
{
    match ending {
        Ending::End(place) => TextFault::Expected(place),
        Ending::BadToken(place) => TextFault::BadToken(place),
        Ending::NumberTooLarge(place) => TextFault::NumberTooLarge(place),
        Ending::TooLong(place) => TextFault::TooLong(place),
    }
}

/// The fault at a token that can't stand here.
fn stuck_at(left: &[Placed], ending: Ending) -> TextFault
    ensures answer { Faulty result ≡ stuck_at left.now ending }
{
    match left {
        [first, ..] => TextFault::Expected(first.place),
        [] => owed_at(ending),
    }
}

/// The fault at a token that passes a bound.
fn long_at(left: &[Placed], ending: Ending) -> TextFault
    ensures answer { Faulty result ≡ long_at left.now ending }
{
    match left {
        [first, ..] => TextFault::TooLong(first.place),
        [] => owed_at(ending),
    }
}
