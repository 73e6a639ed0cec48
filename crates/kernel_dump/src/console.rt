// The lines of the console.
ghost use Rattle.std.specs.Prelude.{◌≡◌, ◌≢◌, ◌+◌, ◌<◌, ◌≤◌, [], ◌∷◌, ℕ, length, map, slice_index};
ghost use Rattle.outer_world.specs.Causes.{count_after, HasCause};
ghost use Rattle.outer_world.specs.Written.{Puts};
ghost use Rattle.kernel_model.specs.Dump.{console_line, console_lines, console_size_line, text_of};
ghost use Rattle.kernel_image.specs.Decoded.{image_in};
ghost use Rattle.console_store.specs.Console.{bytes_in};

use crate::line::Line;
use arrayvec::ArrayVec;
use console_store::{byte, length};
use outer_world::{Sink, SinkFault};
use thread_tree::CONSOLE_BYTES;
use undo_journal::Words;

/// The most bytes of a console.
const CONSOLE_ROOM: usize = CONSOLE_BYTES as usize;

/// The most bytes of a line of the console with the mark before it and its newline.
const LINE_ROOM: usize = CONSOLE_ROOM + 3;

// The bytes of the console.
fn read_console<W: Words>(words: &W) -> ArrayVec<u8, CONSOLE_ROOM>
    requires few { (image_in (W.present words.now)).console_length ≤ CONSOLE_BYTES }
    ensures bytes { result.items ≡ bytes_in (image_in (W.present words.now)) }
{
    let mut bytes = ArrayVec::new();
    for at in 0..length(words) {
        bytes.push(byte(words, at));
    }
    bytes
}

// How many bytes the first line of a console has, without its newline.
fn line_len(console: &[u8]) -> usize
    ensures within { result ≤ length console.now }
    ensures one_line { (k : ℕ) → k < result → slice_index console.now k ≢ 10 }
    ensures newline { result < length console.now → slice_index console.now result ≡ 10 }
{
    console
        .iter()
        .position(|byte| *byte == b'\n')
        .unwrap_or(console.len())
}

// The first line of a console, without its newline, and what is behind it.
fn split_line(console: &[u8]) -> (&[u8], &[u8])
    requires some { 0 < length console.now }
    ensures lines { console_lines console.now ≡ result.0.now ∷ console_lines result.1.now }
    ensures short { length result.0.now ≤ length console.now }
    ensures shorter { length result.1.now < length console.now }
{
    let len = line_len(console);
    if len < console.len() {
        (&console[..len], &console[len + 1..])
    } else {
        (console, &[])
    }
}

// A line of the console as the dump shows it, with its newline.
#[tactic(auto, unfolding(kernel_model::specs::Dump::console_line))]
fn marked(line: &[u8]) -> ArrayVec<u8, LINE_ROOM>
    requires short { length line.now ≤ CONSOLE_ROOM }
    ensures text { result.items ≡ text_of (console_line line.now ∷ []) }
{
    let mut text = ArrayVec::new();
    text.push(b'|');
    text.push(b' ');
    text.try_extend_from_slice(line).unwrap();
    text.push(b'\n');
    text
}

// Puts a line of the console.
fn put_console_line<S: Sink>(line: &[u8], sink: &mut S) -> Result<(), SinkFault>
    requires short { length line.now ≤ CONSOLE_ROOM }
    ensures puts { Puts result (S.bytes sink.old) (S.bytes sink.new) (text_of (console_line line.now ∷ [])) }
    ensures cause { HasCause (S.faults sink.old) (S.faults sink.new) result }
    ensures one_piece { S.pieces sink.new ≡ count_after 1 (S.pieces sink.old) }
{
    sink.put(marked(line).as_slice())?;
    Ok(())
}

// Puts the lines of the console.
fn put_console_lines<S: Sink>(console: &[u8], sink: &mut S) -> Result<(), SinkFault>
    requires short { length console.now ≤ CONSOLE_ROOM }
    ensures puts { Puts result (S.bytes sink.old) (S.bytes sink.new)
        (text_of (map console_line (console_lines console.now))) }
    ensures cause { HasCause (S.faults sink.old) (S.faults sink.new) result }
{
    let mut rest = console;
    while !rest.is_empty() {
        let (line, later) = split_line(rest);
        put_console_line(line, sink)?;
        rest = later;
    }
    Ok(())
}

// Puts the line of the console's length in bytes.
#[tactic(auto, unfolding(kernel_model::specs::Dump::console_size_line))]
fn put_console_size<S: Sink>(len: u32, sink: &mut S) -> Result<(), SinkFault>
    ensures puts { Puts result (S.bytes sink.old) (S.bytes sink.new) (text_of (console_size_line len ∷ [])) }
    ensures cause { HasCause (S.faults sink.old) (S.faults sink.new) result }
{
    Line::new("console ").number(len).put(sink)?;
    Ok(())
}

// Puts the console: the line of its length, and its lines.
#[tactic(auto, using(crate::proofs::PutInParts::parts))]
fn put_bytes<S: Sink>(console: &[u8], sink: &mut S) -> Result<(), SinkFault>
    requires short { length console.now ≤ CONSOLE_ROOM }
    ensures puts { Puts result (S.bytes sink.old) (S.bytes sink.new)
        (text_of (console_size_line (length console.now) ∷ map console_line (console_lines console.now))) }
    ensures cause { HasCause (S.faults sink.old) (S.faults sink.new) result }
{
    put_console_size(console.len() as u32, sink)?;
    put_console_lines(console, sink)?;
    Ok(())
}

/// Puts the console: the line of its length, and its lines.
pub fn put_console<W: Words, S: Sink>(words: &W, sink: &mut S) -> Result<(), SinkFault>
    requires few { (image_in (W.present words.now)).console_length ≤ CONSOLE_BYTES }
    ensures puts { Puts result (S.bytes sink.old) (S.bytes sink.new)
        (text_of (console_size_line (length (bytes_in (image_in (W.present words.now)))) ∷ map console_line (console_lines (bytes_in (image_in (W.present words.now)))))) }
    ensures cause { HasCause (S.faults sink.old) (S.faults sink.new) result }
{
    let console = read_console(words);
    put_bytes(console.as_slice(), sink)?;
    Ok(())
}
