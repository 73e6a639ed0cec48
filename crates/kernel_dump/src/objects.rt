// The lines of the objects.
ghost use Rattle.std.specs.Prelude.{◌≡◌, ◌+◌, ◌*◌, ◌<◌, ◌≤◌, ◌==◌, ◌++◌, length, map, slice_get, slice_index, filter, option_copied, IfSome, if◌then◌else◌, [], ◌∷◌};
ghost use Rattle.outer_world.specs.Causes.{HasCause};
ghost use Rattle.outer_world.specs.Written.{Puts};
ghost use Rattle.thread_tree.specs.Program.{program_of};
ghost use Rattle.kernel_model.specs.Dump.{object_line, object_lines, text_of};
ghost use Rattle.kernel_model.specs.Show.{bytes_of as bytes_in, names_of};
ghost use Rattle.kernel_image.specs.Decoded.{image_in, listed};
ghost use Rattle.kernel_image.specs.Shown.{is_begun as begins, object_at, objects_in};
ghost use Rattle.kernel_dump.specs.Parts.{fields_in, fields_text, is_of, lines_at, object_head};
ghost use Rattle.kernel_dump.specs.declared.sort.Sort.TheVariants as sort;

use crate::line::Line;
use crate::names::{bytes_of, field_count, field_name, name_at};
use crate::sort::Sort;
use kernel_image::{Cell, PLACES, Sort as Declared, load, nth_of};
use outer_world::{Sink, SinkFault};
use thread_check::Checked;
use thread_tree::Decl;
use undo_journal::Words;

// The word at a place of the heap, and 0 past its end.
#[tactic(auto, using(crate::proofs::LawSets::heap_laws))]
fn heap_word<W: Words>(words: &W, place: u32) -> u32
    ensures word { result ≡ slice_index (image_in (W.present words.now)).heap place }
{
    if place < 4_096 {
        load(words, Cell::HeapWord(place))
    } else {
        0
    }
}

// Whether an object begins at an even place.
#[tactic(auto, using(crate::proofs::LawSets::heap_laws))]
fn is_begun<W: Words>(words: &W, place: u32) -> bool
    requires within { place < 4096 }
    ensures is { result ≡ begins (image_in (W.present words.now)).live place }
{
    let bits = load(words, Cell::LiveWord(place / PLACES));
    (bits >> (place / 2 % 32)) % 2 == 1
}

// A line with the fields of an object behind it, whose type a declaration declares.
fn with_fields<W: Words>(line: Line, words: &W, program: &Checked, decl: &Decl, place: u32) -> Line
    requires few { length (fields_in decl.now) ≤ 10 }
    requires room { length line ≤ 100 }
    requires place { place < 4096 }
    ensures text { result ≡ line ++ fields_text (map (bytes_in (program_of program.now)) (fields_in decl.now))
        (listed (length (fields_in decl.now)) (λ field. slice_index (image_in (W.present words.now)).heap (place + 1 + field))) }
    ensures len { length result ≤ 460 }
{
    let mut line = line;
    for field in 0..field_count(decl) {
        let name = bytes_of(program, field_name(decl, field));
        let value = heap_word(words, place + 1 + field as u32);
        line = line.word(" ").bytes(name).word("=").number(value);
    }
    line
}

// The declaration of a type.
#[tactic(auto, using(crate::proofs::LawSets::kind_laws))]
fn kind_of(program: &Checked, kind: u32) -> Option<&Decl>
    ensures found { option_copied result ≡ slice_get (filter (is_of sort.Kind) (program.now).decls) kind }
    ensures few { IfSome result (λ decl. length (fields_in decl.now) ≤ 10) }
{
    let tree = program.tree();
    match nth_of(&tree.decls, Declared::Kind, kind) {
        Some(decl) => Some(decl),
        None => None,
    }
}

// The line of an object but for its fields.
#[tactic(auto, using(crate::proofs::LawSets::text_laws))]
fn object_start(program: &Checked, place: u32, kind: u32, is_static: bool) -> Line
    ensures text { result ≡ object_head (names_of (program_of program.now)) place kind is_static }
    ensures len { length result ≤ 100 }
{
    let line = Line::new("object ")
        .number(place)
        .word(" ")
        .bytes(name_at(program, Sort::Kind, kind));
    if is_static {
        line.word(" static")
    } else {
        line.word(" made")
    }
}

// The line of the object that begins at a place.
#[tactic(auto, using(crate::proofs::LawSets::object_laws))]
fn object<W: Words>(words: &W, program: &Checked, place: u32) -> Line
    requires within { place < 4096 }
    ensures text { result ≡ object_line (names_of (program_of program.now)) (object_at (program_of program.now) (image_in (W.present words.now)).heap place) }
    ensures room { length result < 2048 }
{
    let header = heap_word(words, place);
    let mark = header % 65_536;
    let kind = mark.saturating_sub(1);
    let line = object_start(program, place, kind, header >= 65_536);
    match kind_of(program, kind) {
        Some(decl) => with_fields(line, words, program, decl, place),
        None => line,
    }
}

// Puts the line of the object that begins at a place.
fn put_begun<W: Words, S: Sink>(
    words: &W,
    program: &Checked,
    place: u32,
    sink: &mut S,
) -> Result<(), SinkFault>
    requires within { place < 4096 }
    ensures puts { Puts result (S.bytes sink.old) (S.bytes sink.new)
        (text_of (object_line (names_of (program_of program.now)) (object_at (program_of program.now) (image_in (W.present words.now)).heap place) ∷ [])) }
    ensures cause { HasCause (S.faults sink.old) (S.faults sink.new) result }
{
    object(words, program, place).put(sink)?;
    Ok(())
}

// Puts the line of the object that begins at the place of this even number, if one does.
fn put_object<W: Words, S: Sink>(
    words: &W,
    program: &Checked,
    half: u32,
    sink: &mut S,
) -> Result<(), SinkFault>
    requires within { half < 2048 }
    ensures puts { Puts result (S.bytes sink.old) (S.bytes sink.new)
        (text_of (lines_at (names_of (program_of program.now)) (program_of program.now) (image_in (W.present words.now)).heap (image_in (W.present words.now)).live half)) }
    ensures cause { HasCause (S.faults sink.old) (S.faults sink.new) result }
{
    if !is_begun(words, 2 * half) {
        return Ok(());
    }
    put_begun(words, program, 2 * half, sink)
}

/// Puts the lines of all objects, in order of place.
pub fn put_objects<W: Words, S: Sink>(
    words: &W,
    program: &Checked,
    sink: &mut S,
) -> Result<(), SinkFault>
    ensures puts { Puts result (S.bytes sink.old) (S.bytes sink.new)
        (text_of (object_lines (names_of (program_of program.now)) (objects_in (program_of program.now) (image_in (W.present words.now)).heap (image_in (W.present words.now)).live))) }
    ensures cause { HasCause (S.faults sink.old) (S.faults sink.new) result }
{
    for half in 0..2_048 {
        put_object(words, program, half, sink)?;
    }
    Ok(())
}
