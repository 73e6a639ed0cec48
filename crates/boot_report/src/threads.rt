// The lines of the live threads.
ghost use Rattle.std.specs.Prelude.{◌≡◌, ◌+◌, ◌<◌, ◌≤◌, [], ◌∷◌, ◌++◌, length, IfSome};
ghost use Rattle.outer_world.specs.Causes.{HasCause};
ghost use Rattle.outer_world.specs.Written.{Puts};
ghost use Rattle.thread_tree.specs.LocalState.{locals_of};
ghost use Rattle.thread_tree.specs.Program.{program_of};
ghost use Rattle.thread_machine.specs.Context.{local_of};
ghost use Rattle.thread_machine.specs.Reached.{IsContext};
ghost use Rattle.kernel_image.specs.Decoded.{image_in, row_at};
ghost use Rattle.kernel_model.specs.Dump.{text_of};
ghost use Rattle.kernel_model.specs.Kernel.{State};
ghost use Rattle.replay_list.specs.Stands.{KernelStands};
ghost use Rattle.boot_report.specs.Lines.{locals_text, thread_lines};
ghost use Rattle.boot_report.specs.Parts.{found_in, line_by, lines_by, local_text};

use kernel_dump::{Line, Sort, bytes_of, name_at};
use kernel_image::{Cell, TEMPLATE, load};
use outer_world::{Sink, SinkFault};
use thread_check::Checked;
use thread_machine::{Contexts, Ctx};
use thread_tree::{LOCALS, Local, ROWS};
use undo_journal::Words;

// A line with a local and its value behind it.
#[tactic(auto, using(crate::proofs::LawSets::text_laws))]
fn with_local(line: Line, program: &Checked, local: Local) -> Line
    requires room { length line ≤ 1900 }
    ensures text { result ≡ line ++ local_text (program_of program.now) local }
    ensures len { length result ≤ length line + 36 }
{
    line.word(" ")
        .bytes(bytes_of(program, local.name))
        .word("=")
        .number(local.value)
}

// A line with locals behind it.
fn with_locals(line: Line, program: &Checked, locals: &[Local]) -> Line
    requires few { length locals.now ≤ LOCALS }
    requires room { length line ≤ 100 }
    ensures text { result ≡ line ++ locals_text (program_of program.now) locals.now }
    ensures len { length result < 2048 }
{
    let mut line = line;
    for at in 0..locals.len() {
        line = with_local(line, program, locals[at]);
    }
    line
}

// The line of a thread of this template with these locals.
#[tactic(auto, unfolding(crate::specs::Parts::line_by))]
fn line_of(number: u32, program: &Checked, thread: u32, template: u32, locals: &[Local]) -> Line
    requires few { length locals.now ≤ LOCALS }
    ensures text { result ≡ line_by number (program_of program.now) thread template locals.now }
    ensures len { length result < 2048 }
{
    let line = Line::new("boot ")
        .number(number)
        .word(" thread ")
        .number(thread)
        .word(" ")
        .bytes(name_at(program, Sort::Template, template))
        .word(":");
    with_locals(line, program, locals)
}

// The line of a thread that has this context.
#[tactic(auto, using(kernel_image::proofs::Callers::image_laws))]
fn line_in<W: Words>(words: &W, ctx: &Ctx, program: &Checked, number: u32, thread: u32) -> Line
    requires thread { thread < ROWS }
    requires context { IsContext (program_of program.now) ctx.now }
    ensures text { result ≡ line_by number (program_of program.now) thread (row_at (image_in (W.present words.now)) thread).template (locals_of (local_of (program_of program.now) ctx.now)) }
    ensures len { length result < 2048 }
{
    let template = load(words, Cell::RowWord(thread, TEMPLATE));
    let locals = ctx.locals(program);
    line_of(number, program, thread, template, locals.as_slice())
}

// Puts the line of a thread that has this context.
fn put_thread<W: Words, S: Sink>(
    words: &W,
    ctx: &Ctx,
    program: &Checked,
    sink: &mut S,
    number: u32,
    thread: u32,
) -> Result<(), SinkFault>
    requires thread { thread < ROWS }
    requires context { IsContext (program_of program.now) ctx.now }
    ensures puts { Puts result (S.bytes sink.old) (S.bytes sink.new)
        (text_of (line_by number (program_of program.now) thread (row_at (image_in (W.present words.now)) thread).template (locals_of (local_of (program_of program.now) ctx.now)) ∷ [])) }
    ensures cause { HasCause (S.faults sink.old) (S.faults sink.new) result }
{
    line_in(words, ctx, program, number, thread).put(sink)?;
    Ok(())
}

// Puts the line of a thread, if it has a context.
fn put_row<W: Words, S: Sink>(
    words: &W,
    contexts: &Contexts,
    program: &Checked,
    sink: &mut S,
    number: u32,
    thread: u32,
) -> Result<(), SinkFault>
    requires thread { thread < ROWS }
    requires context { IfSome (found_in contexts.now thread) (IsContext (program_of program.now)) }
    ensures puts { Puts result (S.bytes sink.old) (S.bytes sink.new)
        (text_of (lines_by number (program_of program.now) thread (row_at (image_in (W.present words.now)) thread).template (found_in contexts.now thread))) }
    ensures cause { HasCause (S.faults sink.old) (S.faults sink.new) result }
{
    match contexts.get(thread) {
        Some(ctx) => {
            put_thread(words, ctx, program, sink, number, thread)?;
            Ok(())
        }
        None => Ok(()),
    }
}

/// Puts the lines of the live threads, in order of their numbers.
pub(crate) fn put_threads<W: Words, S: Sink>(
    words: &W,
    contexts: &Contexts,
    program: &Checked,
    sink: &mut S,
    number: u32,
) -> Result<(), SinkFault>
    requires stands { (K : State) × KernelStands (program_of program.now) (image_in (W.present words.now)) contexts.now K }
    ensures puts { (K : State) → KernelStands (program_of program.now) (image_in (W.present words.now)) contexts.now K
        → Puts result (S.bytes sink.old) (S.bytes sink.new) (text_of (thread_lines number (program_of program.now) 0 K.rows)) }
    ensures cause { HasCause (S.faults sink.old) (S.faults sink.new) result }
{
    for thread in 0..ROWS as u32 {
        put_row(words, contexts, program, sink, number, thread)?;
    }
    Ok(())
}
