// The lines of the threads.
ghost use Rattle.std.specs.Prelude.{◌≡◌, ◌+◌, ◌<◌, ◌≤◌, [], ◌∷◌, ◌++◌, length, map, codes};
ghost use Rattle.std.specs.Fmt.{decimal};
ghost use Rattle.outer_world.specs.Causes.{HasCause};
ghost use Rattle.outer_world.specs.Written.{Puts};
ghost use Rattle.thread_tree.specs.Program.{program_of};
ghost use Rattle.kernel_model.specs.Dump.{is_free as is_none, lines_of_row, row_line, row_lines, state_text, target_text, text_of, until_text};
ghost use Rattle.kernel_model.specs.Names.{name_of};
ghost use Rattle.kernel_model.specs.Show.{names_of};
ghost use Rattle.kernel_image.specs.Cells.{present};
ghost use Rattle.kernel_image.specs.Decoded.{image_in, row_of};
ghost use Rattle.kernel_image.specs.Shown.{shown_row};

use crate::line::Line;
use crate::names::name_at;
use crate::sort::Sort;
use kernel_image::{Cell, PRIORITY, TEMPLATE, load, row_state};
use kernel_model::{NEVER, RowState, What};
use outer_world::{Sink, SinkFault};
use thread_check::Checked;
use thread_tree::ROWS;
use undo_journal::Words;

// A line with what a thread waits for behind it.
#[tactic(auto, using(crate::proofs::LawSets::text_laws))]
fn with_target(line: Line, program: &Checked, what: What, target: u32) -> Line
    requires room { length line ≤ 200 }
    ensures text { result ≡ line ++ target_text (names_of (program_of program.now)) what target }
    ensures len { length result ≤ length line + 32 }
{
    match what {
        What::Send => line
            .word("send ")
            .bytes(name_at(program, Sort::Queue, target)),
        What::Receive => line
            .word("receive ")
            .bytes(name_at(program, Sort::Queue, target)),
        What::Take => line
            .word("take ")
            .bytes(name_at(program, Sort::Semaphore, target)),
    }
}

// A line with how long a thread waits behind it.
#[tactic(auto, using(crate::proofs::LawSets::text_laws))]
fn with_until(line: Line, until: u32) -> Line
    requires room { length line ≤ 250 }
    ensures text { result ≡ line ++ until_text until }
    ensures len { length result ≤ length line + 17 }
{
    if until == NEVER {
        line.word(" for ever")
    } else {
        line.word(" until ").number(until)
    }
}

// A line with the tick behind it that ends a delay.
#[tactic(auto, using(crate::proofs::LawSets::text_laws))]
fn with_delay(line: Line, wake: u32) -> Line
    requires room { length line ≤ 100 }
    ensures text { result ≡ line ++ (codes "delayed until " ++ decimal wake) }
    ensures len { length result ≤ length line + 24 }
{
    line.word("delayed until ").number(wake)
}

// A line with the state of a thread behind it.
#[tactic(auto, using(crate::proofs::LawSets::text_laws))]
fn with_state(line: Line, program: &Checked, state: RowState) -> Line
    requires room { length line ≤ 100 }
    ensures text { result ≡ line ++ state_text (names_of (program_of program.now)) state }
    ensures len { length result ≤ length line + 60 }
{
    match state {
        RowState::Free => line,
        RowState::Ready => line.word("ready"),
        RowState::Delayed(wake) => with_delay(line, wake),
        RowState::Waiting(wait) => {
            let line = with_target(line.word("waiting to "), program, wait.what, wait.target);
            with_until(line, wait.until)
        }
        RowState::Ended(code) => line.word("ended ").number(code),
    }
}

// The line of a thread.
#[tactic(auto, unfolding(kernel_model::specs::Dump::row_line))]
fn row(program: &Checked, thread: u32, template: u32, priority: u32, state: RowState) -> Line
    ensures text { result ≡ row_line (names_of (program_of program.now)) thread (record { template = template; priority = priority; state = state }) }
    ensures room { length result < 2048 }
{
    let line = Line::new("thread ")
        .number(thread)
        .word(" ")
        .bytes(name_at(program, Sort::Template, template))
        .word(" priority ")
        .number(priority)
        .word(" ");
    with_state(line, program, state)
}

// Whether no thread is in a row.
fn is_free(state: &RowState) -> bool
    ensures is { result ≡ is_none state.now }
{
    match state {
        RowState::Free => true,
        RowState::Ready | RowState::Delayed(_) | RowState::Waiting(_) | RowState::Ended(_) => false,
    }
}

// Puts the line of a thread.
fn put_thread<W: Words, S: Sink>(
    words: &W,
    program: &Checked,
    thread: u32,
    state: RowState,
    sink: &mut S,
) -> Result<(), SinkFault>
    requires thread { thread < ROWS }
    ensures puts { Puts result (S.bytes sink.old) (S.bytes sink.new)
        (text_of (row_line (names_of (program_of program.now)) thread
        (record { template = (row_of (present (W.present words.now)) thread).template; priority = (row_of (present (W.present words.now)) thread).priority; state = state }) ∷ [])) }
    ensures cause { HasCause (S.faults sink.old) (S.faults sink.new) result }
{
    let template = load(words, Cell::RowWord(thread, TEMPLATE));
    let priority = load(words, Cell::RowWord(thread, PRIORITY));
    row(program, thread, template, priority, state).put(sink)?;
    Ok(())
}

// Puts the line of a thread's row; a free row has none.
fn put_row<W: Words, S: Sink>(
    words: &W,
    program: &Checked,
    thread: u32,
    sink: &mut S,
) -> Result<(), SinkFault>
    requires thread { thread < ROWS }
    ensures puts { Puts result (S.bytes sink.old) (S.bytes sink.new)
        (text_of (lines_of_row (names_of (program_of program.now)) thread (shown_row (row_of (present (W.present words.now)) thread)))) }
    ensures cause { HasCause (S.faults sink.old) (S.faults sink.new) result }
{
    let state = row_state(words, thread);
    if is_free(&state) {
        return Ok(());
    }
    put_thread(words, program, thread, state, sink)
}

/// Puts the lines of all threads, in order of their numbers.
pub fn put_rows<W: Words, S: Sink>(
    words: &W,
    program: &Checked,
    sink: &mut S,
) -> Result<(), SinkFault>
    ensures puts { Puts result (S.bytes sink.old) (S.bytes sink.new)
        (text_of (row_lines (names_of (program_of program.now)) (map shown_row (image_in (W.present words.now)).rows))) }
    ensures cause { HasCause (S.faults sink.old) (S.faults sink.new) result }
{
    for thread in 0..ROWS as u32 {
        put_row(words, program, thread, sink)?;
    }
    Ok(())
}
