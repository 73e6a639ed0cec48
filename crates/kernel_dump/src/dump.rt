// The dump of what the words show.
ghost use Rattle.std.specs.Prelude.{◌≡◌, ◌≤◌, [], ◌∷◌};
ghost use Rattle.outer_world.specs.Causes.{HasCause};
ghost use Rattle.outer_world.specs.Written.{Puts};
ghost use Rattle.thread_tree.specs.Program.{program_of};
ghost use Rattle.kernel_model.specs.Dump.{dump_lines, events_line, text_of, ticks_line};
ghost use Rattle.kernel_model.specs.Kernel.{State};
ghost use Rattle.kernel_model.specs.Show.{names_of, visible};
ghost use Rattle.kernel_model.specs.Sound.{IsSound};
ghost use Rattle.kernel_image.specs.Decoded.{image_in};
ghost use Rattle.kernel_image.specs.Shown.{shown, timed_list};

use crate::console::put_console;
use crate::line::Line;
use crate::objects::put_objects;
use crate::ready::put_ready;
use crate::rows::put_rows;
use kernel_image::{counter, ticks};
use outer_world::{Sink, SinkFault};
use thread_check::Checked;
use undo_journal::Words;

// Puts the line of the event counter.
#[tactic(auto, unfolding(kernel_model::specs::Dump::events_line))]
fn put_events<S: Sink>(events: u32, sink: &mut S) -> Result<(), SinkFault>
    ensures puts { Puts result (S.bytes sink.old) (S.bytes sink.new) (text_of (events_line events ∷ [])) }
    ensures cause { HasCause (S.faults sink.old) (S.faults sink.new) result }
{
    Line::new("events ").number(events).put(sink)?;
    Ok(())
}

// Puts the line of the tick count.
#[tactic(auto, unfolding(kernel_model::specs::Dump::ticks_line))]
fn put_ticks<S: Sink>(ticks: u32, sink: &mut S) -> Result<(), SinkFault>
    ensures puts { Puts result (S.bytes sink.old) (S.bytes sink.new) (text_of (ticks_line ticks ∷ [])) }
    ensures cause { HasCause (S.faults sink.old) (S.faults sink.new) result }
{
    Line::new("ticks ").number(ticks).put(sink)?;
    Ok(())
}

// Puts the lines of the event counter and the tick count.
fn put_counters<S: Sink>(events: u32, ticks: u32, sink: &mut S) -> Result<(), SinkFault>
    ensures puts { Puts result (S.bytes sink.old) (S.bytes sink.new)
        (text_of (events_line events ∷ ticks_line ticks ∷ [])) }
    ensures cause { HasCause (S.faults sink.old) (S.faults sink.new) result }
{
    put_events(events, sink)?;
    put_ticks(ticks, sink)?;
    Ok(())
}

/// Writes the dump of the kernel of a program that the words show: its counters, its threads and ready lists, its
/// objects and its console, each line and its newline as one piece. The words show a kernel of the uncut run, and
/// the program declares no queue and no semaphore so far, and nobody is woken by a tick.
///
/// # Errors
///
/// `SinkFault` where the sink didn't take all of it.
pub fn put_dump<W: Words, S: Sink>(
    words: &W,
    program: &Checked,
    sink: &mut S,
) -> Result<(), SinkFault>
    requires sound { (K : State) × IsSound (program_of program.now) K × (shown (program_of program.now) (image_in (W.present words.now)) ≡ visible (program_of program.now) K) }
    requires no_queues { (program_of program.now).queues ≡ [] }
    requires no_semaphores { (program_of program.now).semaphores ≡ [] }
    requires untimed { timed_list (image_in (W.present words.now)) ≡ [] }
    ensures puts { Puts result (S.bytes sink.old) (S.bytes sink.new)
        (text_of (dump_lines (names_of (program_of program.now)) (shown (program_of program.now) (image_in (W.present words.now))))) }
    ensures cause { HasCause (S.faults sink.old) (S.faults sink.new) result }
{
    put_counters(counter(words), ticks(words), sink)?;
    put_rows(words, program, sink)?;
    put_ready(words, sink)?;
    put_objects(words, program, sink)?;
    put_console(words, sink)?;
    Ok(())
}
