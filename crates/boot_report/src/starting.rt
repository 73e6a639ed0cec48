// The lines behind a finished recovery.
ghost use Rattle.std.specs.Prelude.{◌≡◌, ◌<◌, ◌≤◌, [], ◌∷◌, ◌++◌, length};
ghost use Rattle.outer_world.specs.Causes.{HasCause};
ghost use Rattle.outer_world.specs.Written.{Puts};
ghost use Rattle.thread_tree.specs.Program.{program_of};
ghost use Rattle.kernel_image.specs.Decoded.{image_in};
ghost use Rattle.kernel_model.specs.Dump.{text_of};
ghost use Rattle.kernel_model.specs.Kernel.{State};
ghost use Rattle.replay_list.specs.Stands.{KernelStands};
ghost use Rattle.boot_report.specs.Lines.{begin_lines, start_line};

use crate::passing::passed_by_all;
use crate::threads::put_threads;
use kernel_dump::Line;
use kernel_image::counter;
use nv_memory::Nv;
use outer_world::{Sink, SinkFault};
use replay_list::Kernel;
use thread_check::Checked;

// The line of a boot that starts at `events`, whose recovery undid `undone` entries and replayed `replayed` records.
#[tactic(auto, unfolding(crate::specs::Lines::start_line))]
fn start(number: u32, events: u32, undone: u32, replayed: u32) -> Line
    ensures text { result ≡ start_line number events undone replayed }
    ensures room { length result < 2048 }
{
    Line::new("boot ")
        .number(number)
        .word(" start at ")
        .number(events)
        .word(" undone ")
        .number(undone)
        .word(" replayed ")
        .number(replayed)
}

// Puts this line.
fn put_start<S: Sink>(
    sink: &mut S,
    number: u32,
    events: u32,
    undone: u32,
    replayed: u32,
) -> Result<(), SinkFault>
    ensures puts { Puts result (S.bytes sink.old) (S.bytes sink.new)
        (text_of (start_line number events undone replayed ∷ [])) }
    ensures cause { HasCause (S.faults sink.old) (S.faults sink.new) result }
{
    start(number, events, undone, replayed).put(sink)?;
    Ok(())
}

/// Writes where a boot starts, and each live thread with its locals in scope: `undone` entries were undone, and so many
/// records replayed as all live threads have (docs/REPORT.md).
///
/// # Errors
///
/// `SinkFault` where the sink didn't take all of it.
pub fn put_begin<N: Nv, S: Sink>(
    kernel: &Kernel<N>,
    program: &Checked,
    sink: &mut S,
    number: u32,
    undone: u32,
) -> Result<(), SinkFault>
    requires stands { (K : State) × KernelStands (program_of program.now) (image_in (N.words kernel.now.idle)) kernel.now.contexts K }
    ensures puts { (K : State) → KernelStands (program_of program.now) (image_in (N.words kernel.now.idle)) kernel.now.contexts K
        → Puts result (S.bytes sink.old) (S.bytes sink.new) (text_of (begin_lines number undone (program_of program.now) K)) }
    ensures cause { HasCause (S.faults sink.old) (S.faults sink.new) result }
{
    let events = counter(&kernel.idle);
    let replayed = passed_by_all(&kernel.idle, &kernel.contexts, program);
    put_start(sink, number, events, undone, replayed)?;
    put_threads(&kernel.idle, &kernel.contexts, program, sink, number)?;
    Ok(())
}
