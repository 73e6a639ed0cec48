// One boot: recovery, the boot's lines, and event after event until the last one or a cut.
ghost use Rattle.std.specs.Prelude.{◌≡◌, ◌+◌, ◌-◌, ◌*◌, ◌<◌, ◌≤◌, [], ◌∷◌, ◌++◌, IsTrue, List, length, ℕ, Some};
ghost use Rattle.outer_world.specs.Written.{put_to, IsPart};
ghost use Rattle.thread_tree.specs.Program.{program_of};
ghost use Rattle.undo_journal.specs.Undo.{entries, IsAtRest};
ghost use Rattle.kernel_image.specs.Decoded.{image_in};
ghost use Rattle.kernel_model.specs.Kernel.{State};
ghost use Rattle.replay_list.specs.Kept.{counter_of};
ghost use Rattle.served_program.specs.Served.{is_served};
ghost use Rattle.kernel_boots.specs.Courses.{course, IsUnderWay, IsLive, AreSteps};
ghost use Rattle.boot_report.specs.Lines.{dark_line};
ghost use Rattle.intos_run.specs.Ends.{MatchEnd, EachEnd, HasEndCause, BootSteps, EndsDone, EndsCut, EndsFailed, IsDone, IsCut, IsFailed};

use boot_recovery::recover;
use boot_report::{put_begin, put_cut, put_dark, put_end};
use kernel_boots::{Stopped, World, beginning, work};
use kernel_image::counter as events_of;
use nv_memory::Nv;
use outer_world::Sink;
use replay_list::Kernel;
use std::sync::ledger::Ledger;
use step_counter::Steps;
use thread_check::Checked;
use thread_tree::MOVES;
use undo_journal::{Dark, MAGIC};

/// The word that is `MAGIC` on a formatted device.
const MAGIC_WORD: u32 = 0;

/// The word that counts the entries of the journal.
const JOURNAL_COUNT: u32 = 4;

/// How a boot ended.
pub enum BootEnd<N: Nv> {
    /// Every event is committed.
    Done(N),
    /// The power was cut.
    Cut(Dark<N>),
    /// The sink failed.
    SinkFailed(N),
}

/// The device of a kernel that has power, with its contexts let go.
fn device<N: Nv>(kernel: Kernel<N>) -> N
    ensures same { result ≡ kernel.idle }
{
    let Kernel { idle, contexts: _ } = kernel;
    idle.rest()
}

/// A boot behind its recovery: its lines, and event after event.
fn live<N: Nv, W: World, S: Sink, L: Ledger>(
    kernel: Kernel<N>,
    number: u32,
    undone: u32,
    program: &Checked,
    world: &mut W,
    sink: &mut S,
    counter: &mut Steps<L>,
) -> BootEnd<N>
    requires at_rest { IsAtRest (N.words kernel.idle) }
    requires served { IsTrue (is_served program.now) }
    requires all_steps { AreSteps (W.events world.old) }
    requires few { length (W.events world.old) ≤ 1000000 }
    requires floor { W.floor world.old ≤ (image_in (N.words kernel.idle)).events }
    requires live { (K : State) × IsLive (course (program_of program.now) K (W.events world.old)) (image_in (N.words kernel.idle)) kernel.contexts }
    ensures ends { (K : State) → IsLive (course (program_of program.now) K (W.events world.old)) (image_in (N.words kernel.idle)) kernel.contexts → MatchEnd result
        (EndsDone N.Nv (course (program_of program.now) K (W.events world.old)) number undone (image_in (N.words kernel.idle)).events kernel.idle (S.bytes sink.old) (S.bytes sink.new))
        (EndsCut N.Nv (course (program_of program.now) K (W.events world.old)) number undone (image_in (N.words kernel.idle)).events kernel.idle (S.bytes sink.old) (S.bytes sink.new))
        (EndsFailed N.Nv (course (program_of program.now) K (W.events world.old)) number undone (image_in (N.words kernel.idle)).events kernel.idle (S.bytes sink.old) (S.bytes sink.new)) }
    ensures cause { HasEndCause result (S.faults sink.old) (S.faults sink.new) }
    ensures same { W.events world.new ≡ W.events world.old }
    ensures floor { EachEnd result (λ nv. W.floor world.new ≤ counter_of (N.words nv)) }
    ensures counted { counter.old ≤ counter.new }
    ensures steps { EachEnd result (λ nv. counter.new + MOVES * (image_in (N.words kernel.idle)).events ≤ counter.old + MOVES * (counter_of (N.words nv) + 1)) }
{
    beginning();
    if put_begin(&kernel, program, sink, number, undone).is_err() {
        return BootEnd::SinkFailed(device(kernel));
    }
    match work(kernel, program, world, counter) {
        Ok(kernel) => {
            let events = events_of(&kernel.idle);
            if put_end(sink, number, events).is_err() {
                return BootEnd::SinkFailed(device(kernel));
            }
            BootEnd::Done(device(kernel))
        }
        Err(Stopped { dark, events }) => {
            if put_cut(sink, number, events).is_err() {
                return BootEnd::SinkFailed(dark.leave());
            }
            BootEnd::Cut(dark)
        }
    }
}

/// How many entries the journal of a device holds, or none where it isn't formatted.
fn entries_of<N: Nv>(nv: &N) -> u32
    ensures entries { result ≡ entries (N.words nv.now) }
{
    if nv.read(MAGIC_WORD) == MAGIC {
        nv.read(JOURNAL_COUNT)
    } else {
        0
    }
}

/// A boot whose recovery was cut: its line.
fn dark<N: Nv, S: Sink>(dark: Dark<N>, number: u32, formatted: bool, sink: &mut S) -> BootEnd<N>
    ensures ends { MatchEnd result
        (λ nv. ⊥)
        (λ nv. (nv ≡ dark) × (N.left nv ≡ Some 0) × (S.bytes sink.new ≡ put_to (S.bytes sink.old) (dark_line number formatted ++ 10 ∷ [])))
        (λ nv. (nv ≡ dark) × IsPart (S.bytes sink.old) (S.bytes sink.new) (dark_line number formatted ++ 10 ∷ [])) }
    ensures cause { HasEndCause result (S.faults sink.old) (S.faults sink.new) }
{
    if put_dark(sink, number, formatted).is_err() {
        return BootEnd::SinkFailed(dark.leave());
    }
    BootEnd::Cut(dark)
}

/// One boot, on whatever course its words are under way. It is lent nothing of an earlier boot but the device and the
/// events that are to come (docs/BOOTS.md).
pub fn boot<N: Nv, W: World, S: Sink, L: Ledger>(
    nv: N,
    number: u32,
    program: &Checked,
    world: &mut W,
    sink: &mut S,
    counter: &mut Steps<L>,
) -> BootEnd<N>
    requires under_way { (K : State) × IsUnderWay (course (program_of program.now) K (W.events world.old)) (N.words nv) }
    requires served { IsTrue (is_served program.now) }
    requires all_steps { AreSteps (W.events world.old) }
    requires few { length (W.events world.old) ≤ 1000000 }
    requires floor { W.floor world.old ≤ counter_of (N.words nv) }
    ensures ends { (K : State) → IsUnderWay (course (program_of program.now) K (W.events world.old)) (N.words nv) → MatchEnd result
        (IsDone N.Nv (course (program_of program.now) K (W.events world.old)) number nv (S.bytes sink.old) (S.bytes sink.new))
        (IsCut N.Nv (course (program_of program.now) K (W.events world.old)) number nv (S.bytes sink.old) (S.bytes sink.new))
        (IsFailed N.Nv (course (program_of program.now) K (W.events world.old)) number nv (S.bytes sink.old) (S.bytes sink.new)) }
    ensures cause { HasEndCause result (S.faults sink.old) (S.faults sink.new) }
    ensures same { W.events world.new ≡ W.events world.old }
    ensures floor { EachEnd result (λ end. W.floor world.new ≤ counter_of (N.words end)) }
    ensures counted { counter.old ≤ counter.new }
    ensures steps { (K : State) → IsUnderWay (course (program_of program.now) K (W.events world.old)) (N.words nv)
        → EachEnd result (λ end. BootSteps (course (program_of program.now) K (W.events world.old)) counter.old counter.new (N.words nv) (N.words end)) }
{
    beginning();
    let undone = entries_of(&nv);
    let formatted = nv.read(MAGIC_WORD) == MAGIC;
    match recover(nv, program, counter) {
        Ok(kernel) => live(kernel, number, undone, program, world, sink, counter),
        Err(lost) => dark(lost, number, formatted, sink),
    }
}
