// The lines of how a boot ends.
ghost use Rattle.std.specs.Prelude.{◌≡◌, ◌<◌, ◌≤◌, [], ◌∷◌, ◌++◌, length};
ghost use Rattle.outer_world.specs.Causes.{HasCause};
ghost use Rattle.outer_world.specs.Written.{Puts};
ghost use Rattle.boot_report.specs.Lines.{dark_line, cut_line, end_line};

use kernel_dump::Line;
use outer_world::{Sink, SinkFault};

/// Puts the line of a boot whose recovery was cut: as it formatted the device, or as it undid the journal of one that
/// is formatted.
///
/// # Errors
///
/// `SinkFault` where the sink didn't take all of it.
#[tactic(auto, unfolding(crate::specs::Lines::dark_line))]
pub fn put_dark<S: Sink>(sink: &mut S, number: u32, formatted: bool) -> Result<(), SinkFault>
    ensures puts { Puts result (S.bytes sink.old) (S.bytes sink.new)
        (dark_line number formatted ++ 10 ∷ []) }
    ensures cause { HasCause (S.faults sink.old) (S.faults sink.new) result }
{
    let place = if formatted {
        " cut in undo"
    } else {
        " cut in format"
    };
    Line::new("boot ").number(number).word(place).put(sink)?;
    Ok(())
}

/// Puts the line of a boot that was cut at `events`.
///
/// # Errors
///
/// `SinkFault` where the sink didn't take all of it.
#[tactic(auto, unfolding(crate::specs::Lines::cut_line))]
pub fn put_cut<S: Sink>(sink: &mut S, number: u32, events: u32) -> Result<(), SinkFault>
    ensures puts { Puts result (S.bytes sink.old) (S.bytes sink.new) (cut_line number events ++ 10 ∷ []) }
    ensures cause { HasCause (S.faults sink.old) (S.faults sink.new) result }
{
    Line::new("boot ")
        .number(number)
        .word(" cut at ")
        .number(events)
        .put(sink)?;
    Ok(())
}

/// Puts the line of the boot that came to its end at `events`.
///
/// # Errors
///
/// `SinkFault` where the sink didn't take all of it.
#[tactic(auto, unfolding(crate::specs::Lines::end_line))]
pub fn put_end<S: Sink>(sink: &mut S, number: u32, events: u32) -> Result<(), SinkFault>
    ensures puts { Puts result (S.bytes sink.old) (S.bytes sink.new) (end_line number events ++ 10 ∷ []) }
    ensures cause { HasCause (S.faults sink.old) (S.faults sink.new) result }
{
    Line::new("boot ")
        .number(number)
        .word(" end at ")
        .number(events)
        .put(sink)?;
    Ok(())
}
