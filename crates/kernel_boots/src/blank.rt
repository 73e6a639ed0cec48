// The laws of a course, and where a device begins.
ghost use Rattle.std.specs.Prelude.{◌≡◌, ◌≤◌, ◌+◌, ℕ, List, Option, length, slice_get, slice_index, Some};
ghost use Rattle.undo_journal.specs.Undo.{IsAtRest};
ghost use Rattle.thread_tree.specs.Program.{Program};
ghost use Rattle.thread_machine.specs.declared.context.Ctx.{Ctx};
ghost use Rattle.kernel_image.specs.Decoded.{Decoded, image_in};
ghost use Rattle.kernel_model.specs.declared.event.Event.{Event};
ghost use Rattle.kernel_model.specs.Kernel.{State};
ghost use Rattle.kernel_model.specs.Run.{after, one};
ghost use Rattle.replay_list.specs.Kept.{IsKept, counter_of};
ghost use Rattle.replay_list.specs.Stands.{KernelStands};
ghost use Rattle.kernel_boots.specs.Courses.{Course, course, from_start, uncut, last, IsUnderWay, IsLive};

use boot_recovery::formatting_stands;
use kernel_model::soundness;
use replay_list::standing_laws;

/// The laws of a course. It does nothing.
///
/// A course begins from any kernel: words that are kept for it are under way. From the start of a program a course has
/// the kernels of the uncut run, and its last one counts all events; a device that isn't formatted is under way on it.
/// A course goes on event by event, and its kernels count them. Words that are under way and a live kernel become one
/// another: by a recovery, by one that is cut, and where the kernel is at rest.
pub fn beginning()
    ensures kept { (p : Program) (K : State) (events : List Event) (words : List ℕ) → IsKept p words K → IsUnderWay (course p K events) words }
    ensures blank { (p : Program) (events : List Event) (words : List ℕ) → slice_index words 0 ≡ 0 → IsUnderWay (from_start p events) words }
    ensures start { (p : Program) (events : List Event) (n : ℕ) → uncut (from_start p events) n ≡ after p events n }
    ensures all { (p : Program) (events : List Event) → last (from_start p events) ≡ length events }
    ensures next { (c : Course) (n : ℕ) (event : Event) → c.start.events ≤ n → slice_get c.events n ≡ Some event → uncut c (n + 1) ≡ one c.program (uncut c n) event }
    ensures counts { (c : Course) (n : ℕ) → c.start.events ≤ n → n ≤ last c → (uncut c n).events ≡ n }
    ensures recovered { (c : Course) (words : List ℕ) (d : Decoded) (contexts : List (Option Ctx)) → IsUnderWay c words → KernelStands c.program d contexts (uncut c (counter_of words)) → IsLive c d contexts }
    ensures recovered_counts { (c : Course) (words : List ℕ) (d : Decoded) (contexts : List (Option Ctx)) → IsUnderWay c words → KernelStands c.program d contexts (uncut c (counter_of words)) → d.events ≡ counter_of words }
    ensures lost { (c : Course) (before left : List ℕ) → IsUnderWay c before → IsKept c.program left (uncut c (counter_of before)) → IsUnderWay c left }
    ensures lost_counts { (c : Course) (before left : List ℕ) → IsUnderWay c before → IsKept c.program left (uncut c (counter_of before)) → counter_of left ≡ counter_of before }
    ensures at_rest { (c : Course) (words : List ℕ) (contexts : List (Option Ctx)) → IsAtRest words → IsLive c (image_in words) contexts → IsUnderWay c words }
    ensures at_rest_counts { (c : Course) (words : List ℕ) (contexts : List (Option Ctx)) → IsAtRest words → IsLive c (image_in words) contexts → counter_of words ≡ (image_in words).events }
{
    formatting_stands();
    soundness();
    standing_laws();
}
