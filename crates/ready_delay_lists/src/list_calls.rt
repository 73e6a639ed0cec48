// The calls on the lists of threads, as contracts.
ghost use Rattle.std.specs.Prelude.{◌≡◌, ◌<◌, ◌≤◌, IsErr, OnOk, OnErr, IfSome, Some};
ghost use Rattle.nv_memory.specs.Budget.{IsShort};
ghost use Rattle.undo_journal.specs.Undo.{room_of};
ghost use Rattle.undo_journal.specs.Lending.{IsLent, IsWithin};
ghost use Rattle.thread_tree.specs.Program.{Program};
ghost use Rattle.kernel_model.specs.Calls.{value_sent};
ghost use Rattle.kernel_model.specs.Kernel.{State, Thread, with_row, behind};
ghost use Rattle.kernel_model.specs.Kernel.Activity.{Ready, Waiting};
ghost use Rattle.kernel_model.specs.Kernel.Row.{Free};
ghost use Rattle.kernel_model.specs.Order.{first};
ghost use Rattle.kernel_model.specs.Run.{has_equals};
ghost use Rattle.kernel_model.specs.Sound.{IsSound};
ghost use Rattle.kernel_image.specs.Decoded.{image_in, row_at};
ghost use Rattle.ready_delay_lists.specs.Lists.{AreListed, Bears, IsListed, IsAside, HasStamp, unlisted, stands_behind, stands_timed, prioritized, value_for, due, ready_in, timed_in, waiting_in};

use arrayvec::ArrayVec;
use kernel_model::{Wait, What};
use nv_memory::{Cut, Nv};
use thread_tree::{ROWS, TARGETS};
use undo_journal::{Open, Words};

/// The calls on the lists of threads: the ready threads of each priority, the timed ones, and those that wait for a
/// queue or a semaphore.
///
/// What the words hold is said by the kernel whose lists they have. Each call leaves all other words as they were, and
/// on `Cut` fewer writes were left than four for each entry of its room, and none is left.
pub trait ListCalls {
    /// Takes a live thread, 0 to 15, out of its lists. Its row counts as free then, and still bears what the lists go
    /// by.
    fn leave_all<N: Nv>(tx: &mut Open<N>, thread: u32) -> Result<(), Cut>
        requires thread { thread < ROWS }
        requires listed { (K : State) × (known : Thread) × IsListed (image_in (N.words tx.old)) K thread known }
        requires room { 10 ≤ room_of (N.words tx.old) }
        ensures listed { OnOk result ((K : State) (known : Thread) → IsListed (image_in (N.words tx.old)) K thread known → AreListed (image_in (N.words tx.new)) (with_row K thread Free)) }
        ensures bears { OnOk result ((K : State) (known : Thread) → IsListed (image_in (N.words tx.old)) K thread known → Bears (row_at (image_in (N.words tx.new)) thread) known) }
        ensures unlisted { OnOk result (unlisted (image_in (N.words tx.new)) ≡ unlisted (image_in (N.words tx.old))) }
        ensures cut { IsErr result → IsShort (N.left tx.old) 40 }
        ensures dark { OnErr result (N.left tx.new ≡ Some 0) }
        ensures lent { IsLent N.Nv tx.old tx.new }
        ensures within { OnOk result (IsWithin N.Nv tx.old tx.new 10) };

    /// Puts a thread, 0 to 15, that stands in no list behind its equals: it is ready.
    fn make_ready<N: Nv>(tx: &mut Open<N>, thread: u32) -> Result<(), Cut>
        requires thread { thread < ROWS }
        requires listed { (K : State) × (known : Thread) × IsAside (image_in (N.words tx.old)) K thread known × HasStamp K }
        requires room { 7 ≤ room_of (N.words tx.old) }
        ensures listed { OnOk result ((K : State) (known : Thread) → IsAside (image_in (N.words tx.old)) K thread known → AreListed (image_in (N.words tx.new)) (stands_behind K thread known Ready)) }
        ensures unlisted { OnOk result (unlisted (image_in (N.words tx.new)) ≡ unlisted (image_in (N.words tx.old))) }
        ensures cut { IsErr result → IsShort (N.left tx.old) 28 }
        ensures dark { OnErr result (N.left tx.new ≡ Some 0) }
        ensures lent { IsLent N.Nv tx.old tx.new }
        ensures within { OnOk result (IsWithin N.Nv tx.old tx.new 7) };

    /// Lets a thread, 0 to 15, that stands in no list wait behind its equals.
    fn put_waiting<N: Nv>(tx: &mut Open<N>, thread: u32, wait: Wait) -> Result<(), Cut>
        requires thread { thread < ROWS }
        requires target { wait.target < TARGETS }
        requires value { wait.value ≡ value_for wait.what wait.value }
        requires listed { (K : State) × (known : Thread) × IsAside (image_in (N.words tx.old)) K thread known × HasStamp K }
        requires room { 24 ≤ room_of (N.words tx.old) }
        ensures listed { OnOk result ((K : State) (known : Thread) → IsAside (image_in (N.words tx.old)) K thread known → AreListed (image_in (N.words tx.new)) (stands_behind K thread known (Waiting wait))) }
        ensures unlisted { OnOk result (unlisted (image_in (N.words tx.new)) ≡ unlisted (image_in (N.words tx.old))) }
        ensures cut { IsErr result → IsShort (N.left tx.old) 96 }
        ensures dark { OnErr result (N.left tx.new ≡ Some 0) }
        ensures lent { IsLent N.Nv tx.old tx.new }
        ensures within { OnOk result (IsWithin N.Nv tx.old tx.new 24) };

    /// Delays a thread, 0 to 15, that stands in no list until a tick.
    fn put_timed<N: Nv>(tx: &mut Open<N>, thread: u32, wake: u32) -> Result<(), Cut>
        requires thread { thread < ROWS }
        requires listed { (K : State) × (known : Thread) × IsAside (image_in (N.words tx.old)) K thread known }
        requires room { 10 ≤ room_of (N.words tx.old) }
        ensures listed { OnOk result ((K : State) (known : Thread) → IsAside (image_in (N.words tx.old)) K thread known → AreListed (image_in (N.words tx.new)) (stands_timed K thread known wake)) }
        ensures unlisted { OnOk result (unlisted (image_in (N.words tx.new)) ≡ unlisted (image_in (N.words tx.old))) }
        ensures cut { IsErr result → IsShort (N.left tx.old) 40 }
        ensures dark { OnErr result (N.left tx.new ≡ Some 0) }
        ensures lent { IsLent N.Nv tx.old tx.new }
        ensures within { OnOk result (IsWithin N.Nv tx.old tx.new 10) };

    /// Puts a ready thread, 0 to 15, behind its equals.
    fn rotate<N: Nv>(tx: &mut Open<N>, thread: u32) -> Result<(), Cut>
        requires thread { thread < ROWS }
        requires listed { (K : State) × (known : Thread) × IsListed (image_in (N.words tx.old)) K thread known × (known.activity ≡ Ready) × HasStamp K }
        requires room { 10 ≤ room_of (N.words tx.old) }
        ensures listed { OnOk result ((K : State) (known : Thread) → IsListed (image_in (N.words tx.old)) K thread known → known.activity ≡ Ready → AreListed (image_in (N.words tx.new)) (behind K thread (λ same. same))) }
        ensures unlisted { OnOk result (unlisted (image_in (N.words tx.new)) ≡ unlisted (image_in (N.words tx.old))) }
        ensures cut { IsErr result → IsShort (N.left tx.old) 40 }
        ensures dark { OnErr result (N.left tx.new ≡ Some 0) }
        ensures lent { IsLent N.Nv tx.old tx.new }
        ensures within { OnOk result (IsWithin N.Nv tx.old tx.new 10) };

    /// Gives a live thread, 0 to 15, a priority, and puts it behind its equals in each of its lists. The same priority
    /// changes nothing.
    fn set_priority<N: Nv>(tx: &mut Open<N>, thread: u32, priority: u32) -> Result<(), Cut>
        requires thread { thread < ROWS }
        requires priority { priority ≤ 7 }
        requires listed { (K : State) × (known : Thread) × IsListed (image_in (N.words tx.old)) K thread known × HasStamp K }
        requires room { 23 ≤ room_of (N.words tx.old) }
        ensures listed { OnOk result ((K : State) (known : Thread) → IsListed (image_in (N.words tx.old)) K thread known → AreListed (image_in (N.words tx.new)) (prioritized K thread known priority)) }
        ensures unlisted { OnOk result (unlisted (image_in (N.words tx.new)) ≡ unlisted (image_in (N.words tx.old))) }
        ensures cut { IsErr result → IsShort (N.left tx.old) 92 }
        ensures dark { OnErr result (N.left tx.new ≡ Some 0) }
        ensures lent { IsLent N.Nv tx.old tx.new }
        ensures within { OnOk result (IsWithin N.Nv tx.old tx.new 23) };

    /// The first of those that wait for this, on the queue or the semaphore of this number, 0 to 15. `None` exactly where
    /// nobody waits so.
    fn first_waiting<W: Words>(words: &W, what: What, target: u32) -> Option<u32>
        requires target { target < TARGETS }
        requires listed { (K : State) × AreListed (image_in (W.present words.now)) K }
        ensures first { (p : Program) (K : State) → IsSound p K → AreListed (image_in (W.present words.now)) K → result ≡ first K what target }
        ensures thread { IfSome result (λ t. t < ROWS) };

    /// The least thread whose delay or wait ends by the tick count. `None` exactly where there is none.
    fn due<W: Words>(words: &W) -> Option<u32>
        requires listed { (K : State) × AreListed (image_in (W.present words.now)) K }
        ensures due { (K : State) → AreListed (image_in (W.present words.now)) K → result ≡ due (image_in (W.present words.now)).ticks K }
        ensures thread { IfSome result (λ t. t < ROWS) };

    /// The value that a thread, 0 to 15, waits to send; 0 where it waits to send none.
    fn value_sent<W: Words>(words: &W, thread: u32) -> u32
        requires thread { thread < ROWS }
        requires listed { (K : State) × AreListed (image_in (W.present words.now)) K }
        ensures value { (K : State) → AreListed (image_in (W.present words.now)) K → result ≡ value_sent K thread };

    /// Whether another ready thread has the priority of this one, 0 to 15, which is ready.
    fn has_equals<W: Words>(words: &W, thread: u32) -> bool
        requires thread { thread < ROWS }
        requires listed { (K : State) × (known : Thread) × IsListed (image_in (W.present words.now)) K thread known × (known.activity ≡ Ready) }
        ensures equals { (K : State) (known : Thread) → IsListed (image_in (W.present words.now)) K thread known → known.activity ≡ Ready → result ≡ has_equals K thread known };

    /// The ready threads of a priority, the next one first.
    fn ready_list<W: Words>(words: &W, priority: u32) -> ArrayVec<u32, ROWS>
        requires priority { priority ≤ 7 }
        requires listed { (K : State) × AreListed (image_in (W.present words.now)) K }
        ensures ready { result.items ≡ ready_in (image_in (W.present words.now)) priority };

    /// The threads that a tick wakes, in order of tick and then number.
    fn timed_list<W: Words>(words: &W) -> ArrayVec<u32, ROWS>
        requires listed { (K : State) × AreListed (image_in (W.present words.now)) K }
        ensures timed { result.items ≡ timed_in (image_in (W.present words.now)) };

    /// The threads that wait for this, on the queue or the semaphore of this number, 0 to 15, the first one first.
    fn waiting_list<W: Words>(words: &W, what: What, target: u32) -> ArrayVec<u32, ROWS>
        requires target { target < TARGETS }
        requires listed { (K : State) × AreListed (image_in (W.present words.now)) K }
        ensures waiting { result.items ≡ waiting_in (image_in (W.present words.now)) what target };
}
