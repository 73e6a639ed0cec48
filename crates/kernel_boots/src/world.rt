// What drives the kernel from outside.
ghost use Rattle.std.specs.Prelude.{◌≡◌, ◌≤◌, ℕ, List, slice_get};
ghost use Rattle.kernel_model.specs.declared.event.Event.{Event};

use kernel_model::Event;

/// A list of events, which is asked for one after another. What was asked for is never asked for again, but for the last
/// one: the event that was cut.
pub trait World {
    /// All events, the first one at 0.
    ghost events: { Self → List Event };

    /// The number of the event that was asked for last.
    ghost floor: { Self → ℕ };

    /// The event behind the first `n` of them, where there is one.
    fn next(&mut self, n: u32) -> Option<Event>
        requires later { floor self.old ≤ n }
        ensures event { result ≡ slice_get (events self.old) n }
        ensures floor { floor self.new ≡ n }
        ensures same { events self.new ≡ events self.old };
}
