// What a device of nonvolatile words is, for all that is generic over it.
ghost use Rattle.std.specs.Prelude.{◌≡◌, ◌<◌, ◌^◌, ◌++◌, [], ◌∷◌, List, ℕ, Option, Some, None, length, slice_index, slice_set, IsErr, OnOk, OnErr, ◌↔◌, ◌≤◌};
ghost use Rattle.nv_memory.specs.Budget.{first_budget, later_budgets, spent};
ghost use Rattle.nv_memory.specs.declared.nv.TheConstants.{WORDS};

use std::alloc::Global;

/// The number of words of the device, numbered from 0. Each has 32 bits.
pub const WORDS: u32 = 16_384;

/// The power was cut before a word write. The write did not take place.
#[derive(Clone, Copy, Debug, PartialEq, Eq)]
pub struct Cut;

/// There was no memory for the images of the boots to come.
#[derive(Clone, Copy, Debug, PartialEq, Eq)]
pub struct NoMemory;

/// A device of 16,384 nonvolatile words under budgets of word writes (docs/MEMORY.md).
///
/// A word write is atomic, durable at once and in order. A budget of k lets k writes succeed and cuts the next
/// one. Each call leaves every meaning as it was that its own clauses don't name as changed.
pub trait Nv {
    /// The words, the first one at 0.
    ghost words: { Self → List ℕ };

    /// The writes that are left before the power is cut, or none on mains, where no write is cut.
    ghost left: { Self → Option ℕ };

    /// The budgets of the boots to come, the next one first.
    ghost to_come: { Self → List ℕ };

    /// The words at the end of each boot that was cut, the first boot first.
    ghost ends: { Self → List (List ℕ) };

    /// Gives the device the budgets of the boots to come, on mains and before any boot: the first one counts from
    /// now on. With none the device stays on mains. It takes the memory for all `ends`. After `NoMemory` the
    /// device is as it was.
    fn plan(&mut self, alloc: Global, budgets: &[u32]) -> Result<(), NoMemory>
        requires mains { left self.old ≡ None }
        requires none_to_come { to_come self.old ≡ [] }
        requires no_ends { ends self.old ≡ [] }
        ensures words { words self.new ≡ words self.old }
        ensures ends { ends self.new ≡ ends self.old }
        ensures left { OnOk result (left self.new ≡ first_budget budgets.now) }
        ensures to_come { OnOk result (to_come self.new ≡ later_budgets budgets.now) }
        ensures left_stays { OnErr result (left self.new ≡ left self.old) }
        ensures to_come_stays { OnErr result (to_come self.new ≡ to_come self.old) };

    /// The word at a place.
    fn read(&self, at: u32) -> u32
        requires within { at < WORDS }
        ensures word { result ≡ slice_index (words self.now) at };

    /// Writes one word. `Cut` comes exactly where no write is left, and then nothing changed.
    fn write(&mut self, at: u32, value: u32) -> Result<(), Cut>
        requires within { at < WORDS }
        ensures cut { IsErr result ↔ (left self.old ≡ Some 0) }
        ensures written { OnOk result (words self.new ≡ slice_set (words self.old) at value) }
        ensures unwritten { OnErr result (words self.new ≡ words self.old) }
        ensures left { left self.new ≡ spent (left self.old) 1 }
        ensures to_come { to_come self.new ≡ to_come self.old }
        ensures ends { ends self.new ≡ ends self.old };

    /// Begins the next boot, after a cut: the words at the end of the last one are added to `ends`, and the next
    /// budget counts from now on, or the device is on mains where none is to come. It takes no memory.
    fn power_up(&mut self)
        requires dark { left self.old ≡ Some 0 }
        ensures words { words self.new ≡ words self.old }
        ensures left { left self.new ≡ first_budget (to_come self.old) }
        ensures to_come { to_come self.new ≡ later_budgets (to_come self.old) }
        ensures ends { ends self.new ≡ ends self.old ++ words self.old ∷ [] };

    /// The device has all its words.
    ghost sized: { (nv : Self) → length (words nv) ≡ WORDS };

    /// Each word has 32 bits.
    ghost fits: { (nv : Self) (at : ℕ) → slice_index (words nv) at < 2 ^ 32 };
}
