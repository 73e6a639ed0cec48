//! Files that are read by name.
ghost use Rattle.std.specs.Prelude.{◌≡◌, ◌≤◌, ℕ, List, [], Bool, false, Option, OnOk, OnErr, Err};
ghost use Rattle.outer_world.specs.Reading.{IsWhole, IsBegun, IsTooLong, HasFileCause};

use crate::fault::FileFault;
use std::alloc::Global;

/// Files that are read whole, by their names.
pub trait Files {
    // The bytes of the file of a name, where they are told; a missing file tells none.
    ghost contents: { Self → List ℕ → Option (List ℕ) };

    // How many bytes the readings took so far.
    ghost taken: { Self → ℕ };

    // How many readings failed so far.
    ghost faults: { Self → ℕ };

    // Which names may be read (false) and written (true).
    ghost allowed: { List ℕ → Bool → Type 0 };

    /// Reads the file of a name into `into`, at most `limit` bytes.
    ///
    /// # Errors
    ///
    /// `TooLong` where the file has more than `limit` bytes, `Failed` where it could not be read or
    /// is missing, `NoMemory` where `into` could not grow. `into` then holds a prefix of what was
    /// taken.
    fn read_all(
        &mut self,
        alloc: Global,
        name: &str,
        limit: u32,
        into: &mut Vec<u8>,
    ) -> Result<(), FileFault>
        requires empty { into.old.items ≡ [] }
        requires allowed { allowed name.now false }
        ensures files { contents self.new ≡ contents self.old }
        ensures later { taken self.old ≤ taken self.new }
        ensures whole { OnOk result (IsWhole (contents self.old name.now) limit into.new.items
            (taken self.old) (taken self.new)) }
        ensures too_long { result ≡ Err FileFault.TooLong →
            IsTooLong (contents self.old name.now) limit (taken self.old) (taken self.new) }
        ensures refused { OnErr result (IsBegun (contents self.old name.now) into.new.items
            (taken self.old) (taken self.new)) }
        ensures cause { HasFileCause (faults self.old) (faults self.new) result };
}
