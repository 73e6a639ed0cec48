//! A sink for text.
ghost use Rattle.std.specs.Prelude.{◌≡◌, ℕ, List, Option};
ghost use Rattle.outer_world.specs.Causes.{count_after, HasCause};
ghost use Rattle.outer_world.specs.Written.{Puts};

use crate::fault::SinkFault;

/// What takes bytes, a piece at a time.
pub trait Sink {
    // The bytes that were taken so far, where they are told.
    ghost bytes: { Self → Option (List ℕ) };

    // How many pieces failed so far.
    ghost faults: { Self → ℕ };

    // How many pieces it was given so far, those that failed too; the count stops at the last value of 64 bits.
    ghost pieces: { Self → ℕ };

    /// Takes the whole piece, behind what was taken before.
    ///
    /// # Errors
    ///
    /// `SinkFault` where not all of the piece was taken. A prefix of it was taken then.
    fn put(&mut self, piece: &[u8]) -> Result<(), SinkFault>
        ensures puts { Puts result (bytes self.old) (bytes self.new) piece.now }
        ensures cause { HasCause (faults self.old) (faults self.new) result }
        ensures given { pieces self.new ≡ count_after 1 (pieces self.old) };
}
