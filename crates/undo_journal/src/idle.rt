// A device at rest: formatted, and no transaction is open.
ghost use Rattle.std.specs.Prelude.{◌≡◌};
ghost use Rattle.undo_journal.specs.Undo.{IsAtRest, room_of};

use crate::layout::CAPACITY;
use crate::open_transaction::Open;
use crate::words::Words;
use nv_memory::Nv;
use std::marker::Model;

/// A formatted device with an empty journal. Contracts see the device itself.
#[must_use]
pub struct Idle<N: Nv> {
    nv: N,
}

impl<N: Nv> Model for Idle<N> {
    ghost use Rattle.undo_journal.specs.Undo.{IsAtRest};

    ghost Value = { N };

    ghost view = { λ s. s.nv };

    ghost invariant = { λ s. IsAtRest (N.words s.nv) };
}

impl<N: Nv> Words for Idle<N> {
    ghost present = { λ s. N.words s };

    fn word(&self, at: u32) -> u32 {
        self.nv.read(at)
    }
}

impl<N: Nv> Idle<N> {
    /// Takes a formatted device with an empty journal.
    pub(crate) fn of(nv: N) -> Idle<N>
        requires at_rest { IsAtRest (N.words nv) }
        ensures same { result ≡ nv }
    {
        Idle { nv }
    }

    /// Opens a transaction, which has room for 1,280 entries.
    pub fn begin(self) -> Open<N>
        ensures same { result ≡ self }
        ensures at_rest { IsAtRest (N.words result) }
        ensures room { room_of (N.words result) ≡ CAPACITY }
    {
        let Idle { nv } = self;
        Open::of(nv)
    }

    /// Hands the device back.
    pub fn rest(self) -> N
        ensures same { result ≡ self }
        ensures at_rest { IsAtRest (N.words result) }
    {
        let Idle { nv } = self;
        nv
    }
}
