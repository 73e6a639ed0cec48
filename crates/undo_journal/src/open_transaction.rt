// An open transaction.
ghost use Rattle.std.specs.Prelude.{◌≡◌, ◌≢◌, ◌+◌, ◌<◌, ◌≤◌, ◌↔◌, IsErr, IfOk, IfErr, OnOk, OnErr, MatchResult, Some, slice_index};
ghost use Rattle.nv_memory.specs.Budget.{spent, IsShort};
ghost use Rattle.undo_journal.specs.Undo.{IsPlain, IsJournalled, IsAtRest, undone, durable, outside, with_word, undoing, room_of};
ghost use Rattle.undo_journal.specs.Lending.{IsLent, IsWithin};

use crate::dark::Dark;
use crate::idle::Idle;
use crate::layout::{CAPACITY, COUNT};
use crate::settling::settle_uncounted;
use crate::words::Words;
use crate::writes::{change_word, clear, count_entry, keep_address, keep_value};
use nv_memory::{Cut, Nv};
use std::marker::{Brand, Model};
use std::sync::ledger::Blank;

/// An open transaction. It must be spent: by `commit`, by `undo`, or, once the power was cut, by `lose`. Its journal
/// is well formed at all times, after a cut too. Contracts see the device itself.
#[must_use]
pub struct Open<N: Nv> {
    nv: N,
}

impl<N: Nv> Model for Open<N> {
    ghost use Rattle.undo_journal.specs.Undo.{IsJournalled};

    ghost Value = { N };

    ghost view = { λ s. s.nv };

    ghost invariant = { λ s. IsJournalled (N.words s.nv) };
}

impl<N: Nv> Words for Open<N> {
    ghost present = { λ s. N.words s };

    fn word(&self, at: u32) -> u32 {
        self.nv.read(at)
    }
}

impl<N: Nv> Open<N> {
    /// Opens a transaction on a device at rest.
    pub(crate) fn of(nv: N) -> Open<N>
        requires at_rest { IsAtRest (N.words nv) }
        ensures same { result ≡ nv }
    {
        Open { nv }
    }

    /// Stores a word, in four writes: the entry's address, its old value, the count, the new value. `Cut` comes
    /// exactly where fewer than four writes are left, and then none is left. Either way the undone words are kept.
    pub fn put(&mut self, at: u32, value: u32) -> Result<(), Cut>
        requires plain { IsPlain at }
        requires room { 1 ≤ room_of (N.words self.old) }
        ensures cut { IsErr result ↔ IsShort (N.left self.old) 4 }
        ensures dark { OnErr result (N.left self.new ≡ Some 0) }
        ensures written { OnOk result (outside (N.words self.new) ≡ with_word (outside (N.words self.old)) at value) }
        ensures room { OnOk result (room_of (N.words self.old) ≡ room_of (N.words self.new) + 1) }
        ensures left { N.left self.new ≡ spent (N.left self.old) 4 }
        ensures lent { IsLent N.Nv self.old self.new }
        ensures within { OnOk result (IsWithin N.Nv self.old self.new 1) }
    {
        keep_address(&mut self.nv, at)?;
        keep_value(&mut self.nv, at)?;
        count_entry(&mut self.nv, at)?;
        change_word(&mut self.nv, at, value)?;
        Ok(())
    }

    /// How many more entries the journal has room for.
    pub fn room(&self) -> u32
        ensures room { result ≡ room_of (N.words self.now) }
    {
        CAPACITY - self.nv.read(COUNT)
    }

    /// Makes the present words the undone ones, by one write. `Dark` comes exactly where no write is left, and the
    /// words are unchanged then.
    #[tactic(auto, using(crate::proofs::LawSets::count_writes))]
    pub fn commit(self) -> Result<Idle<N>, Dark<N>>
        ensures dark { IsErr result ↔ (N.left self ≡ Some 0) }
        ensures committed { IfOk result (λ idle. durable (N.words idle) ≡ outside (N.words self)) }
        ensures outside { IfOk result (λ idle. outside (N.words idle) ≡ outside (N.words self)) }
        ensures at_rest { IfOk result (λ idle. IsAtRest (N.words idle)) }
        ensures words { IfErr result (λ dark. N.words dark ≡ N.words self) }
        ensures journalled { IfErr result (λ dark. IsJournalled (N.words dark)) }
        ensures left { MatchResult result (λ idle. N.left idle ≡ spent (N.left self) 1) (λ dark. N.left dark ≡ Some 0) }
        ensures to_come { MatchResult result (λ idle. N.to_come idle ≡ N.to_come self) (λ dark. N.to_come dark ≡ N.to_come self) }
        ensures ends { MatchResult result (λ idle. N.ends idle ≡ N.ends self) (λ dark. N.ends dark ≡ N.ends self) }
    {
        let Open { mut nv } = self;
        if clear(&mut nv).is_err() {
            return Err(Dark::of(nv));
        }
        Ok(Idle::of(nv))
    }

    /// Undoes the transaction, as `settle` does: `Dark` comes exactly where fewer writes are left than that takes.
    /// Either way the undone words are kept.
    pub fn undo(self) -> Result<Idle<N>, Dark<N>>
        ensures dark { IsErr result ↔ IsShort (N.left self) (undoing (N.words self)) }
        ensures no_write_left { IfErr result (λ dark. N.left dark ≡ Some 0) }
        ensures settled { IfOk result (λ idle. N.words idle ≡ undone (N.words self)) }
        ensures at_rest { IfOk result (λ idle. IsAtRest (N.words idle)) }
        ensures journalled { IfErr result (λ dark. IsJournalled (N.words dark)) }
        ensures count { IfErr result (λ dark. slice_index (N.words dark) 4 ≡ slice_index (N.words self) 4) }
        ensures undone { MatchResult result (λ idle. durable (N.words idle) ≡ durable (N.words self)) (λ dark. durable (N.words dark) ≡ durable (N.words self)) }
        ensures left { MatchResult result (λ idle. N.left idle ≡ spent (N.left self) (undoing (N.words self))) (λ dark. N.left dark ≡ spent (N.left self) (undoing (N.words self))) }
        ensures to_come { MatchResult result (λ idle. N.to_come idle ≡ N.to_come self) (λ dark. N.to_come dark ≡ N.to_come self) }
        ensures ends { MatchResult result (λ idle. N.ends idle ≡ N.ends self) (λ dark. N.ends dark ≡ N.ends self) }
    {
        let Open { nv } = self;
        settle_uncounted::<N, Brand>(nv, Blank::new(1))
    }

    /// Gives the transaction up after a cut.
    pub fn lose(self) -> Dark<N>
        requires dark { N.left self ≡ Some 0 }
        ensures same { result ≡ self }
        ensures journalled { IsJournalled (N.words result) }
    {
        let Open { nv } = self;
        Dark::of(nv)
    }
}
