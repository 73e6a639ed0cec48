//! A sink in memory.
ghost use Rattle.std.specs.Prelude.{◌≡◌, ◌+◌, ◌≤◌, ◌<◌, ◌++◌, [], length, Some, IfOk, OnOk, OnErr, IsErr, IsTrue, ◌||◌, nat_lt, ◌↔◌};
ghost use Rattle.outer_world.specs.Causes.{count_after, HasCause};
ghost use Rattle.outer_world.specs.Written.{Puts};
ghost use Rattle.outer_world.specs.Failing.{is_listed};
ghost use Rattle.outer_world.specs.SinkState.{is_refused};

use crate::failing::is_to_fail;
use crate::fault::{NoMemory, SinkFault};
use crate::sink::Sink;
use std::alloc::Global;
use std::marker::Model;

/// A sink that holds what it took, in memory that it has from the start, and fails where it is told
/// to.
#[derive(Drop)]
pub struct MemSink {
    held: Vec<u8>,
    room: u32,
    failing: Vec<u32>,
    calls: u64,
    faults: u64,
}

impl Model for MemSink {
    ghost use Rattle.std.specs.Prelude.{◌≤◌, length, vec_capacity};
    ghost use Rattle.outer_world.specs.SinkState.{SinkState};

    ghost Value = { SinkState };

    ghost view = { λ sink. record { bytes = sink.held.items; room = sink.room; failing = sink.failing.items; calls = sink.calls; faults = sink.faults } };

    ghost invariant = { λ sink. (length sink.held.items ≤ sink.room) × (sink.room ≤ vec_capacity sink.held) };
}

impl MemSink {
    /// An empty sink with room for `room` bytes, whose calls with the numbers in `failing`, counted
    /// from 1, fail. It takes all its memory here. The number of a call stops at 2^64 - 1, which no
    /// such list has.
    ///
    /// # Errors
    ///
    /// `NoMemory` where there is no memory for that many bytes.
    pub fn new(alloc: Global, room: u32, failing: Vec<u32>) -> Result<MemSink, NoMemory>
        ensures made { IfOk result (λ sink.
            sink ≡ record { bytes = []; room = room; failing = failing.items; calls = 0; faults = 0 }) }
    {
        let Ok(held) = Vec::with_capacity(alloc, room as usize) else {
            return Err(NoMemory);
        };
        Ok(MemSink {
            held,
            room,
            failing,
            calls: 0,
            faults: 0,
        })
    }

    // Counts a fault and answers it.
    fn fail(&mut self) -> Result<(), SinkFault>
        ensures failed { IsErr result }
        ensures counted { self.new ≡ record self.old { faults = count_after 1 self.old.faults } }
    {
        self.faults = self.faults.saturating_add(1);
        Err(SinkFault)
    }

    /// The bytes that were taken so far.
    pub fn bytes(&self) -> &[u8]
        ensures held { result.now ≡ self.now.bytes }
    {
        self.held.as_slice()
    }
}

impl Sink for MemSink {
    ghost bytes = { λ sink. Some sink.bytes };

    ghost faults = { λ sink. sink.faults };

    ghost pieces = { λ sink. sink.calls };

    #[tactic(auto, using(crate::proofs::WrittenLaws::written), unfolding(crate::specs::Written::put_to))]
    fn put(&mut self, piece: &[u8]) -> Result<(), SinkFault>
        ensures puts { Puts result (Some self.old.bytes) (Some self.new.bytes) piece.now }
        ensures cause { HasCause self.old.faults self.new.faults result }
        ensures given { self.new.calls ≡ count_after 1 self.old.calls }
        ensures refused { IsErr result ↔ IsTrue (is_refused self.old piece.now) }
        ensures taken { OnOk result (self.new ≡ record self.old {
          bytes = self.old.bytes ++ piece.now;
          calls = count_after 1 self.old.calls;
        }) }
        ensures untaken { OnErr result (self.new ≡ record self.old {
          calls = count_after 1 self.old.calls;
          faults = count_after 1 self.old.faults;
        }) }
    {
        self.calls = self.calls.saturating_add(1);
        if is_to_fail(&self.failing, self.calls) {
            return self.fail();
        }
        if piece.len() > self.room as usize - self.held.len() {
            return self.fail();
        }
        match self.held.extend_from_slice(piece) {
            Ok(()) => Ok(()),
            Err(_) => unreachable!(),
        }
    }
}
