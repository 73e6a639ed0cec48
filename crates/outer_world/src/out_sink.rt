//! Standard output as a sink.
ghost use Rattle.std.specs.Prelude.{◌≡◌, None, OnOk, OnErr};
ghost use Rattle.std.specs.Io.KnownBytes.{Appends};

use crate::fault::SinkFault;
use crate::sink::Sink;
use std::io::{self, Write};
use std::marker::Model;

/// Standard output, whose bytes are not told.
#[derive(Drop)]
pub struct OutSink<R> {
    runtime: R,
    faults: u64,
    pieces: u64,
}

impl<R> Model for OutSink<R> {
    ghost use Rattle.outer_world.specs.OutCounts.{OutCounts};

    ghost Value = { OutCounts };

    ghost view = { λ sink. record { faults = sink.faults; pieces = sink.pieces } };
}

impl<R: Print> OutSink<R> {
    /// The standard output of this runtime.
    pub fn new(runtime: R) -> OutSink<R>
        ensures made { result ≡ record { faults = 0; pieces = 0 } }
    {
        OutSink {
            runtime,
            faults: 0,
            pieces: 0,
        }
    }
}

/// Writes the whole piece and flushes it. A write that takes nothing of what is left has failed.
///
/// # Errors
///
/// `SinkFault` where a write or the flush failed.
#[tactic(auto, using(crate::proofs::AppendedLaws::appended))]
pub fn write_whole<W: Write>(out: &mut W, piece: &[u8]) -> Result<(), SinkFault>
    ensures whole { OnOk result (Appends (W.contents out.old) (W.contents out.new) piece.now) }
{
    let mut written = 0;
    'pieces: while written < piece.len() {
        match out.write(&piece[written..]) {
            Ok(0) | Err(_) => return Err(SinkFault),
            Ok(count) => written += count,
        }
    }
    match out.flush() {
        Ok(()) => Ok(()),
        Err(_) => Err(SinkFault),
    }
}

impl<R: Print> Sink for OutSink<R> {
    ghost bytes = { λ _. None };

    ghost faults = { λ sink. sink.faults };

    ghost pieces = { λ sink. sink.pieces };

    #[tactic(auto, using(crate::proofs::WrittenLaws::written), unfolding(crate::specs::Written::put_to))]
    fn put(&mut self, piece: &[u8]) -> Result<(), SinkFault> {
        self.pieces = self.pieces.saturating_add(1);
        match write_whole(&mut io::writer(&self.runtime), piece) {
            Ok(()) => Ok(()),
            Err(fault) => {
                self.faults = self.faults.saturating_add(1);
                Err(fault)
            }
        }
    }
}
