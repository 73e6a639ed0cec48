//! Files of the system.
ghost use Rattle.std.specs.Prelude.{◌≡◌, ◌≤◌, [], None, Err, OnOk, OnErr};
ghost use Rattle.outer_world.specs.Reading.{IsWhole, IsBegun, IsTooLong};

use crate::fault::FileFault;
use crate::files::Files;
use std::alloc::Global;
use std::io::Read;
use std::marker::Model;
use std::{fs, rt};

/// The most bytes that one call of the system reads.
const PIECE: usize = 4096;

/// The files of the system, whose bytes are not told.
#[derive(Drop)]
pub struct DiskFiles<R> {
    runtime: R,
    taken: u64,
    faults: u64,
}

impl<R> Model for DiskFiles<R> {
    ghost use Rattle.outer_world.specs.DiskCounts.{DiskCounts};

    ghost Value = { DiskCounts };

    ghost view = { λ files. record { taken = files.taken; faults = files.faults } };
}

impl<R: rt::Files> DiskFiles<R> {
    /// The files that this runtime opens.
    pub fn new(runtime: R) -> DiskFiles<R>
        ensures made { result ≡ record { taken = 0; faults = 0 } }
    {
        DiskFiles {
            runtime,
            taken: 0,
            faults: 0,
        }
    }
}

/// Reads a file to its end, or until more than `limit` bytes came, and adds the number of bytes that came to `taken`.
///
/// # Errors
///
/// `TooLong` where more than `limit` bytes came, `Failed` where a call of the file did, and `NoMemory`.
#[tactic(auto, using(crate::proofs::ConsumedLaws::consumed))]
pub fn read_within<F: Read>(
    file: &mut F,
    limit: u32,
    into: &mut Vec<u8>,
    taken: &mut u64,
) -> Result<(), FileFault>
    requires empty { into.old.items ≡ [] }
    ensures later { taken.old ≤ taken.new }
    ensures whole { OnOk result (IsWhole (F.remaining file.old) limit into.new.items
        taken.old taken.new) }
    ensures too_long { result ≡ Err FileFault.TooLong →
        IsTooLong (F.remaining file.old) limit taken.old taken.new }
    ensures refused { OnErr result (IsBegun (F.remaining file.old) into.new.items
        taken.old taken.new) }
{
    let limit = limit as usize;
    let before = *taken;
    let mut buffer = [0; PIECE];
    'pieces: while into.len() <= limit {
        let most = PIECE.min(limit + 1 - into.len());
        let Ok(count) = file.read(&mut buffer[..most]) else {
            return Err(FileFault::Failed);
        };
        if count == 0 {
            return Ok(());
        }
        *taken = before.saturating_add((into.len() + count) as u64);
        if into.extend_from_slice(&buffer[..count]).is_err() {
            return Err(FileFault::NoMemory);
        }
    }
    Err(FileFault::TooLong)
}

impl<R: rt::Files> Files for DiskFiles<R> {
    ghost contents = { λ _ _. None };

    ghost taken = { λ files. files.taken };

    ghost faults = { λ files. files.faults };

    ghost allowed = { λ _ _. Unit {0} };

    fn read_all(
        &mut self,
        _alloc: Global,
        name: &str,
        limit: u32,
        into: &mut Vec<u8>,
    ) -> Result<(), FileFault> {
        let answer = match fs::open(&self.runtime, name) {
            Ok(mut file) => read_within(&mut file, limit, into, &mut self.taken),
            Err(_) => Err(FileFault::Failed),
        };
        if answer == Err(FileFault::Failed) {
            self.faults = self.faults.saturating_add(1);
        }
        answer
    }
}
