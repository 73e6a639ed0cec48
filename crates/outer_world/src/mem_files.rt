//! Files in memory.
ghost use Rattle.std.specs.Prelude.{◌≡◌, ◌≤◌, ◌<◌, ◌↔◌, [], length, None, Some, Err, OnOk, OnErr, MatchOption, IsSomeAnd};
ghost use Rattle.std.specs.Option.{option_copied};
ghost use Rattle.outer_world.specs.Reading.{IsWhole, IsBegun, IsTooLong, HasFileCause};
ghost use Rattle.outer_world.specs.FilesState.{file_of, bytes_of, readable, after_call};

use crate::failing::is_to_fail;
use crate::fault::FileFault;
use crate::files::Files;
use crate::mem_file::MemFile;
use std::alloc::Global;
use std::marker::Model;

/// Files that are held in memory, and fail where they are told to.
#[derive(Drop)]
pub struct MemFiles {
    held: Vec<MemFile>,
    failing: Vec<u32>,
    calls: u64,
    taken: u64,
    faults: u64,
}

impl Model for MemFiles {
    ghost use Rattle.outer_world.specs.FilesState.{FilesState};

    ghost Value = { FilesState };

    ghost view = { λ files. record { files = files.held.items; failing = files.failing.items; calls = files.calls; taken = files.taken; faults = files.faults } };
}

impl MemFiles {
    /// These files, where the calls with the numbers in `failing`, counted from 1, fail. The number
    /// of a call stops at 2^64 - 1, which no such list has. Of two files of one name the first
    /// counts.
    pub fn new(files: Vec<MemFile>, failing: Vec<u32>) -> MemFiles
        ensures made { result ≡ record {
          files = files.items;
          failing = failing.items;
          calls = 0;
          taken = 0;
          faults = 0;
        } }
    {
        MemFiles {
            held: files,
            failing,
            calls: 0,
            taken: 0,
            faults: 0,
        }
    }
}

// The first file of this name.
fn find_file<'a>(files: &'a [MemFile], name: &str) -> Option<&'a MemFile>
    ensures found { option_copied result ≡ file_of files.now name.now }
{
    files.iter().find(|file| file.is_named(name))
}

// The bytes of the first file of this name.
fn find_bytes<'a>(files: &'a [MemFile], name: &str) -> Option<&'a [u8]>
    ensures found { MatchOption result (bytes_of files.now name.now ≡ None)
        (λ bytes. bytes_of files.now name.now ≡ Some bytes.now) }
{
    Some(find_file(files, name)?.bytes())
}

impl Files for MemFiles {
    ghost contents = { λ files name. bytes_of files.files name };

    ghost taken = { λ files. files.taken };

    ghost faults = { λ files. files.faults };

    ghost allowed = { λ _ _. Unit {0} };

    fn read_all(
        &mut self,
        _alloc: Global,
        name: &str,
        limit: u32,
        into: &mut Vec<u8>,
    ) -> Result<(), FileFault>
        requires empty { into.old.items ≡ [] }
        ensures files { bytes_of self.new.files ≡ bytes_of self.old.files }
        ensures later { self.old.taken ≤ self.new.taken }
        ensures whole { OnOk result (IsWhole (bytes_of self.old.files name.now) limit into.new.items
            self.old.taken self.new.taken) }
        ensures too_long { result ≡ Err FileFault.TooLong →
            IsTooLong (bytes_of self.old.files name.now) limit self.old.taken self.new.taken }
        ensures refused { OnErr result (IsBegun (bytes_of self.old.files name.now) into.new.items
            self.old.taken self.new.taken) }
        ensures cause { HasFileCause self.old.faults self.new.faults result }

        // Which answer comes, and what is left, exactly.
        ensures fails { (result ≡ Err FileFault.Failed) ↔ (readable self.old name.now ≡ None) }
        ensures is_longer { (result ≡ Err FileFault.TooLong) ↔
            IsSomeAnd (readable self.old name.now) (λ bytes. limit < length bytes) }
        ensures reads { OnOk result (readable self.old name.now ≡ Some into.new.items) }
        ensures leaves { OnErr result (into.new.items ≡ []) }
        ensures counts { self.new ≡ after_call self.old limit into.new.items result }
    {
        self.calls = self.calls.saturating_add(1);
        if is_to_fail(&self.failing, self.calls) {
            self.faults = self.faults.saturating_add(1);
            return Err(FileFault::Failed);
        }
        let Some(bytes) = find_bytes(&self.held, name) else {
            self.faults = self.faults.saturating_add(1);
            return Err(FileFault::Failed);
        };
        if bytes.len() > limit as usize {
            self.taken = self.taken.saturating_add(u64::from(limit) + 1);
            return Err(FileFault::TooLong);
        }
        if into.extend_from_slice(bytes).is_err() {
            return Err(FileFault::NoMemory);
        }
        self.taken = self.taken.saturating_add(into.len() as u64);
        Ok(())
    }
}
