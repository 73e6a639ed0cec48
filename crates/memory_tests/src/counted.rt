// A device that counts the words that are read.
use nv_memory::{Cut, NoMemory, Nv, SimNv};
use std::alloc::Global;
use std::cell::Cell;

/// A device in memory, and the number of words that were read from it.
#[derive(Drop)]
pub(crate) struct Counted<'a> {
    pub(crate) nv: SimNv,
    pub(crate) reads: &'a Cell<u32>,
}

impl<'a> Nv for Counted<'a> {
    ghost words = { λ counted. ⟦<SimNv as Nv>⟧.words counted.nv };

    ghost left = { λ counted. ⟦<SimNv as Nv>⟧.left counted.nv };

    ghost to_come = { λ counted. ⟦<SimNv as Nv>⟧.to_come counted.nv };

    ghost ends = { λ counted. ⟦<SimNv as Nv>⟧.ends counted.nv };

    ghost sized = { λ counted. counted.nv.sized };

    ghost use Rattle.nv_memory.specs.Blank.{slice_index-lt};

    ghost fits = { λ counted at. slice_index-lt counted.nv.words.items at counted.nv.fits };

    fn plan(&mut self, alloc: Global, budgets: &[u32]) -> Result<(), NoMemory> {
        self.nv.plan(alloc, budgets)
    }

    fn read(&self, at: u32) -> u32 {
        self.reads.set(self.reads.get().wrapping_add(1));
        self.nv.read(at)
    }

    fn write(&mut self, at: u32, value: u32) -> Result<(), Cut> {
        self.nv.write(at, value)
    }

    fn power_up(&mut self) {
        self.nv.power_up();
    }
}
