// Reading the entries of the journal.
ghost use Rattle.std.specs.Prelude.{◌≡◌, ◌<◌};
ghost use Rattle.undo_journal.specs.Undo.{entry_address, entry_value};

use crate::layout::{CAPACITY, ENTRIES};
use nv_memory::Nv;

/// An entry of the journal.
#[derive(Debug, Clone, Copy, PartialEq, Eq)]
pub struct Entry {
    /// The address of the word that it keeps.
    pub address: u32,
    /// The old value of that word.
    pub value: u32,
}

/// The entry of this number, counted from 0. As many count as the word `COUNT` says.
pub fn entry_of<N: Nv>(nv: &N, number: u32) -> Entry
    requires within { number < CAPACITY }
    ensures address { result.address ≡ entry_address (N.words nv.now) number }
    ensures value { result.value ≡ entry_value (N.words nv.now) number }
{
    let address = nv.read(ENTRIES + 2 * number);
    let value = nv.read(ENTRIES + 2 * number + 1);
    Entry { address, value }
}
