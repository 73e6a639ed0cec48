// How many events the words of a device show.
ghost use Rattle.std.specs.Prelude.{◌≡◌, slice_index};
ghost use Rattle.undo_journal.specs.Undo.{magic, IsJournalled};
ghost use Rattle.replay_list.specs.Kept.{counter_of};

use kernel_image::EVENTS;
use nv_memory::Nv;
use undo_journal::{COUNT, MAGIC, MAGIC_WORD, entry_of};

/// How many events a device shows with its journal undone, which it isn't yet: the old value of the first entry that keeps
/// word 1, or else word 1; none where nothing is formatted (docs/RECOVERY.md). It writes nothing and counts no step.
pub fn counter<N: Nv>(nv: &N) -> u32
    requires journalled { slice_index (N.words nv.now) 0 ≡ magic → IsJournalled (N.words nv.now) }
    ensures counter { result ≡ counter_of (N.words nv.now) }
{
    if nv.read(MAGIC_WORD) != MAGIC {
        return 0;
    }
    let entries = nv.read(COUNT);
    for number in 0..entries {
        let entry = entry_of(nv, number);
        if entry.address == EVENTS {
            return entry.value;
        }
    }
    nv.read(EVENTS)
}
