// The single writes of the journal. Before and after each of them the undone words are the same.
ghost use Rattle.std.specs.Prelude.{◌≡◌, ◌+◌, ◌<◌, ◌≤◌, ◌↔◌, IsErr, OnOk, OnErr, Some, slice_index, slice_set};
ghost use Rattle.nv_memory.specs.Budget.{spent};
ghost use Rattle.undo_journal.specs.Undo.{entry_address, IsPlain, IsJournalled, IsAtRest, IsReady, IsLast, restored, durable, outside, with_word, room_of};
ghost use Rattle.undo_journal.specs.Lending.{IsLent};

use crate::entry::entry_of;
use crate::layout::{COUNT, ENTRIES};
use nv_memory::{Cut, Nv};

/// Writes an address into the entry behind those that count.
#[tactic(auto, using(crate::proofs::LawSets::entry_writes))]
pub(crate) fn keep_address<N: Nv>(nv: &mut N, at: u32) -> Result<(), Cut>
    requires journalled { IsJournalled (N.words nv.old) }
    requires room { 1 ≤ room_of (N.words nv.old) }
    ensures cut { IsErr result ↔ (N.left nv.old ≡ Some 0) }
    ensures address { OnOk result (entry_address (N.words nv.new) (slice_index (N.words nv.new) 4) ≡ at) }
    ensures count { slice_index (N.words nv.new) 4 ≡ slice_index (N.words nv.old) 4 }
    ensures outside { outside (N.words nv.new) ≡ outside (N.words nv.old) }
    ensures journalled { IsJournalled (N.words nv.new) }
    ensures left { N.left nv.new ≡ spent (N.left nv.old) 1 }
    ensures lent { IsLent N.Nv nv.old nv.new }
{
    let count = nv.read(COUNT);
    nv.write(ENTRIES + 2 * count, at)?;
    Ok(())
}

/// Writes the word that stands at that address behind it.
#[tactic(auto, using(crate::proofs::LawSets::entry_writes))]
pub(crate) fn keep_value<N: Nv>(nv: &mut N, at: u32) -> Result<(), Cut>
    requires journalled { IsJournalled (N.words nv.old) }
    requires room { 1 ≤ room_of (N.words nv.old) }
    requires plain { IsPlain at }
    requires address { entry_address (N.words nv.old) (slice_index (N.words nv.old) 4) ≡ at }
    ensures cut { IsErr result ↔ (N.left nv.old ≡ Some 0) }
    ensures ready { OnOk result (IsReady (N.words nv.new) at) }
    ensures count { slice_index (N.words nv.new) 4 ≡ slice_index (N.words nv.old) 4 }
    ensures outside { outside (N.words nv.new) ≡ outside (N.words nv.old) }
    ensures journalled { IsJournalled (N.words nv.new) }
    ensures left { N.left nv.new ≡ spent (N.left nv.old) 1 }
    ensures lent { IsLent N.Nv nv.old nv.new }
{
    let count = nv.read(COUNT);
    let old = nv.read(at);
    nv.write(ENTRIES + 2 * count + 1, old)?;
    Ok(())
}

/// Counts the entry behind those that count.
#[tactic(auto, using(crate::proofs::LawSets::count_writes))]
pub(crate) fn count_entry<N: Nv>(nv: &mut N, at: u32) -> Result<(), Cut>
    requires journalled { IsJournalled (N.words nv.old) }
    requires room { 1 ≤ room_of (N.words nv.old) }
    requires plain { IsPlain at }
    requires ready { IsReady (N.words nv.old) at }
    ensures cut { IsErr result ↔ (N.left nv.old ≡ Some 0) }
    ensures last { OnOk result (IsLast (N.words nv.new) at) }
    ensures count { OnOk result (slice_index (N.words nv.new) 4 ≡ slice_index (N.words nv.old) 4 + 1) }
    ensures outside { outside (N.words nv.new) ≡ outside (N.words nv.old) }
    ensures journalled { IsJournalled (N.words nv.new) }
    ensures left { N.left nv.new ≡ spent (N.left nv.old) 1 }
    ensures lent { IsLent N.Nv nv.old nv.new }
{
    let count = nv.read(COUNT);
    nv.write(COUNT, count + 1)?;
    Ok(())
}

/// Writes a word whose old value the last entry keeps.
#[tactic(auto, using(crate::proofs::LawSets::word_writes))]
pub(crate) fn change_word<N: Nv>(nv: &mut N, at: u32, value: u32) -> Result<(), Cut>
    requires journalled { IsJournalled (N.words nv.old) }
    requires plain { IsPlain at }
    requires last { IsLast (N.words nv.old) at }
    ensures cut { IsErr result ↔ (N.left nv.old ≡ Some 0) }
    ensures written { OnOk result (outside (N.words nv.new) ≡ with_word (outside (N.words nv.old)) at value) }
    ensures count { slice_index (N.words nv.new) 4 ≡ slice_index (N.words nv.old) 4 }
    ensures journalled { IsJournalled (N.words nv.new) }
    ensures left { N.left nv.new ≡ spent (N.left nv.old) 1 }
    ensures lent { IsLent N.Nv nv.old nv.new }
{
    nv.write(at, value)?;
    Ok(())
}

/// Writes the old value of an entry back.
#[tactic(auto, using(crate::proofs::LawSets::restores))]
pub(crate) fn restore<N: Nv>(nv: &mut N, entry: u32) -> Result<(), Cut>
    requires journalled { IsJournalled (N.words nv.old) }
    requires entry { entry < slice_index (N.words nv.old) 4 }
    ensures cut { IsErr result ↔ (N.left nv.old ≡ Some 0) }
    ensures restored { OnOk result (restored entry (N.words nv.new) ≡ restored (entry + 1) (N.words nv.old)) }
    ensures count { slice_index (N.words nv.new) 4 ≡ slice_index (N.words nv.old) 4 }
    ensures journalled { IsJournalled (N.words nv.new) }
    ensures left { N.left nv.new ≡ spent (N.left nv.old) 1 }
    ensures lent { IsLent N.Nv nv.old nv.new }
{
    let kept = entry_of(nv, entry);
    nv.write(kept.address, kept.value)?;
    Ok(())
}

/// Writes 0 over the count.
#[tactic(auto, using(crate::proofs::LawSets::count_writes))]
pub(crate) fn clear<N: Nv>(nv: &mut N) -> Result<(), Cut>
    requires journalled { IsJournalled (N.words nv.old) }
    ensures cut { IsErr result ↔ (N.left nv.old ≡ Some 0) }
    ensures cleared { OnOk result (N.words nv.new ≡ slice_set (N.words nv.old) 4 0) }
    ensures at_rest { OnOk result (IsAtRest (N.words nv.new)) }
    ensures outside { OnOk result (outside (N.words nv.new) ≡ outside (N.words nv.old)) }
    ensures unwritten { OnErr result (N.words nv.new ≡ N.words nv.old) }
    ensures left { N.left nv.new ≡ spent (N.left nv.old) 1 }
    ensures to_come { N.to_come nv.new ≡ N.to_come nv.old }
    ensures ends { N.ends nv.new ≡ N.ends nv.old }
{
    nv.write(COUNT, 0)?;
    Ok(())
}
