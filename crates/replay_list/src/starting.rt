// The values with which a thread starts.
ghost use Rattle.std.specs.Prelude.{◌≡◌, ◌+◌, ◌<◌, ◌≤◌, ◌*◌, ◌++◌, IsErr, OnOk, OnErr, Some, length, drop, slice_set};
ghost use Rattle.nv_memory.specs.Budget.{IsShort};
ghost use Rattle.undo_journal.specs.Undo.{room_of};
ghost use Rattle.undo_journal.specs.Lending.{IsLent, IsWithin};
ghost use Rattle.kernel_image.specs.Decoded.{image_in, row_at, with_row};
ghost use Rattle.replay_list.specs.Records.{values_in};

use arrayvec::ArrayVec;
use kernel_image::{Cell, START_COUNT, load, store};
use nv_memory::{Cut, Nv};
use thread_tree::{ROWS, START_VALUES};
use undo_journal::{Open, Words};

// How many values a thread starts with.
#[tactic(auto, using(kernel_image::proofs::Callers::image_laws))]
fn value_count<W: Words>(words: &W, thread: u32) -> u32
    requires thread { thread < ROWS }
    ensures count { result ≡ (row_at (image_in (W.present words.now)) thread).start_count }
{
    load(words, Cell::RowWord(thread, START_COUNT))
}

/// The values, at most sixteen, with which a thread, 0 to 15, starts: those of its parameters at its birth, or of the
/// locals in scope at the last turn of a persistent loop (docs/RECORDS.md).
#[tactic(auto, using(crate::proofs::LawSets::value_laws))]
pub fn start_values<W: Words>(words: &W, thread: u32) -> ArrayVec<u32, START_VALUES>
    requires thread { thread < ROWS }
    requires few { (row_at (image_in (W.present words.now)) thread).start_count ≤ START_VALUES }
    ensures values { result.items ≡ values_in (row_at (image_in (W.present words.now)) thread) }
{
    let count = value_count(words, thread);
    let mut values = ArrayVec::new();
    for i in 0..count {
        values.push(load(words, Cell::StartValue(thread, i)));
    }
    values
}

// Stores one of the values with which a thread starts.
#[tactic(auto, using(kernel_image::proofs::Callers::store_laws))]
fn store_value<N: Nv>(tx: &mut Open<N>, thread: u32, at: u32, value: u32) -> Result<(), Cut>
    requires thread { thread < ROWS }
    requires within { at < START_VALUES }
    requires room { 1 ≤ room_of (N.words tx.old) }
    ensures stored { OnOk result (image_in (N.words tx.new) ≡ with_row (image_in (N.words tx.old)) thread (record (row_at (image_in (N.words tx.old)) thread) { start_values = slice_set (row_at (image_in (N.words tx.old)) thread).start_values at value })) }
    ensures cut { IsErr result → IsShort (N.left tx.old) 4 }
    ensures dark { OnErr result (N.left tx.new ≡ Some 0) }
    ensures lent { IsLent N.Nv tx.old tx.new }
    ensures within { OnOk result (IsWithin N.Nv tx.old tx.new 1) }
{
    store(tx, Cell::StartValue(thread, at), value)?;
    Ok(())
}

/// Stores the values, at most sixteen, with which a thread, 0 to 15, starts, from the first on; those behind them stay.
/// Their count and the start itself are other words. On `Cut` fewer writes were left than four for each value, and none
/// is left.
pub fn store_values<N: Nv>(tx: &mut Open<N>, thread: u32, values: &[u32]) -> Result<(), Cut>
    requires thread { thread < ROWS }
    requires few { length values.now ≤ START_VALUES }
    requires room { length values.now ≤ room_of (N.words tx.old) }
    ensures stored { OnOk result (image_in (N.words tx.new) ≡ with_row (image_in (N.words tx.old)) thread (record (row_at (image_in (N.words tx.old)) thread)
        { start_values = values.now ++ drop (length values.now) (row_at (image_in (N.words tx.old)) thread).start_values })) }
    ensures cut { IsErr result → IsShort (N.left tx.old) (4 * length values.now) }
    ensures dark { OnErr result (N.left tx.new ≡ Some 0) }
    ensures lent { IsLent N.Nv tx.old tx.new }
    ensures within { OnOk result (IsWithin N.Nv tx.old tx.new (length values.now)) }
{
    for at in 0..values.len() {
        store_value(tx, thread, at as u32, values[at])?;
    }
    Ok(())
}
