// Changing the records of a thread.
ghost use Rattle.std.specs.Prelude.{◌≡◌, ◌+◌, ◌<◌, ◌≤◌, ◌++◌, IsErr, OnOk, OnErr, Some, length, take, drop, slice_set};
ghost use Rattle.nv_memory.specs.Budget.{IsShort};
ghost use Rattle.undo_journal.specs.Undo.{room_of};
ghost use Rattle.undo_journal.specs.Lending.{IsLent, IsWithin};
ghost use Rattle.kernel_image.specs.Decoded.{image_in, row_at, with_row};
ghost use Rattle.replay_list.specs.Records.{IsAppended};

use crate::reading::words_used;
use kernel_image::{Cell, USED, store};
use nv_memory::{Cut, Nv};
use thread_tree::{RECORD_WORDS, ROWS};
use undo_journal::Open;

// Stores a word of the records of a thread.
#[tactic(auto, using(kernel_image::proofs::Callers::store_laws))]
fn store_word<N: Nv>(tx: &mut Open<N>, thread: u32, at: u32, word: u32) -> Result<(), Cut>
    requires thread { thread < ROWS }
    requires within { at < RECORD_WORDS }
    requires room { 1 ≤ room_of (N.words tx.old) }
    ensures stored { OnOk result (image_in (N.words tx.new) ≡ with_row (image_in (N.words tx.old)) thread (record (row_at (image_in (N.words tx.old)) thread) { records = slice_set (row_at (image_in (N.words tx.old)) thread).records at word })) }
    ensures cut { IsErr result → IsShort (N.left tx.old) 4 }
    ensures dark { OnErr result (N.left tx.new ≡ Some 0) }
    ensures lent { IsLent N.Nv tx.old tx.new }
    ensures within { OnOk result (IsWithin N.Nv tx.old tx.new 1) }
{
    store(tx, Cell::RecordWord(thread, at), word)?;
    Ok(())
}

// Stores how many words of the records of a thread are used.
#[tactic(auto, using(kernel_image::proofs::Callers::store_laws))]
fn store_used<N: Nv>(tx: &mut Open<N>, thread: u32, used: u32) -> Result<(), Cut>
    requires thread { thread < ROWS }
    requires room { 1 ≤ room_of (N.words tx.old) }
    ensures stored { OnOk result (image_in (N.words tx.new) ≡ with_row (image_in (N.words tx.old)) thread (record (row_at (image_in (N.words tx.old)) thread) { used = used })) }
    ensures cut { IsErr result → IsShort (N.left tx.old) 4 }
    ensures dark { OnErr result (N.left tx.new ≡ Some 0) }
    ensures lent { IsLent N.Nv tx.old tx.new }
    ensures within { OnOk result (IsWithin N.Nv tx.old tx.new 1) }
{
    store(tx, Cell::RowWord(thread, USED), used)?;
    Ok(())
}

// Stores words of the records of a thread, one after another.
fn store_results<N: Nv>(
    tx: &mut Open<N>,
    thread: u32,
    from: u32,
    results: &[u32],
) -> Result<(), Cut>
    requires thread { thread < ROWS }
    requires few { length results.now ≤ 4 }
    requires fits { from + length results.now ≤ RECORD_WORDS }
    requires room { 4 ≤ room_of (N.words tx.old) }
    ensures stored { OnOk result (image_in (N.words tx.new) ≡ with_row (image_in (N.words tx.old)) thread (record (row_at (image_in (N.words tx.old)) thread)
        { records = take from (row_at (image_in (N.words tx.old)) thread).records ++ (results.now ++ drop (from + length results.now) (row_at (image_in (N.words tx.old)) thread).records) })) }
    ensures cut { IsErr result → IsShort (N.left tx.old) 16 }
    ensures dark { OnErr result (N.left tx.new ≡ Some 0) }
    ensures lent { IsLent N.Nv tx.old tx.new }
    ensures within { OnOk result (IsWithin N.Nv tx.old tx.new 4) }
{
    for at in 0..results.len() {
        store_word(tx, thread, from + at as u32, results[at])?;
    }
    Ok(())
}

/// Appends a record to those of a thread, 0 to 15: its kind word, its results, and then the words used. On `Cut`
/// fewer than 24 writes were left, and none is left.
#[tactic(auto, using(undo_journal::proofs::Callers::lending_laws, undo_journal::proofs::Callers::weakening_laws))]
pub fn append<N: Nv>(
    tx: &mut Open<N>,
    thread: u32,
    kind_word: u32,
    results: &[u32],
) -> Result<(), Cut>
    requires thread { thread < ROWS }
    requires few { length results.now ≤ 4 }
    requires fits { (row_at (image_in (N.words tx.old)) thread).used + 1 + length results.now ≤ RECORD_WORDS }
    requires room { 6 ≤ room_of (N.words tx.old) }
    ensures appended { OnOk result (IsAppended thread kind_word results.now (image_in (N.words tx.old)) (image_in (N.words tx.new))) }
    ensures cut { IsErr result → IsShort (N.left tx.old) 24 }
    ensures dark { OnErr result (N.left tx.new ≡ Some 0) }
    ensures lent { IsLent N.Nv tx.old tx.new }
    ensures within { OnOk result (IsWithin N.Nv tx.old tx.new 6) }
{
    let used = words_used(tx, thread);
    store_word(tx, thread, used, kind_word)?;
    store_results(tx, thread, used + 1, results)?;
    store_used(tx, thread, used + 1 + results.len() as u32)?;
    Ok(())
}

/// Empties the records of a thread, 0 to 15. On `Cut` fewer than four writes were left, and none is left.
pub fn clear<N: Nv>(tx: &mut Open<N>, thread: u32) -> Result<(), Cut>
    requires thread { thread < ROWS }
    requires room { 1 ≤ room_of (N.words tx.old) }
    ensures cleared { OnOk result (image_in (N.words tx.new) ≡ with_row (image_in (N.words tx.old)) thread (record (row_at (image_in (N.words tx.old)) thread) { used = 0 })) }
    ensures cut { IsErr result → IsShort (N.left tx.old) 4 }
    ensures dark { OnErr result (N.left tx.new ≡ Some 0) }
    ensures lent { IsLent N.Nv tx.old tx.new }
    ensures within { OnOk result (IsWithin N.Nv tx.old tx.new 1) }
{
    store_used(tx, thread, 0)?;
    Ok(())
}
