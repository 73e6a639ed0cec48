// Appending to the console.
ghost use Rattle.std.specs.Prelude.{◌≡◌, ◌+◌, ◌*◌, ◌/◌, ◌<◌, ◌≤◌, ◌++◌, ℕ, Some, true, false, length, slice_index, nat_le, IsErr, OnErr, OnOk, IfOk};
ghost use Rattle.nv_memory.specs.Budget.{IsShort};
ghost use Rattle.undo_journal.specs.Undo.{room_of};
ghost use Rattle.undo_journal.specs.Lending.{IsLent, IsWithin};
ghost use Rattle.kernel_image.specs.Decoded.{image_in};
ghost use Rattle.kernel_image.specs.Shown.{byte_of};
ghost use Rattle.console_store.specs.Console.{IsAppended, bytes_in, byte_in_word, grown_byte};

use crate::reading::{byte_in, length};
use kernel_image::{CONSOLE_LENGTH, Cell, load, store};
use nv_memory::{Cut, Nv};
use thread_tree::CONSOLE_BYTES;
use undo_journal::Open;

// Byte `at` of a console of this length with bytes behind it, of which this word has the old ones; 0 behind them all.
fn grown_byte(word: u32, len: u32, bytes: &[u8], at: u32) -> u8
    ensures byte { result ≡ grown_byte word len bytes.now at }
{
    if at < len {
        return byte_in(word, at);
    }
    match bytes.get((at - len) as usize) {
        Some(byte) => *byte,
        None => 0,
    }
}

// Word `i` of a console of this length with bytes behind it, where this word stood there.
fn grown_word(word: u32, len: u32, bytes: &[u8], i: u32) -> u32
    requires within { i < 2048 }
    ensures bytes { (k : ℕ) → k < 4 → byte_in_word result k ≡ grown_byte word len bytes.now (4 * i + k) }
{
    let first = grown_byte(word, len, bytes, 4 * i);
    let second = grown_byte(word, len, bytes, 4 * i + 1);
    let third = grown_byte(word, len, bytes, 4 * i + 2);
    let fourth = grown_byte(word, len, bytes, 4 * i + 3);
    u32::from_le_bytes([first, second, third, fourth])
}

// Stores the words of the console into which bytes behind its length fall, from the lowest on.
fn store_words<N: Nv>(tx: &mut Open<N>, len: u32, bytes: &[u8]) -> Result<(), Cut>
    requires some { 0 < length bytes.now }
    requires few { length bytes.now ≤ 640 }
    requires within { len + length bytes.now ≤ CONSOLE_BYTES }
    requires length { len ≡ (image_in (N.words tx.old)).console_length }
    requires room { (length bytes.now + 6) / 4 ≤ room_of (N.words tx.old) }
    ensures cut { IsErr result → IsShort (N.left tx.old) (4 * ((length bytes.now + 6) / 4)) }
    ensures dark { OnErr result (N.left tx.new ≡ Some 0) }
    ensures bytes { OnOk result ((at : ℕ) → at < len + length bytes.now → byte_of (image_in (N.words tx.new)).console at ≡ slice_index (bytes_in (image_in (N.words tx.old)) ++ bytes.now) at) }
    ensures rest { OnOk result (record (image_in (N.words tx.new)) { console = (image_in (N.words tx.old)).console } ≡ image_in (N.words tx.old)) }
    ensures lent { IsLent N.Nv tx.old tx.new }
    ensures within { OnOk result (IsWithin N.Nv tx.old tx.new ((length bytes.now + 6) / 4)) }
{
    let last = (len + bytes.len() as u32 - 1) / 4;
    for i in len / 4..last + 1 {
        let word = load(tx, Cell::ConsoleWord(i));
        store(tx, Cell::ConsoleWord(i), grown_word(word, len, bytes, i))?;
    }
    Ok(())
}

/// Appends bytes to the console where they all fit into its 8,192, and tells whether they did; where they don't,
/// nothing is written. It takes at most one entry of the journal for each word of the console that the bytes fall
/// into, and one for the length. On `Cut` fewer writes were left than that takes, and none is left.
pub fn append<N: Nv>(tx: &mut Open<N>, bytes: &[u8]) -> Result<bool, Cut>
    requires few { length bytes.now ≤ 640 }
    requires console { (image_in (N.words tx.old)).console_length ≤ CONSOLE_BYTES }
    requires room { (length bytes.now + 6) / 4 + 1 ≤ room_of (N.words tx.old) }
    ensures fits { IfOk result (λ fits. fits ≡ nat_le ((image_in (N.words tx.old)).console_length + length bytes.now) CONSOLE_BYTES) }
    ensures appended { IfOk result (λ fits. fits ≡ true → IsAppended bytes.now (image_in (N.words tx.old)) (image_in (N.words tx.new))) }
    ensures same { IfOk result (λ fits. fits ≡ false → N.words tx.new ≡ N.words tx.old) }
    ensures cut { IsErr result → IsShort (N.left tx.old) (4 * ((length bytes.now + 6) / 4 + 1)) }
    ensures dark { OnErr result (N.left tx.new ≡ Some 0) }
    ensures lent { IsLent N.Nv tx.old tx.new }
    ensures within { OnOk result (IsWithin N.Nv tx.old tx.new ((length bytes.now + 6) / 4 + 1)) }
{
    let len = length(tx);
    let grown = len + bytes.len() as u32;
    if grown > CONSOLE_BYTES {
        return Ok(false);
    }
    if bytes.is_empty() {
        return Ok(true);
    }
    store_words(tx, len, bytes)?;
    store(tx, Cell::Header(CONSOLE_LENGTH), grown)?;
    Ok(true)
}
