// A field of a table of rows.
ghost use Rattle.std.specs.Prelude.{◌≡◌, ◌+◌, ◌*◌, ◌<◌, ◌≤◌, ◌↔◌, IsTrue, IsErr, OnOk, OnErr, Some, slice_index};
ghost use Rattle.nv_memory.specs.Budget.{spent, IsShort};
ghost use Rattle.undo_journal.specs.Undo.{IsPlain, outside, with_word, room_of};
ghost use Rattle.undo_journal.specs.Lending.{IsLent, IsWithin};
ghost use Rattle.kernel_image.specs.declared.cell.Cell.{Cell};
ghost use Rattle.kernel_image.specs.Cells.{address, is_cell, present, with_cell, FellAtLeast};

use crate::layout::{ROW_STRIDE, ROWS_AT, USED};
use nv_memory::{Cut, Nv, WORDS};
use undo_journal::{Open, Words};

/// A field of a table of rows: the word `BASE + STRIDE * row + AT`.
pub struct Field<const BASE: u32, const STRIDE: u32, const AT: u32>;

impl<const BASE: u32, const STRIDE: u32, const AT: u32> Field<BASE, STRIDE, AT> {
    /// The present word of this field in a row.
    #[tactic(auto, using(crate::proofs::LawSets::load_laws))]
    pub fn read<W: Words>(words: &W, row: u32) -> u32
        requires within { BASE + STRIDE * row + AT < WORDS }
        ensures word { result ≡ slice_index (W.present words.now) (BASE + STRIDE * row + AT) }
        ensures cell { (cell : Cell) → IsTrue (is_cell cell) → address cell ≡ BASE + STRIDE * row + AT → result ≡ present (W.present words.now) cell }
    {
        words.word(BASE + STRIDE * row + AT)
    }

    /// Stores a word in this field of a row. `Cut` comes exactly where fewer than four writes are left, and then
    /// then none is left.
    #[tactic(auto, using(crate::proofs::LawSets::field_laws))]
    pub fn put<N: Nv>(tx: &mut Open<N>, row: u32, value: u32) -> Result<(), Cut>
        requires plain { IsPlain (BASE + STRIDE * row + AT) }
        requires room { 1 ≤ room_of (N.words tx.old) }
        ensures cut { IsErr result ↔ IsShort (N.left tx.old) 4 }
        ensures dark { OnErr result (N.left tx.new ≡ Some 0) }
        ensures written { OnOk result (outside (N.words tx.new) ≡ with_word (outside (N.words tx.old)) (BASE + STRIDE * row + AT) value) }
        ensures stored { OnOk result ((cell : Cell) → IsTrue (is_cell cell) → address cell ≡ BASE + STRIDE * row + AT → present (N.words tx.new) ≡ with_cell (present (N.words tx.old)) cell value) }
        ensures room { OnOk result (room_of (N.words tx.old) ≡ room_of (N.words tx.new) + 1) }
        ensures left { N.left tx.new ≡ spent (N.left tx.old) 4 }
        ensures least { OnOk result (FellAtLeast 4 (N.left tx.old) (N.left tx.new)) }
        ensures lent { IsLent N.Nv tx.old tx.new }
        ensures within { OnOk result (IsWithin N.Nv tx.old tx.new 1) }
    {
        tx.put(BASE + STRIDE * row + AT, value)?;
        Ok(())
    }
}

// The used words of the last thread's records stand in word 5,487.
fn last_record_words<W: Words>(words: &W) -> u32
    ensures word { result ≡ slice_index (W.present words.now) 5487 }
{
    Field::<ROWS_AT, ROW_STRIDE, USED>::read(words, 15)
}
