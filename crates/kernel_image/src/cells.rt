// Reading and storing cells: the only code that computes addresses.
ghost use Rattle.std.specs.Prelude.{◌≡◌, ◌+◌, ◌≤◌, ◌↔◌, IsTrue, IsErr, OnOk, OnErr, Some};
ghost use Rattle.nv_memory.specs.Budget.{spent, IsShort};
ghost use Rattle.undo_journal.specs.Undo.{IsPlain, room_of};
ghost use Rattle.undo_journal.specs.Lending.{IsLent, IsWithin};
ghost use Rattle.kernel_image.specs.Cells.{address, is_cell, present, with_cell, FellAtLeast};

use crate::cell::Cell;
use crate::layout::{
    CONSOLE_AT, HEAP_AT, LIVE_AT, QUEUE_ITEMS_AT, QUEUE_SPARE_AT, QUEUE_STRIDE, QUEUES_AT,
    RECORDS_AT, ROW_STRIDE, ROWS_AT, SEMAPHORE_STRIDE, SEMAPHORES_AT, SPARE_AT, SPARE_HEADER_AT,
    START_VALUES_AT,
};
use nv_memory::{Cut, Nv};
use undo_journal::{Open, Words};

/// The address of a cell.
#[tactic(auto, using(crate::proofs::LawSets::address_laws))]
pub fn address(cell: Cell) -> u32
    requires cell { IsTrue (is_cell cell) }
    ensures address { result ≡ address cell }
    ensures plain { IsPlain result }
{
    match cell {
        Cell::Header(at) => at,
        Cell::SpareHeader(i) => SPARE_HEADER_AT + i,
        Cell::QueueWord(queue, word) => QUEUES_AT + QUEUE_STRIDE * queue + word,
        Cell::QueueItem(queue, slot) => QUEUE_ITEMS_AT + QUEUE_STRIDE * queue + slot,
        Cell::QueueSpare(queue, i) => QUEUE_SPARE_AT + QUEUE_STRIDE * queue + i,
        Cell::SemaphoreWord(semaphore, word) => SEMAPHORES_AT + SEMAPHORE_STRIDE * semaphore + word,
        Cell::RowWord(thread, word) => ROWS_AT + ROW_STRIDE * thread + word,
        Cell::StartValue(thread, value) => START_VALUES_AT + ROW_STRIDE * thread + value,
        Cell::RecordWord(thread, word) => RECORDS_AT + ROW_STRIDE * thread + word,
        Cell::ConsoleWord(word) => CONSOLE_AT + word,
        Cell::HeapWord(place) => HEAP_AT + place,
        Cell::LiveWord(word) => LIVE_AT + word,
        Cell::Spare(i) => SPARE_AT + i,
    }
}

/// The present word of a cell.
#[tactic(auto, using(crate::proofs::LawSets::load_laws))]
pub fn load<W: Words>(words: &W, cell: Cell) -> u32
    requires cell { IsTrue (is_cell cell) }
    ensures word { result ≡ present (W.present words.now) cell }
{
    words.word(address(cell))
}

/// Stores a word of a cell. `Cut` comes exactly where fewer than four writes are left, and then none is left.
#[tactic(auto, using(crate::proofs::LawSets::put_laws))]
pub fn store<N: Nv>(tx: &mut Open<N>, cell: Cell, value: u32) -> Result<(), Cut>
    requires cell { IsTrue (is_cell cell) }
    requires room { 1 ≤ room_of (N.words tx.old) }
    ensures cut { IsErr result ↔ IsShort (N.left tx.old) 4 }
    ensures dark { OnErr result (N.left tx.new ≡ Some 0) }
    ensures stored { OnOk result (present (N.words tx.new) ≡ with_cell (present (N.words tx.old)) cell value) }
    ensures room { OnOk result (room_of (N.words tx.old) ≡ room_of (N.words tx.new) + 1) }
    ensures left { N.left tx.new ≡ spent (N.left tx.old) 4 }
    ensures least { OnOk result (FellAtLeast 4 (N.left tx.old) (N.left tx.new)) }
    ensures lent { IsLent N.Nv tx.old tx.new }
    ensures within { OnOk result (IsWithin N.Nv tx.old tx.new 1) }
{
    tx.put(address(cell), value)?;
    Ok(())
}
