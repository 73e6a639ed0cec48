// The words that formatting writes.
ghost use Rattle.std.specs.Prelude.{◌≡◌, ◌<◌, ◌≤◌, true, if◌then◌else◌, is_some};
ghost use Rattle.thread_tree.specs.Program.{program_of};
ghost use Rattle.kernel_model.specs.Objects.{object_at, static_objects};
ghost use Rattle.kernel_image.specs.Cells.{cell_of, queue_cell, row_cell, cell_behind_rows, has_live_place};
ghost use Rattle.kernel_image.specs.Initial.{initial_cell, initial_header, initial_heap_word, hole_word, initial_live_word, initial_word};

use crate::cell::Cell;
use crate::layout::{
    CONSOLE_AT, FIRST_HOLE, HEAP_AT, HEAP_WORDS, LIVE_AT, LIVE_WORDS, NEXT_STAMP, PLACES,
    QUEUE_STRIDE, QUEUES_AT, ROW_STRIDE, ROW_WORDS, ROWS_AT, SEMAPHORE_STRIDE, SEMAPHORES_AT,
    SPARE_AT, SPARE_HEADER_AT,
};
use crate::parts::initial_count;
use crate::starts::{initial_row_word, initial_start_value, start_count};
use crate::statics::{first_hole, static_kind_at};
use nv_memory::WORDS;
use thread_check::Checked;
use undo_journal::{ENTRIES, MAGIC};

/// The cell at an address; a word of the device that is none counts as a header word there.
#[tactic(auto, unfolding(crate::specs::Cells::cell_of))]
pub fn cell_of(at: u32) -> Cell
    ensures cell { result ≡ cell_of at }
{
    if at < SPARE_HEADER_AT {
        return Cell::Header(at);
    }
    if at < QUEUES_AT {
        return Cell::SpareHeader(at - SPARE_HEADER_AT);
    }
    if at < SEMAPHORES_AT {
        return queue_cell(
            (at - QUEUES_AT) / QUEUE_STRIDE,
            (at - QUEUES_AT) % QUEUE_STRIDE,
        );
    }
    if at < ROWS_AT {
        return Cell::SemaphoreWord(
            (at - SEMAPHORES_AT) / SEMAPHORE_STRIDE,
            (at - SEMAPHORES_AT) % SEMAPHORE_STRIDE,
        );
    }
    if at < CONSOLE_AT {
        return row_cell((at - ROWS_AT) / ROW_STRIDE, (at - ROWS_AT) % ROW_STRIDE);
    }
    behind_rows(at)
}

// The cell of a word of a queue.
fn queue_cell(queue: u32, word: u32) -> Cell
    ensures cell { result ≡ queue_cell queue word }
{
    if word < 4 {
        return Cell::QueueWord(queue, word);
    }
    if word < 52 {
        Cell::QueueItem(queue, word - 4)
    } else {
        Cell::QueueSpare(queue, word - 52)
    }
}

// The cell of a word of a thread's row.
fn row_cell(thread: u32, word: u32) -> Cell
    ensures cell { result ≡ row_cell thread word }
{
    if word < ROW_WORDS {
        return Cell::RowWord(thread, word);
    }
    if word < 32 {
        Cell::StartValue(thread, word - ROW_WORDS)
    } else {
        Cell::RecordWord(thread, word - 32)
    }
}

// The cell at an address behind the rows.
fn behind_rows(at: u32) -> Cell
    requires behind { CONSOLE_AT ≤ at }
    ensures cell { result ≡ cell_behind_rows at }
{
    if at < HEAP_AT {
        return Cell::ConsoleWord(at - CONSOLE_AT);
    }
    if at < LIVE_AT {
        return Cell::HeapWord(at - HEAP_AT);
    }
    if at < ENTRIES {
        return Cell::LiveWord(at - LIVE_AT);
    }
    if at < SPARE_AT {
        Cell::Header(at)
    } else {
        Cell::Spare(at - SPARE_AT)
    }
}

// A word of the header at the start.
fn initial_header(program: &Checked, at: u32) -> u32
    ensures word { result ≡ initial_header (program_of program.now) at }
{
    match at {
        0 => MAGIC,
        NEXT_STAMP => start_count(program),
        FIRST_HOLE => first_hole(program),
        _ => 0,
    }
}

// A word of the heap at the start.
#[tactic(auto, using(crate::proofs::LawSets::heap_laws))]
fn initial_heap_word(program: &Checked, place: u32) -> u32
    ensures word { result ≡ initial_heap_word (program_of program.now) place }
{
    match static_kind_at(program, place) {
        Some(kind) => kind + 1 + 65_536,
        None => hole_word(program, place),
    }
}

// The size of the hole where it begins.
fn hole_word(program: &Checked, place: u32) -> u32
    ensures word { result ≡ hole_word (program_of program.now) place }
{
    let first = first_hole(program);
    if place == first {
        HEAP_WORDS - first
    } else {
        0
    }
}

// Whether a static object begins at a place: 1 or 0.
#[tactic(auto, using(crate::proofs::LawSets::heap_laws))]
fn live_bit(program: &Checked, place: u32) -> u32
    ensures bit { result ≡ (if is_some (object_at (static_objects (program_of program.now)) place) then 1 else 0) }
    ensures bound { result ≤ 1 }
{
    if static_kind_at(program, place).is_some() {
        1
    } else {
        0
    }
}

// A word of live bits at the start.
#[tactic(auto, using(crate::proofs::LawSets::live_laws))]
fn initial_live_word(program: &Checked, i: u32) -> u32
    requires within { i < LIVE_WORDS }
    ensures word { result ≡ initial_live_word (program_of program.now) i }
{
    let mut word = 0;
    for k in (0..32).rev() {
        word = live_bit(program, PLACES * i + 2 * k) + 2 * word;
    }
    word
}

// The word of a cell at the start.
#[tactic(auto, unfolding(crate::specs::Initial::initial_cell))]
fn initial_cell(program: &Checked, cell: Cell) -> u32
    requires places { has_live_place cell ≡ true }
    ensures word { result ≡ initial_cell (program_of program.now) cell }
{
    match cell {
        Cell::Header(at) => initial_header(program, at),
        Cell::SemaphoreWord(semaphore, 0) => initial_count(program, semaphore),
        Cell::RowWord(thread, word) => initial_row_word(program, thread, word),
        Cell::StartValue(thread, i) => initial_start_value(program, thread, i),
        Cell::HeapWord(place) => initial_heap_word(program, place),
        Cell::LiveWord(i) => initial_live_word(program, i),
        Cell::SemaphoreWord(..)
        | Cell::QueueWord(..)
        | Cell::QueueItem(..)
        | Cell::QueueSpare(..)
        | Cell::RecordWord(..)
        | Cell::ConsoleWord(..)
        | Cell::SpareHeader(..)
        | Cell::Spare(..) => 0,
    }
}

/// The word that formatting writes at an address.
#[tactic(auto, using(crate::proofs::LawSets::cell_laws))]
pub fn initial_word(program: &Checked, at: u32) -> u32
    requires within { at < WORDS }
    ensures word { result ≡ initial_word (program_of program.now) at }
{
    initial_cell(program, cell_of(at))
}
