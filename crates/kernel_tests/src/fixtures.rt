// What the tests begin and end with: a program from its text, and a transaction on a device in memory.
ghost use Rattle.std.specs.Prelude.{◌≡◌, ◌<◌, ◌-◌, ◌^◌, length};
ghost use Rattle.undo_journal.specs.Undo.{IsJournalled};
ghost use Rattle.kernel_image.specs.Cells.{is_cell};

use kernel_image::{Cell, store};
use nv_memory::{Nv, SimNv};
use std::alloc::Global;
use std::marker::Brand;
use std::process::Abort;
use std::sync::ledger::{Blank, Ledger};
use step_counter::Steps;
use thread_check::{Checked, check};
use thread_text::parse;
use undo_journal::{Dark, Idle, MAGIC, Open, Words, settle};

/// The program of a text.
pub(crate) fn program_of(rt: &impl Abort, alloc: Global, text: &[u8]) -> Checked
    requires short { length text.now < 2 ^ 32 - 1 }
{
    let tree = parse(alloc, text).expect(rt, "no tree");
    check(alloc, tree).expect(rt, "a fault")
}

/// A blank device.
pub(crate) fn blank(rt: &impl Abort, alloc: Global) -> SimNv {
    SimNv::blank(alloc).expect(rt, "no memory")
}

// A device that has the magic word.
#[tactic(auto, using(undo_journal::proofs::Callers::at_rest_laws))]
fn device(rt: &impl Abort, alloc: Global) -> SimNv
    ensures journalled { IsJournalled (⟦<SimNv as Nv>⟧.words result) }
{
    let mut nv = blank(rt, alloc);
    assert!(rt; nv.write(0, MAGIC).is_ok());
    assert_eq!(rt; nv.read(0), MAGIC);
    assert_eq!(rt; nv.read(4), 0);
    nv
}

fn settled<N: Nv, L: Ledger>(nv: N, blank: Blank) -> Result<Idle<N>, Dark<N>>
    requires name { blank.name ≡ L.name }
    requires parts { blank.parts ≡ L.parts }
    requires some { 0 < L.parts }
    requires journalled { IsJournalled (N.words nv) }
{
    let mut steps = Steps::<L>::of(blank);
    let idle = settle(nv, &mut steps)?;
    Ok(idle)
}

fn opened<N: Nv + Drop>(rt: &impl Abort, nv: N) -> Open<N>
    requires journalled { IsJournalled (N.words nv) }
{
    match settled::<N, Brand>(nv, Blank::new(1)) {
        Ok(idle) => idle.begin(),
        Err(dark) => {
            dark.leave();
            panic!(rt; "dark")
        }
    }
}

/// A transaction on a device that has the magic word, and no other.
pub(crate) fn transaction(rt: &impl Abort, alloc: Global) -> Open<SimNv> {
    opened(rt, device(rt, alloc))
}

/// Commits a transaction.
pub(crate) fn close<N: Nv + Drop>(rt: &impl Abort, tx: Open<N>) {
    match tx.commit() {
        Ok(idle) => {
            idle.rest();
        }
        Err(dark) => {
            dark.leave();
            panic!(rt; "dark")
        }
    }
}

// Whether a cell lies within its part of the image.
fn is_within(cell: Cell) -> bool
    ensures within { result ≡ is_cell cell }
{
    match cell {
        Cell::Header(at) => 0 < at && at < 16 && at != 4,
        Cell::SpareHeader(i) => i < 48,
        Cell::QueueWord(queue, word) => queue < 16 && word < 4,
        Cell::QueueItem(queue, slot) => queue < 16 && slot < 48,
        Cell::QueueSpare(queue, i) => queue < 16 && i < 12,
        Cell::SemaphoreWord(semaphore, word) => semaphore < 16 && word < 4,
        Cell::RowWord(thread, word) => thread < 16 && word < 16,
        Cell::StartValue(thread, value) => thread < 16 && value < 16,
        Cell::RecordWord(thread, word) => thread < 16 && word < 256,
        Cell::ConsoleWord(word) => word < 2_048,
        Cell::HeapWord(place) => place < 4_096,
        Cell::LiveWord(word) => word < 64,
        Cell::Spare(i) => i < 1_856,
    }
}

/// Stores a word of a cell.
pub(crate) fn put<N: Nv>(rt: &impl Abort, tx: &mut Open<N>, cell: Cell, value: u32) {
    assert!(rt; is_within(cell));
    assert!(rt; tx.room() >= 1);
    assert!(rt; store(tx, cell, value).is_ok());
}

/// The word at this address is this one.
pub(crate) fn has_word<W: Words>(rt: &impl Abort, words: &W, at: u32, word: u32) {
    assert!(rt; at < 16_384);
    assert_eq!(rt; words.word(at), word, "at {at}");
}
