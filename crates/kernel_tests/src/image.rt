// The image on a device in memory: each reader once, against the table of the layout.
ghost use Rattle.std.specs.Prelude.{◌≡◌, ◌+◌, ◌<◌, ◌≤◌, OnOk};
ghost use Rattle.undo_journal.specs.Undo.{room_of};
ghost use Rattle.kernel_image.specs.Decoded.{image_in, row_at, with_row};

use crate::fixtures::{close, has_word, put, transaction};
use kernel_image::{
    Cell, Field, address, cell_of, counter, formatting_shows_the_start, load, row_state, store,
    ticks,
};
use kernel_model::{NEVER, RowState, Wait, What};
use nv_memory::{Cut, Nv};
use undo_journal::Open;

#[test]
fn last_word_of_the_last_row(rt: HostRuntime) {
    let mut tx = transaction(&rt, rt.alloc());
    put(&rt, &mut tx, Cell::RowWord(15, 15), 7);
    has_word(&rt, &tx, 5_487, 7);
    assert_eq!(rt; Field::<1152, 288, 15>::read(&tx, 15), 7);
    assert!(rt; tx.room() >= 1);
    assert!(rt; Field::<1152, 288, 15>::put(&mut tx, 15, 9).is_ok());
    assert_eq!(rt; load(&tx, Cell::RowWord(15, 15)), 9);
    close(&rt, tx);
}

#[test]
fn counts(rt: HostRuntime) {
    let mut tx = transaction(&rt, rt.alloc());
    put(&rt, &mut tx, Cell::Header(1), 5);
    put(&rt, &mut tx, Cell::Header(2), 8);
    assert_eq!(rt; (counter(&tx), ticks(&tx)), (5, 8));
    close(&rt, tx);
}

// One row whose first word alone says what the others mean.
#[test]
fn states(rt: HostRuntime) {
    let mut tx = transaction(&rt, rt.alloc());
    for (word, value) in [(3, 2), (4, 90), (5, 6), (6, 1), (7, 41)] {
        put(&rt, &mut tx, Cell::RowWord(3, word), value);
    }
    assert_eq!(rt; row_state(&tx, 3), RowState::Free);
    let wait = Wait {
        what: What::Send,
        target: 6,
        value: 41,
        until: 90,
    };
    for (word, state) in [
        (1, RowState::Ready),
        (2, RowState::Delayed(90)),
        (3, RowState::Waiting(wait)),
        (4, RowState::Ended(2)),
    ] {
        put(&rt, &mut tx, Cell::RowWord(3, 0), word);
        assert_eq!(rt; row_state(&tx, 3), state, "word {word}");
    }
    close(&rt, tx);
}

#[test]
fn a_receiver_has_no_value(rt: HostRuntime) {
    let mut tx = transaction(&rt, rt.alloc());
    for (word, value) in [(0, 3), (4, NEVER), (6, 2), (7, 41)] {
        put(&rt, &mut tx, Cell::RowWord(0, word), value);
    }
    let wait = Wait {
        what: What::Receive,
        target: 0,
        value: 0,
        until: NEVER,
    };
    assert_eq!(rt; row_state(&tx, 0), RowState::Waiting(wait));
    close(&rt, tx);
}

#[test]
fn places_of_the_layout(rt: HostRuntime) {
    assert_eq!(rt; address(Cell::QueueWord(2, 1)), 193);
    assert_eq!(rt; address(Cell::QueueItem(2, 3)), 199);
    assert_eq!(rt; address(Cell::SemaphoreWord(5, 0)), 1_108);
    assert_eq!(rt; address(Cell::RecordWord(0, 0)), 1_184);
    assert_eq!(rt; address(Cell::LiveWord(63)), 11_967);
    for (at, cell) in [
        (16, Cell::SpareHeader(0)),
        (199, Cell::QueueItem(2, 3)),
        (1_087, Cell::QueueSpare(15, 11)),
        (1_456, Cell::StartValue(1, 0)),
        (7_807, Cell::ConsoleWord(2_047)),
        (7_808, Cell::HeapWord(0)),
        (16_383, Cell::Spare(1_855)),
    ] {
        assert_eq!(rt; cell_of(at), cell, "at {at}");
    }
    formatting_shows_the_start();
}

// What a crate above says of two stores in one row.
#[tactic(auto, using(kernel_image::proofs::Callers::store_laws))]
fn end_thread<N: Nv>(tx: &mut Open<N>, thread: u32, code: u32) -> Result<(), Cut>
    requires thread { thread < 16 }
    requires room { 2 ≤ room_of (N.words tx.old) }
    ensures ended { OnOk result (image_in (N.words tx.new) ≡ with_row (image_in (N.words tx.old)) thread (record (row_at (image_in (N.words tx.old)) thread) { state = 4; code = code })) }
{
    store(tx, Cell::RowWord(thread, 0), 4)?;
    store(tx, Cell::RowWord(thread, 3), code)?;
    Ok(())
}

// What it says of a count.
#[tactic(auto, using(kernel_image::proofs::Callers::store_laws))]
fn count_event<N: Nv>(tx: &mut Open<N>) -> Result<(), Cut>
    requires few { (image_in (N.words tx.old)).events < 1000000 }
    requires room { 1 ≤ room_of (N.words tx.old) }
    ensures counted { OnOk result (image_in (N.words tx.new) ≡ record (image_in (N.words tx.old)) { events = (image_in (N.words tx.old)).events + 1 }) }
{
    let events = counter(tx);
    store(tx, Cell::Header(1), events + 1)?;
    Ok(())
}

#[test]
fn callers(rt: HostRuntime) {
    let mut tx = transaction(&rt, rt.alloc());
    assert!(rt; tx.room() >= 2);
    assert!(rt; end_thread(&mut tx, 2, 3).is_ok());
    assert_eq!(rt; row_state(&tx, 2), RowState::Ended(3));
    assert!(rt; tx.room() >= 1);
    assert_eq!(rt; counter(&tx), 0);
    assert!(rt; count_event(&mut tx).is_ok());
    assert_eq!(rt; counter(&tx), 1);
    close(&rt, tx);
}
