// The records of a thread on a device in memory, against the table of the layout.
ghost use Rattle.std.specs.Prelude.{◌≤◌};
ghost use Rattle.undo_journal.specs.Undo.{room_of};

use crate::fixtures::{close, has_word, transaction};
use nv_memory::Nv;
use replay_list::{
    Record, append, clear, record_at, record_count, record_word, result_count, standing_laws,
    words_used,
};
use std::process::Abort;
use undo_journal::Open;

fn appended<N: Nv>(rt: &impl Abort, tx: &mut Open<N>, kind_word: u32, results: [u32; 2]) {
    assert!(rt; tx.room() >= 6);
    assert!(rt; words_used(tx, 3) <= 200);
    assert!(rt; append(tx, 3, kind_word, &results).is_ok());
}

fn read<N: Nv>(rt: &impl Abort, tx: &Open<N>, from: u32) -> Record
    requires within { from ≤ 200 }
{
    let count = result_count(record_word(tx, 3, from));
    assert!(rt; count <= 4);
    record_at(tx, 3, from)
}

#[test]
fn records_one_after_another(rt: HostRuntime) {
    let mut tx = transaction(&rt, rt.alloc());
    appended(&rt, &mut tx, 8, [1, 41]);
    appended(&rt, &mut tx, 272, [1, 7]);
    assert_eq!(rt; words_used(&tx, 3), 6);
    for (at, word) in [(2_048, 8), (2_049, 1), (2_050, 41)] {
        has_word(&rt, &tx, at, word);
    }
    let first = read(&rt, &tx, 0);
    assert_eq!(rt; (first.kind, first.after), (8, 3));
    assert_eq!(rt; first.results.as_slice(), [1, 41].as_slice());
    let second = read(&rt, &tx, 3);
    assert_eq!(rt; (second.kind, second.after), (272, 6));
    assert_eq!(rt; second.results.as_slice(), [1, 7].as_slice());
    assert!(rt; tx.room() >= 1);
    assert!(rt; clear(&mut tx, 3).is_ok());
    assert_eq!(rt; words_used(&tx, 3), 0);
    close(&rt, tx);
}

// How many records a thread without one has when a receive was appended.
fn counted<N: Nv>(tx: &mut Open<N>) -> Option<u32>
    requires room { 6 ≤ room_of (N.words tx.old) }
{
    if words_used(tx, 3) != 0 {
        return None;
    }
    match append(tx, 3, 8, &[1, 41]) {
        Ok(()) => Some(record_count(tx, 3)),
        Err(_) => None,
    }
}

#[test]
fn one_record(rt: HostRuntime) {
    let mut tx = transaction(&rt, rt.alloc());
    assert!(rt; tx.room() >= 6);
    assert_eq!(rt; counted(&mut tx), Some(1));
    standing_laws();
    close(&rt, tx);
}
