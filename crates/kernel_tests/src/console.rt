// The console on a device in memory, against words worked out by hand.
ghost use Rattle.std.specs.Prelude.{◌≤◌, length};

use crate::fixtures::{close, has_word, put, transaction};
use console_store::{append, byte, length};
use kernel_image::Cell;
use nv_memory::Nv;
use std::process::Abort;
use undo_journal::Open;

// Whether bytes were appended.
fn appended<N: Nv>(rt: &impl Abort, tx: &mut Open<N>, bytes: &[u8]) -> bool
    requires few { length bytes.now ≤ 16 }
{
    assert!(rt; tx.room() >= 6);
    assert!(rt; length(tx) <= 8_192);
    match append(tx, bytes) {
        Ok(fits) => fits,
        Err(_) => panic!(rt; "cut"),
    }
}

#[test]
fn bytes_in_words(rt: HostRuntime) {
    let mut tx = transaction(&rt, rt.alloc());
    assert!(rt; appended(&rt, &mut tx, b"abcde"));
    for (at, word) in [(5, 5), (5_760, 1_684_234_849), (5_761, 101)] {
        has_word(&rt, &tx, at, word);
    }
    assert!(rt; appended(&rt, &mut tx, b""));
    assert!(rt; appended(&rt, &mut tx, b"fghij"));
    for (at, word) in [(5, 10), (5_761, 1_751_606_885), (5_762, 27_241)] {
        has_word(&rt, &tx, at, word);
    }
    assert_eq!(rt; tx.room(), 1_274);
    assert_eq!(rt; (length(&tx), byte(&tx, 0), byte(&tx, 9)), (10, b'a', b'j'));
    close(&rt, tx);
}

#[test]
fn no_byte_too_many(rt: HostRuntime) {
    let mut tx = transaction(&rt, rt.alloc());
    put(&rt, &mut tx, Cell::Header(5), 8_190);
    assert!(rt; !appended(&rt, &mut tx, b"abc"));
    assert_eq!(rt; length(&tx), 8_190);
    has_word(&rt, &tx, 7_807, 0);
    assert!(rt; appended(&rt, &mut tx, b"ab"));
    assert_eq!(rt; length(&tx), 8_192);
    has_word(&rt, &tx, 7_807, 1_650_524_160);
    assert!(rt; !appended(&rt, &mut tx, b"a"));
    assert!(rt; appended(&rt, &mut tx, b""));
    close(&rt, tx);
}
