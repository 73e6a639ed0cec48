// Fields of objects on a device in memory, against the words of docs/OBJECTS.md.
ghost use Rattle.std.specs.Prelude.{◌≡◌, ◌<◌, IfOk, OnOk};
ghost use Rattle.thread_tree.specs.Program.{program_of};
ghost use Rattle.kernel_model.specs.Sound.{AreSoundObjects};
ghost use Rattle.kernel_image.specs.Decoded.{image_in};
ghost use Rattle.kernel_image.specs.Start.{IsFormatted};
ghost use Rattle.persistent_objects.specs.Objects.{objects_of};

use crate::fixtures::{blank, close, has_word, program_of, put, transaction};
use kernel_image::{Cell, formatting_shows_the_start, initial_word};
use kernel_model::soundness;
use nv_memory::{Cut, Nv, SimNv, WORDS};
use persistent_objects::{BadReference, Stop, field_count, load, store};
use std::alloc::Global;
use std::marker::Brand;
use std::process::Abort;
use std::sync::ledger::{Blank, Ledger};
use step_counter::Steps;
use thread_check::{Checked, discard};
use undo_journal::{Dark, Idle, Open, Words, settle};

// The types have the numbers 0 and 1.
const TWO_OBJECTS: &[u8] = b"type T { v, w }\ntype U { x }\nobject o: T;\nobject q: U;\n";

// An object of T at place 2 that is declared, and one of U at place 10 that isn't.
fn put_objects<N: Nv>(rt: &impl Abort, tx: &mut Open<N>) {
    for (cell, word) in [
        (Cell::HeapWord(2), 65_537),
        (Cell::HeapWord(3), 7),
        (Cell::HeapWord(4), 9),
        (Cell::HeapWord(5), 11),
        (Cell::HeapWord(10), 2),
        (Cell::HeapWord(11), 4_294_967_295),
        (Cell::HeapWord(12), 1),
        (Cell::LiveWord(0), 34),
    ] {
        put(rt, tx, cell, word);
    }
}

// The fields of both, and what is no object: of another type, of no type, at no such place.
fn reads_fields<N: Nv>(rt: &impl Abort, tx: &Open<N>, program: &Checked) {
    for (place, kind, field, value) in [
        (2, 0, 0, Ok(7)),
        (2, 0, 1, Ok(9)),
        (2, 0, 2, Ok(0)),
        (10, 1, 0, Ok(4_294_967_295)),
        (2, 1, 0, Err(BadReference)),
        (10, 0, 0, Err(BadReference)),
        (12, 0, 0, Err(BadReference)),
        (0, 0, 0, Err(BadReference)),
        (3, 0, 0, Err(BadReference)),
        (4_098, 0, 0, Err(BadReference)),
        (4_294_967_294, 0, 0, Err(BadReference)),
    ] {
        assert_eq!(rt; load(tx, program, place, kind, field), value, "at {place}");
    }
}

// With its live bit cleared the first one is no object.
#[test]
fn fields_are_read(rt: HostRuntime) {
    let program = program_of(&rt, rt.alloc(), TWO_OBJECTS);
    let mut tx = transaction(&rt, rt.alloc());
    put_objects(&rt, &mut tx);
    reads_fields(&rt, &tx, &program);
    put(&rt, &mut tx, Cell::LiveWord(0), 32);
    assert_eq!(rt; load(&tx, &program, 2, 0, 0), Err(BadReference));
    close(&rt, tx);
    discard(program);
}

// Writes each word as formatting does.
fn format<N: Nv>(nv: &mut N, program: &Checked) -> Result<(), Cut>
    ensures formatted { OnOk result (IsFormatted (program_of program.now) (N.words nv.new)) }
{
    for at in 0..WORDS {
        nv.write(at, initial_word(program, at))?;
    }
    Ok(())
}

// A formatted device.
fn device(rt: &impl Abort, alloc: Global, program: &Checked) -> SimNv
    ensures formatted { IsFormatted (program_of program.now) (⟦<SimNv as Nv>⟧.words result) }
{
    let mut nv = blank(rt, alloc);
    assert!(rt; format(&mut nv, program).is_ok());
    nv
}

// A formatted device at rest.
fn settled<N: Nv, L: Ledger>(nv: N, program: &Checked, blank: Blank) -> Result<Idle<N>, Dark<N>>
    requires name { blank.name ≡ L.name }
    requires parts { blank.parts ≡ L.parts }
    requires some { 0 < L.parts }
    requires formatted { IsFormatted (program_of program.now) (N.words nv) }
    ensures objects { IfOk result (λ idle. AreSoundObjects (program_of program.now) (objects_of (program_of program.now) (image_in (N.words idle)))) }
{
    formatting_shows_the_start();
    soundness();
    let _ = program.tree();
    let mut steps = Steps::<L>::of(blank);
    let idle = settle(nv, &mut steps)?;
    Ok(idle)
}

// Whether a store was made.
fn stores<N: Nv>(
    rt: &impl Abort,
    tx: &mut Open<N>,
    program: &Checked,
    place: u32,
    kind: u32,
    field: u32,
    value: u32,
) -> bool
    requires objects { AreSoundObjects (program_of program.now) (objects_of (program_of program.now) (image_in (N.words tx.old))) }
    ensures objects { AreSoundObjects (program_of program.now) (objects_of (program_of program.now) (image_in (N.words tx.new))) }
{
    assert!(rt; field < field_count(program, kind));
    assert!(rt; tx.room() >= 1);
    match store(tx, program, place, kind, field, value) {
        Ok(()) => true,
        Err(Stop::BadReference) => false,
        Err(Stop::Cut) => panic!(rt; "cut"),
    }
}

// A field of each object is stored, and none of what is no object: of another type, at no such place.
fn stores_fields<N: Nv>(rt: &impl Abort, tx: &mut Open<N>, program: &Checked)
    requires objects { AreSoundObjects (program_of program.now) (objects_of (program_of program.now) (image_in (N.words tx.old))) }
{
    assert!(rt; stores(rt, tx, program, 2, 0, 1, 9));
    assert!(rt; stores(rt, tx, program, 6, 1, 0, 4_294_967_295));
    assert!(rt; !stores(rt, tx, program, 6, 0, 0, 1));
    assert!(rt; !stores(rt, tx, program, 4, 0, 0, 1));
    assert!(rt; !stores(rt, tx, program, 7, 1, 0, 1));
    assert!(rt; !stores(rt, tx, program, 4_098, 1, 0, 1));
}

// The words behind the two stores.
fn has_stored<N: Nv>(rt: &impl Abort, tx: &Open<N>) {
    assert_eq!(rt; tx.room(), 1_278);
    for (at, word) in [
        (7_810, 65_537),
        (7_811, 0),
        (7_812, 9),
        (7_813, 0),
        (7_814, 65_538),
        (7_815, 4_294_967_295),
        (7_816, 4_088),
        (7_817, 0),
        (6, 8),
        (11_904, 10),
    ] {
        has_word(rt, tx, at, word);
    }
}

fn is_undone<N: Nv + Drop>(rt: &impl Abort, tx: Open<N>) {
    match tx.undo() {
        Ok(idle) => {
            assert_eq!(rt; (idle.word(7_812), idle.word(7_815)), (0, 0));
            idle.rest();
        }
        Err(dark) => {
            dark.leave();
            panic!(rt; "dark")
        }
    }
}

fn stored_and_undone<N: Nv + Drop>(rt: &impl Abort, nv: N, program: &Checked)
    requires formatted { IsFormatted (program_of program.now) (N.words nv) }
{
    match settled::<N, Brand>(nv, program, Blank::new(1)) {
        Ok(idle) => {
            let mut tx = idle.begin();
            stores_fields(rt, &mut tx, program);
            has_stored(rt, &tx);
            is_undone(rt, tx);
        }
        Err(dark) => {
            dark.leave();
            panic!(rt; "dark")
        }
    }
}

// `o` of type T is at place 2 and `q` of type U at place 6, and the hole behind them begins at place 8.
#[test]
fn fields_are_stored(rt: HostRuntime) {
    let program = program_of(&rt, rt.alloc(), TWO_OBJECTS);
    let nv = device(&rt, rt.alloc(), &program);
    stored_and_undone(&rt, nv, &program);
    discard(program);
}
