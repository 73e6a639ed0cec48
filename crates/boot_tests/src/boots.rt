// A program with blocks, run over boots that budgets cut.
ghost use Rattle.std.specs.Prelude.{◌≡◌, ◌<◌, ◌≤◌, IfOk, IfErr, IsTrue, replicate, slice_index};
ghost use Rattle.undo_journal.specs.Undo.{IsAtRest};
ghost use Rattle.thread_tree.specs.Program.{program_of};
ghost use Rattle.kernel_image.specs.Decoded.{image_in};
ghost use Rattle.kernel_model.specs.declared.event.Event.TheVariants.{Step};
ghost use Rattle.served_program.specs.Served.{is_served};
ghost use Rattle.kernel_boots.specs.Courses.{from_start, IsUnderWay, IsLive};

use crate::fixtures::{FourSteps, device, served};
use boot_recovery::{counter, recover};
use console_store::{byte, length};
use kernel_boots::{Stopped, beginning, work};
use kernel_events::event;
use kernel_model::Event;
use nv_memory::Nv;
use replay_list::Kernel;
use std::marker::Brand;
use std::process::Abort;
use std::sync::ledger::{Blank, Ledger};
use step_counter::Steps;
use thread_check::{Checked, discard};
use undo_journal::{Dark, Words};

/// A block that stores a word twice and aborts, and then one that gives.
const BLOCKS: &[u8] =
    b"type T { v }\nobject o: T;\nthread t() priority 1 {\n  let ok = 9; let x = 9;\n  atomic -> ok { o.v = 1; o.v = 2; abort; }\n  print ok;\n  atomic -> ok, x { o.v = 5; o.v = o.v + 1; give o.v; }\n  print ok, \" \", x;\n}\nstart t();\n";

/// One boot: it recovers the kernel, and gives it event after event until four steps are committed.
fn boot<N: Nv, L: Ledger>(
    nv: N,
    program: &Checked,
    counter: &mut Steps<L>,
) -> Result<Kernel<N>, Dark<N>>
    requires served { IsTrue (is_served program.now) }
    requires under_way { IsUnderWay (from_start (program_of program.now) (replicate 4 Step)) (N.words nv) }
    ensures live { IfOk result (λ next. IsLive (from_start (program_of program.now) (replicate 4 Step)) (image_in (N.words next.idle)) next.contexts) }
    ensures at_rest { IfOk result (λ next. IsAtRest (N.words next.idle)) }
    ensures under_way { IfErr result (λ dark. IsUnderWay (from_start (program_of program.now) (replicate 4 Step)) (N.words dark)) }
{
    beginning();
    let mut world = FourSteps::new();
    match recover(nv, program, counter) {
        Ok(kernel) => match work(kernel, program, &mut world, counter) {
            Ok(kernel) => Ok(kernel),
            Err(Stopped { dark, events: _ }) => Err(dark),
        },
        Err(dark) => Err(dark),
    }
}

/// The next boot, where the one before was cut.
fn again<N: Nv, L: Ledger>(
    ended: Result<Kernel<N>, Dark<N>>,
    program: &Checked,
    counter: &mut Steps<L>,
) -> Result<Kernel<N>, Dark<N>>
    requires served { IsTrue (is_served program.now) }
    requires under_way { IfErr ended (λ dark. IsUnderWay (from_start (program_of program.now) (replicate 4 Step)) (N.words dark)) }
    ensures under_way { IfErr result (λ dark. IsUnderWay (from_start (program_of program.now) (replicate 4 Step)) (N.words dark)) }
{
    match ended {
        Ok(kernel) => Ok(kernel),
        Err(dark) => {
            let nv = dark.again();
            match boot(nv, program, counter) {
                Ok(kernel) => Ok(kernel),
                Err(dark) => Err(dark),
            }
        }
    }
}

/// Four boots of a blank device.
fn four_boots<N: Nv, L: Ledger>(
    nv: N,
    program: &Checked,
    blank: Blank,
) -> Result<Kernel<N>, Dark<N>>
    requires name { blank.name ≡ L.name }
    requires parts { blank.parts ≡ L.parts }
    requires some { 0 < L.parts }
    requires blank { slice_index (N.words nv) 0 ≡ 0 }
    requires served { IsTrue (is_served program.now) }
{
    beginning();
    let mut counter = Steps::<L>::of(blank);
    let first = boot(nv, program, &mut counter);
    let second = again(first, program, &mut counter);
    let third = again(second, program, &mut counter);
    again(third, program, &mut counter)
}

/// One event more behind a boot of four steps.
fn one_more<N: Nv, L: Ledger>(nv: N, program: &Checked, blank: Blank) -> Result<Kernel<N>, Dark<N>>
    requires name { blank.name ≡ L.name }
    requires parts { blank.parts ≡ L.parts }
    requires some { 0 < L.parts }
    requires blank { slice_index (N.words nv) 0 ≡ 0 }
    requires served { IsTrue (is_served program.now) }
{
    beginning();
    let mut counter = Steps::<L>::of(blank);
    match boot(nv, program, &mut counter) {
        Ok(kernel) => match event(kernel, program, Event::Step, &mut counter) {
            Ok(kernel) => Ok(kernel),
            Err(dark) => Err(dark),
        },
        Err(dark) => Err(dark),
    }
}

/// The fifth event ends the thread: the words that count the events and hold its state and its code say so, and so does
/// the count that a boot would read before its recovery.
fn ends<N: Nv + Drop>(rt: &impl Abort, nv: N, program: &Checked)
    requires blank { slice_index (N.words nv) 0 ≡ 0 }
    requires served { IsTrue (is_served program.now) }
{
    match one_more::<N, Brand>(nv, program, Blank::new(1)) {
        Ok(kernel) => {
            let Kernel { idle, contexts } = kernel;
            assert!(rt; contexts.get(0).is_none());
            assert_eq!(rt;
                (idle.word(1), idle.word(1_152), idle.word(1_155)),
                (5, 4, 0)
            );
            let nv = idle.rest();
            assert_eq!(rt; counter(&nv), 5);
        }
        Err(dark) => {
            dark.leave();
            panic!(rt; "cut")
        }
    }
}

/// The console has these bytes, four events are committed, and the object's field is 6.
fn shows<N: Nv + Drop>(rt: &impl Abort, kernel: Kernel<N>, console: &[u8]) {
    let Kernel { idle, contexts } = kernel;
    assert!(rt; contexts.get(0).is_some());
    assert_eq!(rt; length(&idle) as usize, console.len());
    for at in 0..console.len() {
        if at < 8_192 {
            assert_eq!(rt; byte(&idle, at as u32), console[at]);
        }
    }
    assert_eq!(rt; idle.word(1), 4);
    assert_eq!(rt; idle.word(7_811), 6);
    idle.rest();
}

/// Whatever the budgets, the blocks leave what they leave uncut.
fn runs<N: Nv + Drop>(rt: &impl Abort, nv: N, program: &Checked)
    requires blank { slice_index (N.words nv) 0 ≡ 0 }
    requires served { IsTrue (is_served program.now) }
{
    match four_boots::<N, Brand>(nv, program, Blank::new(1)) {
        Ok(kernel) => shows(rt, kernel, b"0\n1 6\n"),
        Err(dark) => {
            dark.leave();
            panic!(rt; "cut again")
        }
    }
}

#[test]
fn blocks_over_cut_boots(rt: HostRuntime) {
    let program = served(&rt, rt.alloc(), BLOCKS);
    for cuts in [
        [16_484, 100, 100],
        [16_384, 16_384, 16_384],
        [16_400, 3, 25],
    ] {
        let nv = device(&rt, rt.alloc(), &cuts);
        runs(&rt, nv, &program);
    }
    discard(program);
}

#[test]
fn an_event_behind_a_boot(rt: HostRuntime) {
    let program = served(&rt, rt.alloc(), BLOCKS);
    let nv = device(&rt, rt.alloc(), &[]);
    ends(&rt, nv, &program);
    discard(program);
}
