// A device whose formatting is cut, and that is formatted again and recovered.
ghost use Rattle.std.specs.Prelude.{◌≡◌, slice_index};

use crate::fixtures::{checked, device, recovered};
use boot_recovery::formatting_stands;
use nv_memory::Nv;
use replay_list::Kernel;
use std::marker::Brand;
use std::process::Abort;
use std::sync::ledger::Blank;
use thread_check::{Checked, discard};
use undo_journal::Words;

/// One thread that is started.
const ONE_THREAD: &[u8] = b"thread t() priority 3 { yield; }\nstart t();\n";

/// A kernel with one live thread at the start.
fn shows_one_thread<N: Nv + Drop>(rt: &impl Abort, kernel: Kernel<N>) {
    let Kernel { idle, contexts } = kernel;
    assert!(rt; contexts.get(0).is_some());
    assert!(rt; contexts.get(1).is_none() && contexts.get(15).is_none());
    let words = (
        idle.word(1),
        idle.word(3),
        idle.word(1_152),
        idle.word(1_154),
    );
    assert_eq!(rt; words, (0, 1, 1, 3));
    idle.rest();
}

/// The first boot is cut while it formats, and the second one formats anew.
fn cut_and_recovered<N: Nv + Drop>(rt: &impl Abort, nv: N, program: &Checked)
    requires blank { slice_index (N.words nv) 0 ≡ 0 }
{
    formatting_stands();
    match recovered::<N, Brand>(nv, program, Blank::new(1)) {
        Ok(kernel) => {
            kernel.idle.rest();
            panic!(rt; "not cut")
        }
        Err(dark) => {
            let nv = dark.again();
            match recovered::<N, Brand>(nv, program, Blank::new(1)) {
                Ok(kernel) => shows_one_thread(rt, kernel),
                Err(dark) => {
                    dark.leave();
                    panic!(rt; "cut again")
                }
            }
        }
    }
}

#[test]
fn formatted_in_two_boots(rt: HostRuntime) {
    let program = checked(&rt, rt.alloc(), ONE_THREAD);
    let nv = device(&rt, rt.alloc(), &[100, 16_384]);
    cut_and_recovered(&rt, nv, &program);
    discard(program);
}
