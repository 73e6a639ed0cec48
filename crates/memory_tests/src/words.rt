// The words of a device in memory, under budgets of writes.
ghost use Rattle.std.specs.Prelude.{◌≡◌, [], Some, None};

use nv_memory::{Nv, SimNv, WORDS};
use std::alloc::Global;
use std::process::Abort;

// A write that is cut, and the next boot.
fn cut_and_up(rt: &impl Abort, nv: &mut SimNv) {
    let before = nv.read(3);
    let cut = nv.write(3, 9).is_err();
    assert!(rt; cut);
    assert_eq!(rt; nv.read(3), before);
    nv.power_up();
}

// A new device of 16,384 words, which are 0.
fn blank(rt: &impl Abort, alloc: Global) -> SimNv
    ensures left { ⟦<SimNv as Nv>⟧.left result ≡ None }
    ensures to_come { ⟦<SimNv as Nv>⟧.to_come result ≡ [] }
    ensures ends { ⟦<SimNv as Nv>⟧.ends result ≡ [] }
{
    let nv = SimNv::blank(alloc).expect(rt, "no memory");
    assert_eq!(rt; nv.words().len(), 16_384);
    assert!(rt; nv.words().iter().all(|word| *word == 0));
    nv
}

// The words at the end of a boot: words 0, 1, 3 and the last one.
fn assert_end(rt: &impl Abort, end: &[u32]) {
    assert_eq!(rt; end.len(), 16_384);
    assert_eq!(rt; (end[0], end[1], end[3], end[16_383]), (0, 5, 0, 6));
}

// Budgets cut writes, what was written before stays, and each boot that was cut leaves its words.
#[test]
fn budgets_cut(rt: HostRuntime) {
    let mut nv = blank(&rt, rt.alloc());
    assert!(rt; nv.plan(rt.alloc(), &[2, 0]).is_ok());
    assert!(rt; nv.write(1, 5).is_ok());
    assert!(rt; nv.write(WORDS - 1, 6).is_ok());
    cut_and_up(&rt, &mut nv);
    cut_and_up(&rt, &mut nv);
    assert!(rt; nv.write(3, 7).is_ok());
    assert_eq!(rt;
        (nv.read(0), nv.read(1), nv.read(3), nv.read(WORDS - 1)),
        (0, 5, 7, 6)
    );
    assert_eq!(rt; nv.ends().len(), 2);
    for end in nv.ends() {
        assert_end(&rt, end.as_slice());
    }
}
