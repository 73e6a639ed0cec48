// A device from boot to boot: settled, and taken out of how a call ended.
ghost use Rattle.std.specs.Prelude.{◌≡◌, ◌<◌, IfErr, Ok, Err};
ghost use Rattle.undo_journal.specs.Undo.{IsJournalled};

use nv_memory::Nv;
use std::marker::Brand;
use std::process::Abort;
use std::sync::ledger::{Blank, Ledger};
use step_counter::Steps;
use undo_journal::{Dark, Idle, settle};

// A device whose journal is undone, with a counter of steps on this ledger.
fn settled_on<N: Nv, L: Ledger>(nv: N, blank: Blank) -> Result<Idle<N>, Dark<N>>
    requires name { blank.name ≡ L.name }
    requires parts { blank.parts ≡ L.parts }
    requires some { 0 < L.parts }
    requires journalled { IsJournalled (N.words nv) }
    ensures journalled { IfErr result (λ dark. IsJournalled (N.words dark)) }
{
    let mut steps = Steps::<L>::of(blank);
    let idle = settle(nv, &mut steps)?;
    Ok(idle)
}

// A device whose journal is undone.
pub(crate) fn settled<N: Nv>(nv: N) -> Result<Idle<N>, Dark<N>>
    requires journalled { IsJournalled (N.words nv) }
    ensures journalled { IfErr result (λ dark. IsJournalled (N.words dark)) }
{
    let idle = settled_on::<N, Brand>(nv, Blank::new(1))?;
    Ok(idle)
}

// The device that must be idle.
pub(crate) fn idle_of<N: Nv + Drop>(rt: &impl Abort, end: Result<Idle<N>, Dark<N>>) -> Idle<N>
    ensures same { end ≡ Ok result }
{
    match end {
        Ok(idle) => idle,
        Err(dark) => {
            dark.leave();
            panic!(rt; "dark")
        }
    }
}

// The device whose power must be cut.
pub(crate) fn dark_of<N: Nv + Drop>(rt: &impl Abort, end: Result<Idle<N>, Dark<N>>) -> Dark<N>
    ensures same { end ≡ Err result }
{
    match end {
        Ok(idle) => {
            idle.rest();
            panic!(rt; "idle")
        }
        Err(dark) => dark,
    }
}
