// Programs, devices and recoveries.
ghost use Rattle.std.specs.Prelude.{◌≡◌, ◌<◌, IfOk, IfErr, IsTrue, replicate, slice_get, slice_index};
ghost use Rattle.thread_tree.specs.Program.{program_of};
ghost use Rattle.kernel_image.specs.Decoded.{image_in};
ghost use Rattle.kernel_model.specs.Kernel.{State};
ghost use Rattle.kernel_model.specs.declared.event.Event.TheVariants.{Step};
ghost use Rattle.replay_list.specs.Kept.{IsKept};
ghost use Rattle.replay_list.specs.Stands.{KernelStands};
ghost use Rattle.served_program.specs.Served.{is_served};

use boot_recovery::recover;
use kernel_boots::World;
use kernel_model::Event;
use nv_memory::{Nv, SimNv};
use replay_list::Kernel;
use served_program::is_served;
use std::alloc::Global;
use std::process::Abort;
use std::sync::ledger::{Blank, Ledger};
use step_counter::Steps;
use thread_check::{Checked, check};
use thread_text::parse;
use undo_journal::Dark;

/// The program of a text. It is let go by `thread_check::discard`.
pub fn checked(rt: &impl Abort, alloc: Global, text: &[u8]) -> Checked {
    assert!(rt; text.len() < 65_536, "too long a text");
    let tree = parse(alloc, text).expect(rt, "not a program");
    check(alloc, tree).expect(rt, "not accepted")
}

/// The program of a text, which is served. It is let go by `thread_check::discard`.
pub fn served(rt: &impl Abort, alloc: Global, text: &[u8]) -> Checked
    ensures served { IsTrue (is_served result) }
{
    let program = checked(rt, alloc, text);
    assert!(rt; is_served(&program), "not served");
    program
}

/// A blank device with these budgets, on mains where there is none.
pub fn device(rt: &impl Abort, alloc: Global, cuts: &[u32]) -> SimNv
    ensures blank { slice_index (⟦<SimNv as Nv>⟧.words result) 0 ≡ 0 }
{
    let mut nv = SimNv::blank(alloc).expect(rt, "no memory");
    assert!(rt; nv.plan(alloc, cuts).is_ok(), "no memory");
    assert_eq!(rt; nv.read(0), 0);
    nv
}

/// One recovery with a counter of its own.
pub fn recovered<N: Nv, L: Ledger>(
    nv: N,
    program: &Checked,
    blank: Blank,
) -> Result<Kernel<N>, Dark<N>>
    requires name { blank.name ≡ L.name }
    requires parts { blank.parts ≡ L.parts }
    requires some { 0 < L.parts }
    requires kept { (K : State) × IsKept (program_of program.now) (N.words nv) K }
    ensures stands { IfOk result (λ next. (K : State) → IsKept (program_of program.now) (N.words nv) K → KernelStands (program_of program.now) (image_in (N.words next.idle)) next.contexts K) }
    ensures kept { IfErr result (λ dark. (K : State) → IsKept (program_of program.now) (N.words nv) K → IsKept (program_of program.now) (N.words dark) K) }
{
    let mut steps = Steps::<L>::of(blank);
    let kernel = recover(nv, program, &mut steps)?;
    Ok(kernel)
}

/// Four steps, and then nothing more.
#[derive(Drop)]
pub struct FourSteps {
    asked: u32,
}

impl FourSteps {
    /// None of them was asked for yet.
    pub fn new() -> FourSteps
        ensures asked { result.asked ≡ 0 }
    {
        FourSteps { asked: 0 }
    }
}

impl World for FourSteps {
    ghost events = { λ _. replicate 4 Step };

    ghost floor = { λ world. world.asked };

    fn next(&mut self, n: u32) -> Option<Event> {
        self.asked = n;
        if n < 4 { Some(Event::Step) } else { None }
    }
}
