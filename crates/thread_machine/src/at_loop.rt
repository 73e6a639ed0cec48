ghost use Rattle.std.specs.Prelude.{◌≡◌, ◌≤◌, [], length, slice_get, IfSome, IsSomeAnd};
ghost use Rattle.thread_tree.specs.Actions.{Spot, inside, loops};
ghost use Rattle.thread_tree.specs.Limits.{IsSound};
ghost use Rattle.thread_tree.specs.LocalState.{named};
ghost use Rattle.thread_tree.specs.Program.{Body as Whole, program_of};
ghost use Rattle.thread_machine.specs.Context.{local_of};
ghost use Rattle.thread_machine.specs.Reached.{IsContext};
ghost use Rattle.thread_machine.specs.Seeking.{IsBegun, IsInBody, names_in};

use crate::body::numbered;
use crate::context::{Ctx, Way};
use crate::fresh::declare_parameters;
use crate::loops::loops_in;
use arrayvec::ArrayVec;
use thread_check::Checked;
use thread_tree::{LOCALS, Local, Tree};

/// The number of the body that has the persistent loop of this number, and the loop's number in it.
#[tactic(auto, using(crate::proofs::LoopLemmas::place_laws))]
fn place_of(tree: &Tree, number: usize) -> (usize, usize)
    requires sound { IsSound (program_of tree.now) }
    ensures place { (spot : Spot) → slice_get (loops (program_of tree.now)) number ≡ Some spot
        → IsInBody (program_of tree.now) spot result.0 result.1 }
{
    let mut left = number;
    for at in 0..tree.decls.len() {
        match numbered(tree, at) {
            None => return (at, left),
            Some(body) => {
                let count = loops_in(body.block);
                if left < count {
                    return (at, left);
                }
                left -= count;
            }
        }
    }
    (0, left)
}

/// Locals of the same names with these values.
fn with_values(locals: &[Local], values: &[u32]) -> ArrayVec<Local, LOCALS>
    requires room { length locals.now ≤ LOCALS }
    ensures values { result.items ≡ named (names_in locals.now) values.now }
{
    let mut slots = ArrayVec::new();
    for at in 0..locals.len().min(values.len()) {
        slots.push(Local {
            name: locals[at].name,
            value: values[at],
        });
    }
    slots
}

impl Ctx {
    /// The context at the begin of the body of this number, where each parameter is 0.
    fn begin(tree: &Tree, body: usize) -> Ctx
        requires sound { IsSound (program_of tree.now) }
        ensures place { result.at ≡ 0 }
        ensures outside { result.cursors.items ≡ [] }
        ensures begun { (whole : Whole) → slice_get (program_of tree.now).bodies body ≡ Some whole
            → IsBegun (program_of tree.now) result whole }
    {
        let mut slots = ArrayVec::new();
        declare_parameters(&mut slots, numbered(tree, body), &[0; LOCALS]);
        Ctx {
            slots,
            base: 0,
            body,
            cursors: ArrayVec::new(),
            at: 0,
            again: false,
        }
    }

    /// The context at the first statement of the persistent loop of this number, with these values
    /// of the locals in scope, in order of declaration.
    pub fn at_loop(program: &Checked, number: u32, values: &[u32]) -> Ctx
        requires there { IsSomeAnd (slice_get (loops (program_of program.now)) number)
            (λ spot. length values.now ≡ length spot.scope) }
        ensures context { IsContext (program_of program.now) result }
        ensures inside { IfSome (slice_get (loops (program_of program.now)) number)
            (λ spot. local_of (program_of program.now) result ≡ inside spot values.now) }
    {
        let tree = program.tree();
        let (body, left) = place_of(tree, number as usize);
        let mut ctx = Ctx::begin(tree, body);
        ctx.seek(tree, left);
        ctx.slots = with_values(ctx.slots.as_slice(), values);
        ctx.enter(Way::First);
        ctx
    }
}
