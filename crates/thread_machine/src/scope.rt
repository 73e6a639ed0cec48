ghost use Rattle.std.specs.Prelude.{◌≡◌, ◌+◌, ◌≤◌, ◌++◌, length, take, drop};
ghost use Rattle.thread_tree.specs.Program.{names_of};
ghost use Rattle.thread_tree.specs.Value.{values_in};
ghost use Rattle.thread_machine.specs.Context.{given_slots};
ghost use Rattle.thread_tree.specs.LocalState.{named, with_value};

use crate::evaluate::evaluate;
use arrayvec::ArrayVec;
use thread_tree::{At, Expr, LOCALS, List, Local};

/// Gives the local of this name a new value, among the slots from `base` on; nothing changes where
/// none has the name.
#[tactic(auto, using(crate::proofs::ScopeLemmas::with_value_laws))]
pub fn assign(slots: &mut ArrayVec<Local, LOCALS>, base: usize, name: u32, value: u32)
    requires within { base ≤ length slots.old.items }
    ensures assigned { slots.new.items
        ≡ take base slots.old.items ++ with_value (drop base slots.old.items) name value }
{
    for at in base..slots.len() {
        if slots[at].name == name {
            slots[at].value = value;
            return;
        }
    }
}

/// Gives a result to the local of this name, if there is one, among the slots from `base` on.
pub fn give(slots: &mut ArrayVec<Local, LOCALS>, base: usize, name: Option<u32>, value: u32)
    requires within { base ≤ length slots.old.items }
    ensures given { slots.new.items ≡ given_slots name base value slots.old.items }
{
    match name {
        Some(name) => assign(slots, base, name, value),
        None => {}
    }
}

/// Declares the locals of a function that is called: its parameters with the values of the
/// arguments over the slots from `base` on.
pub fn fill(
    slots: &mut ArrayVec<Local, LOCALS>,
    base: usize,
    parameters: &List<At>,
    arguments: &List<Expr>,
)
    requires within { base ≤ length slots.old.items }
    requires room { length slots.old.items + length parameters.now ≤ LOCALS }
    ensures filled { slots.new.items ≡ slots.old.items
        ++ named (names_of parameters.now) (values_in (drop base slots.old.items) arguments.now) }
{
    let begin = slots.len();
    for at in 0..parameters.len().min(arguments.len()) {
        let value = evaluate(&slots.as_slice()[base..begin], arguments.get(at));
        slots.push(Local {
            name: parameters.get(at).name,
            value,
        });
    }
}
