ghost use Rattle.std.specs.Prelude.{◌≡◌, ◌+◌, ◌≤◌, ◌++◌, length, option_map, slice_get, IfSome, IsSomeAnd};
ghost use Rattle.thread_tree.specs.LocalState.{birth, named};
ghost use Rattle.thread_tree.specs.Program.{names_of, program_of};
ghost use Rattle.thread_machine.specs.Context.{local_of, parameters_of};
ghost use Rattle.thread_machine.specs.Seen.{seen};
ghost use Rattle.thread_machine.specs.Reached.{IsContext};

use crate::body::{Body, body_number, template as template_of};
use crate::context::Ctx;
use arrayvec::ArrayVec;
use thread_check::Checked;
use thread_tree::{At, LOCALS, List, Local};

impl Ctx {
    /// The context of a thread that is born of the template of this number with these arguments.
    pub fn fresh(program: &Checked, template: u32, args: &[u32]) -> Ctx
        requires template { IsSomeAnd (slice_get (program_of program.now).templates template)
            (λ t. length args.now ≡ length t.parameters) }
        ensures context { IsContext (program_of program.now) result }
        ensures born { IfSome (slice_get (program_of program.now).templates template)
            (λ t. local_of (program_of program.now) result ≡ birth t args.now) }
    {
        let tree = program.tree();
        let mut slots = ArrayVec::new();
        let number = template as usize;
        declare_parameters(&mut slots, template_of(tree, number), args);
        Ctx {
            slots,
            base: 0,
            body: body_number(tree, number),
            cursors: ArrayVec::new(),
            at: 0,
            again: false,
        }
    }
}

/// Declares locals of these names with these values.
fn declare_all(slots: &mut ArrayVec<Local, LOCALS>, names: &List<At>, values: &[u32])
    requires room { length slots.old.items + length names.now ≤ LOCALS }
    ensures declared { slots.new.items ≡ slots.old.items ++ named (names_of names.now) values.now }
{
    for at in 0..names.len().min(values.len()) {
        slots.push(Local {
            name: names.get(at).name,
            value: values[at],
        });
    }
}

/// Declares the parameters of a body, if there is one, with these values.
pub fn declare_parameters(slots: &mut ArrayVec<Local, LOCALS>, body: Option<Body>, values: &[u32])
    requires room { IfSome body (λ b. length slots.old.items + length b.parameters.now ≤ LOCALS) }
    ensures declared { slots.new.items ≡ slots.old.items
        ++ named (parameters_of (option_map seen body.entry)) values.now }
{
    match body {
        Some(body) => declare_all(slots, body.parameters, values),
        None => {}
    }
}
