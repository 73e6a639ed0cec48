ghost use Rattle.std.specs.Prelude.{◌≡◌, ◌+◌, ◌≤◌, length, IfSome};
ghost use Rattle.thread_tree.specs.LocalState.{locals_of, next_statement};
ghost use Rattle.thread_tree.specs.Need.{weight_of, callees};
ghost use Rattle.thread_tree.specs.Program.{program_of};
ghost use Rattle.thread_machine.specs.Context.{local_of};
ghost use Rattle.thread_machine.specs.Reached.{IsContext};

use crate::context::Ctx;
use arrayvec::ArrayVec;
use thread_check::Checked;
use thread_tree::{LOCALS, Local};

impl Ctx {
    /// The locals in scope, from the outermost frame inwards, in order of declaration.
    pub fn locals(&self, program: &Checked) -> ArrayVec<Local, LOCALS>
        requires context { IsContext (program_of program.now) self.now }
        ensures locals { result.items ≡ locals_of (local_of (program_of program.now) self.now) }
    {
        let _ = program;
        let mut locals = ArrayVec::new();
        for at in 0..self.slots.len() {
            locals.push(self.slots[at]);
        }
        locals
    }

    /// The locals of the innermost frame, in order of declaration. With all that the statement at
    /// hand declares they are at most 48.
    #[tactic(auto, using(crate::proofs::OwnLemmas::own_room))]
    pub fn own_locals(&self, program: &Checked) -> ArrayVec<Local, LOCALS>
        requires context { IsContext (program_of program.now) self.now }
        ensures locals { result.items ≡ (local_of (program_of program.now) self.now).top.locals }
        ensures room { IfSome (next_statement (local_of (program_of program.now) self.now).top.todo)
            (λ s. length (local_of (program_of program.now) self.now).top.locals
            + (weight_of (callees (program_of program.now)) s).need.locals ≤ LOCALS) }
    {
        let _ = program.tree();
        let _ = self.slots.len();
        let mut locals = ArrayVec::new();
        locals.try_extend_from_slice(self.own()).unwrap();
        locals
    }
}
