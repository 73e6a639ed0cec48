ghost use Rattle.std.specs.Prelude.{◌≡◌, ◌+◌, length, IsSomeAnd};
ghost use Rattle.thread_tree.specs.Ahead.{ahead};
ghost use Rattle.thread_tree.specs.Kinds.{result_count};
ghost use Rattle.thread_tree.specs.LocalState.{bind, next_action};
ghost use Rattle.thread_tree.specs.Program.{program_of};
ghost use Rattle.thread_machine.specs.Context.{local_of};
ghost use Rattle.thread_machine.specs.Reached.{IsContext};

use crate::context::Ctx;
use std::sync::ledger::Ledger;
use step_counter::Steps;
use thread_check::Checked;

impl Ctx {
    /// Runs ahead to the next action and passes it by with its recorded results.
    pub fn replay<L: Ledger>(&mut self, program: &Checked, results: &[u32], steps: &mut Steps<L>)
        requires context { IsContext (program_of program.now) self.old }
        requires action { IsSomeAnd (next_action (program_of program.now) (ahead (program_of program.now) (local_of (program_of program.now) self.old)).local)
            (λ action. length results.now ≡ result_count action.kind action.given) }
        ensures context { IsContext (program_of program.now) self.new }
        ensures bound { local_of (program_of program.now) self.new
            ≡ bind (program_of program.now) (ahead (program_of program.now) (local_of (program_of program.now) self.old)).local results.now }
        ensures stepped { steps.new
            ≡ steps.old + (ahead (program_of program.now) (local_of (program_of program.now) self.old)).moves }
    {
        let _ = self.ahead(program, steps);
        self.bind(program, results);
    }
}
