ghost use Rattle.std.specs.Prelude.{◌≡◌, ◌+◌};
ghost use Rattle.thread_tree.specs.Ahead.{ahead};
ghost use Rattle.thread_tree.specs.Program.{program_of};
ghost use Rattle.thread_machine.specs.Context.{local_of};
ghost use Rattle.thread_machine.specs.Next.{IsAtSpot, IsNext};
ghost use Rattle.thread_machine.specs.Reached.{IsContext};

use crate::context::Ctx;
use crate::next::Next;
use crate::walk::statement_at;
use std::sync::ledger::Ledger;
use step_counter::Steps;
use thread_check::Checked;

impl Ctx {
    /// Makes moves, one step each, up to the next action, to the end of the thread, or to the bound
    /// of 10,000 moves where another move is next.
    pub fn ahead<L: Ledger>(&mut self, program: &Checked, steps: &mut Steps<L>) -> Next
        requires context { IsContext (program_of program.now) self.old }
        ensures context { IsContext (program_of program.now) self.new }
        ensures arrived { IsNext (program_of program.now)
            (ahead (program_of program.now) (local_of (program_of program.now) self.old)).arrival result }
        ensures moved { local_of (program_of program.now) self.new
            ≡ (ahead (program_of program.now) (local_of (program_of program.now) self.old)).local }
        ensures spot { IsAtSpot (program_of program.now) (local_of (program_of program.now) self.new) result }
        ensures stepped { steps.new
            ≡ steps.old + (ahead (program_of program.now) (local_of (program_of program.now) self.old)).moves }
    {
        let tree = program.tree();
        if !self.run(tree, steps) {
            return Next::Watchdog;
        }
        match statement_at(self.block(tree), self.at) {
            Some(_) => Next::Action(self.number(tree)),
            None => Next::Finished,
        }
    }
}
