// Laws of the uncut runs of served programs, as contracts of functions that do nothing.
ghost use Rattle.std.specs.Prelude.{◌≡◌, ℕ, IsTrue, [], Some, replicate};
ghost use Rattle.thread_tree.specs.declared.tree.Tree.{Tree};
ghost use Rattle.thread_tree.specs.Program.{program_of};
ghost use Rattle.kernel_model.specs.declared.event.Event.TheVariants.{Step};
ghost use Rattle.kernel_model.specs.Kernel.{Thread, thread_of};
ghost use Rattle.kernel_model.specs.Kernel.Activity.{Ready};
ghost use Rattle.kernel_model.specs.Run.{after};
ghost use Rattle.kernel_model.specs.Show.{timed_list};
ghost use Rattle.served_program.specs.Served.{is_served};

/// The laws of the uncut run of a served program. It does nothing.
///
/// No thread of it is ever delayed or waits, so no tick wakes anybody.
pub fn served_runs()
    ensures ready { (tree : Tree) (steps n t : ℕ) (thread : Thread) → IsTrue (is_served tree) → thread_of (after (program_of tree) (replicate steps Step) n) t ≡ Some thread → thread.activity ≡ Ready }
    ensures untimed { (tree : Tree) (steps n : ℕ) → IsTrue (is_served tree) → timed_list (after (program_of tree) (replicate steps Step) n) ≡ [] }
{}
