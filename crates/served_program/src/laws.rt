// What a served program gives.
ghost use Rattle.std.specs.Prelude.{◌≡◌, ◌≤◌, ℕ, IsTrue, List, [], length, All, Some, slice_get};
ghost use Rattle.thread_tree.specs.declared.block.Stmt.{Stmt, out-Stmt};
ghost use Rattle.thread_tree.specs.declared.tree.Tree.{Tree};
ghost use Rattle.thread_tree.specs.Program.{program_of};
ghost use Rattle.thread_tree.specs.Ahead.{ahead};
ghost use Rattle.thread_tree.specs.Ahead.Arrival.{AtAction};
ghost use Rattle.thread_tree.specs.Actions.{actions, loops};
ghost use Rattle.thread_tree.specs.Relive.{Start, Record};
ghost use Rattle.kernel_model.specs.Kernel.{Thread};
ghost use Rattle.kernel_model.specs.Relived.{IsRelived};
ghost use Rattle.served_program.specs.Served.{is_served, is_served_action};

/// What a served program gives. It does nothing.
///
/// Each action is a print or a served `atomic` block, and so is the one at which a thread arrives
/// that its start and its records give back. At most one thread is started, there are no queues, no
/// semaphores and no persistent loops, no type has several fields, and no thread has parameters.
pub fn served_laws()
    ensures acts { (tree : Tree) (number : ℕ) (s : Stmt) → IsTrue (is_served tree) → slice_get (actions (program_of tree)) number ≡ Some s → IsTrue (is_served_action (out-Stmt s)) }
    ensures arrives { (tree : Tree) (start : Start) (rs : List Record) (thread : Thread) → IsTrue (is_served tree) → IsRelived (program_of tree) start rs thread → (s : Stmt) → (ahead (program_of tree) thread.local).arrival ≡ AtAction s → IsTrue (is_served_action (out-Stmt s)) }
    ensures one_start { (tree : Tree) → IsTrue (is_served tree) → length (program_of tree).starts ≤ 1 }
    ensures no_queues { (tree : Tree) → IsTrue (is_served tree) → (program_of tree).queues ≡ [] }
    ensures no_semaphores { (tree : Tree) → IsTrue (is_served tree) → (program_of tree).semaphores ≡ [] }
    ensures no_loops { (tree : Tree) → IsTrue (is_served tree) → loops (program_of tree) ≡ [] }
    ensures one_field { (tree : Tree) → IsTrue (is_served tree) → All (λ kind. length kind.fields ≤ 1) (program_of tree).kinds }
    ensures no_parameters { (tree : Tree) → IsTrue (is_served tree) → All (λ template. template.parameters ≡ []) (program_of tree).templates }
{}
