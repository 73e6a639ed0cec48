ghost use Rattle.std.specs.Prelude.{◌≡◌, ℕ, Some, None, IfOk, IfErr, slice_get};
ghost use Rattle.thread_tree.specs.declared.block.Stmt.{Stmt};
ghost use Rattle.thread_tree.specs.Actions.{actions};
ghost use Rattle.thread_tree.specs.Program.{program_of};
ghost use Rattle.thread_tree.specs.Limits.{IsWithinLimits, IsSound};
ghost use Rattle.thread_check.specs.Faults.{fault_of, IsTold};
ghost use Rattle.thread_check.specs.Fit.{IsFitAction};
ghost use Rattle.thread_check.specs.Loopless.{AreLooplessFunctions};

use crate::actions::are_few;
use crate::fault::CheckFault;
use crate::program::declarations;
use std::alloc::Global;
use std::marker::Model;
use thread_tree::Tree;

/// A program that keeps the rules of names and the limits. Contracts see its tree.
#[derive(Debug, Drop)]
pub struct Checked {
    tree: Tree,
}

impl Model for Checked {
    ghost use Rattle.std.specs.Prelude.{◌≡◌, ◌<◌, ◌^◌, length, None};
    ghost use Rattle.thread_tree.specs.Program.{program_of};
    ghost use Rattle.thread_tree.specs.Actions.{actions};
    ghost use Rattle.thread_tree.specs.declared.tree.Tree.{Tree as Whole};
    ghost use Rattle.thread_tree.specs.contracts.tree.Tree as whole;
    ghost use Rattle.thread_check.specs.Faults.{fault_of};

    ghost Value = { Whole };

    ghost coded = { whole.the_row.coded };

    ghost view = { λ checked. checked.tree };

    ghost invariant = { λ checked. (fault_of checked.tree ≡ None) × (length (actions (program_of checked.tree)) < 2 ^ 32) };
}

/// Checks a program's names and limits.
///
/// # Errors
///
/// The first fault in order of the text; `NoMemory` where there was none for the check, or where the actions are so
/// many that their numbers have more than 32 bits.
#[tactic(auto, unfolding(crate::specs::Faults::fault_of))]
pub fn check(alloc: Global, tree: Tree) -> Result<Checked, CheckFault>
    ensures ok { IfOk result (λ checked. checked ≡ tree) }
    ensures accepted { IfOk result (λ checked. fault_of checked ≡ None) }
    ensures err { IfErr result (λ fault. IsTold (fault_of tree) fault) }
{
    match declarations(alloc, &tree.decls) {
        Ok(()) => {
            if are_few(&tree) {
                return Ok(Checked { tree });
            }
            thread_tree::discard(tree);
            Err(CheckFault::NoMemory)
        }
        Err(fault) => {
            thread_tree::discard(tree);
            Err(fault)
        }
    }
}

/// Lets a program go, as `thread_tree::discard` does its tree.
pub fn discard(program: Checked) {
    thread_tree::discard(program.tree);
}

impl Checked {
    /// The program's tree.
    pub fn tree(&self) -> &Tree
        ensures same { result.now ≡ self.now }
        ensures accepted { fault_of self.now ≡ None }
        ensures within { IsWithinLimits (program_of self.now) }
        ensures sound { IsSound (program_of self.now) }
        ensures fit { (number : ℕ) (s : Stmt) → slice_get (actions (program_of self.now)) number ≡ Some s → IsFitAction (program_of self.now) s }
        ensures loopless { AreLooplessFunctions (program_of self.now) }
    {
        &self.tree
    }
}
