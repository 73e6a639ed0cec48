// The fault that is answered is the first one of the text, by the laws of `fault_places`.
ghost use Rattle.std.specs.Prelude.{◌≡◌};
ghost use Rattle.thread_tree.specs.SpellingOfDeclarations.{SpellsProgram};
ghost use Rattle.thread_tokens.specs.Scan.{scan_of};
ghost use Rattle.thread_check.specs.Faults.{fault_of};
ghost use Rattle.fault_places.specs.Order.{IsRising};
ghost use Rattle.fault_places.specs.Found.{first_of};
ghost use Rattle.fault_places.specs.OfDeclarations.{faults_of};

use crate::fixtures::{fault_of_tree, tree_of};
use fault_places::{earliest, rising, worked_rows};
use thread_check::CheckFault;
use thread_tree::{Place, Tree};

/// What the laws say of a text and its tree.
fn cited(text: &[u8], tree: &Tree)
    requires { SpellsProgram (scan_of text.now).tokens tree.now.decls }
    ensures rising { IsRising (scan_of text.now).tokens }
    ensures first { fault_of tree.now ≡ first_of (faults_of tree.now) }
{
    let _ = text;
    let _ = tree;
    rising();
    earliest();
}

#[test]
fn laws_are_cited(rt: HostRuntime) {
    let text: &[u8] = b"start a();";
    let tree = tree_of(&rt, rt.alloc(), text);
    cited(text, &tree);
    worked_rows();
    let fault = CheckFault::UnknownName(Place { line: 1, column: 7 });
    assert_eq!(rt; fault_of_tree(rt.alloc(), tree), Some(fault));
}
