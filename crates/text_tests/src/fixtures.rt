// How texts are read and programs are made of them. What lets a tree go stands here alone, since each such function is
// proved through all that a tree owns.
ghost use Rattle.std.specs.Prelude.{◌<◌, ◌-◌, ◌^◌, length};
ghost use Rattle.thread_tree.specs.SpellingOfDeclarations.{SpellsProgram};
ghost use Rattle.thread_tokens.specs.Scan.{scan_of};

use std::alloc::Global;
use std::process::Abort;
use thread_check::{CheckFault, Checked, check};
use thread_text::{TextFault, parse};
use thread_tree::Tree;

/// The tree of a text that is read.
pub(crate) fn tree_of(rt: &impl Abort, alloc: Global, text: &[u8]) -> Tree
    requires { length text.now < 2 ^ 32 - 1 }
    ensures spelled { SpellsProgram (scan_of text.now).tokens result.decls }
{
    match parse(alloc, text) {
        Ok(tree) => tree,
        Err(fault) => panic!(rt; "{fault:?}"),
    }
}

/// The fault of a text, or none where it is read.
pub(crate) fn fault_of_text(alloc: Global, text: &[u8]) -> Option<TextFault>
    requires { length text.now < 2 ^ 32 - 1 }
{
    match parse(alloc, text) {
        Ok(tree) => {
            thread_tree::discard(tree);
            None
        }
        Err(fault) => Some(fault),
    }
}

/// The fault of a tree, or none where it is accepted.
pub(crate) fn fault_of_tree(alloc: Global, tree: Tree) -> Option<CheckFault> {
    match check(alloc, tree) {
        Ok(program) => {
            thread_check::discard(program);
            None
        }
        Err(fault) => Some(fault),
    }
}

/// The fault of the program that a text spells, or none where it is accepted.
pub(crate) fn fault_of_program(rt: &impl Abort, alloc: Global, text: &[u8]) -> Option<CheckFault>
    requires { length text.now < 2 ^ 32 - 1 }
{
    fault_of_tree(alloc, tree_of(rt, alloc, text))
}

/// The program that a text spells, which is accepted.
pub(crate) fn program_of(rt: &impl Abort, alloc: Global, text: &[u8]) -> Checked
    requires { length text.now < 2 ^ 32 - 1 }
{
    match check(alloc, tree_of(rt, alloc, text)) {
        Ok(program) => program,
        Err(fault) => panic!(rt; "{fault:?}"),
    }
}
