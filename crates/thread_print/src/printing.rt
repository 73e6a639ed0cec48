ghost use Rattle.std.specs.Prelude.{◌≡◌, IfOk};
ghost use Rattle.thread_print.specs.CanonicalText.{text_of};
ghost use Rattle.thread_print.specs.Rescanned.{IsParsed, Rescans, Respells};

use crate::NoMemory;
use crate::out::Out;
use crate::printer::Printer;
use std::alloc::Global;
use thread_tree::Tree;

/// The canonical text of a tree: each declaration on a line of its own, with one space between each two tokens.
///
/// # Errors
///
/// Want of memory.
#[tactic(auto, using(crate::proofs::TextLaws::text_rescans, crate::proofs::TextLaws::text_respells))]
pub fn print_tree(alloc: Global, tree: &Tree) -> Result<Vec<u8>, NoMemory>
    ensures text { IfOk result (λ text. text.items ≡ text_of tree.now) }
    // The text of a tree that was read has its canonical tokens,
    ensures scans { IfOk result (λ text. IsParsed tree.now → Rescans tree.now text.items) }
    // and these spell the same declarations, but for the places where they stand.
    ensures again { IfOk result (λ text. IsParsed tree.now → Respells tree.now text.items) }
{
    let text = printed(alloc, tree)?;
    Ok(text)
}

/// The lines of a tree's declarations.
#[tactic(auto, using(crate::proofs::Lines::printed_none, crate::proofs::Lines::printed_step, crate::proofs::Lines::printed_all))]
fn printed(alloc: Global, tree: &Tree) -> Result<Vec<u8>, NoMemory>
    ensures { IfOk result (λ text. text.items ≡ text_of tree.now) }
{
    let printer = Printer::new(&tree.names);
    let mut out = Out::new(alloc);
    for i in 0..tree.decls.len() {
        printer.declaration(&mut out, tree.decls.get(i));
    }
    let text = out.finish()?;
    Ok(text)
}
