//! The text of a thread program, from bytes to its tree.
//!
//! [`parse`] answers the tree that a text spells, or the first fault at its place; [`print_tree`] of `thread_print` goes
//! the other way.
//! `docs/LANGUAGE.md` has the grammar and the faults.
#![tactic(auto)]

mod bounds;
mod building;
mod calls;
mod cursor;
mod declarations;
mod expression;
mod fault;
mod halt;
mod kinds;
mod lists;
mod memory;
mod operand;
mod operators;
mod parsing;
mod statements;
mod transactions;

pub use fault::TextFault;
use halt::Halt;
pub use parsing::parse;
pub use thread_print::{NoMemory, print_tree};
