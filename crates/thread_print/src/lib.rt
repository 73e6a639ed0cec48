//! The canonical text of a thread program's tree.
//!
//! [`print_tree`] writes it: each declaration on a line of its own, with one space between each two tokens.
//! `docs/LANGUAGE.md` says more.
#![tactic(auto)]

mod calls;
mod declarations;
mod expressions;
mod lists;
mod no_memory;
mod out;
mod printer;
mod printing;
mod statements;
mod transactions;

pub use no_memory::NoMemory;
pub use printing::print_tree;
