//! Which texts are accepted programs, and that each is one program alone.
//!
//! A text is accepted where its bytes spell a tree within the bounds and the tree breaks no rule.
//! The grammar is unambiguous: the tokens of a text spell one tree alone, and where its boxes lie in
//! memory is no part of it.
#![tactic(auto)]

mod laws;
mod worked;

pub use laws::{one_program, same_verdict, unambiguous};
pub use worked::worked_rows;
