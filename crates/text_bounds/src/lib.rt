//! The bounds of a text said by its tokens alone.
//!
//! `thread_text` counts operators, parentheses and blocks by the parts that the table of the grammar owes. Here
//! they are counted by the tokens, with no look at what is owed, and both say the same of each text.
#![tactic(auto)]

mod laws;
mod worked;

pub use laws::bounds_by_tokens;
pub use worked::worked_bounds;
