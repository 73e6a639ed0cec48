//! The two definitions of the grammar beside one another: the table that says which token may come
//! next, and the relation that says which tree tokens spell.
//!
//! Whatever the relation spells the table takes, so where the table is stuck no program begins. Whatever
//! the table takes the relation spells, so both have one language. `docs/GRAMMAR.md` tells the two apart.
#![tactic(auto)]

mod laws;
mod worked;

pub use laws::{stuck_means, taken_means};
pub use worked::worked_tokens;
