//! The fault that is answered for a program is the earliest of all its faults.
//!
//! `faults_of` (specs/OfDeclarations.antt) lists all the faults of a program: each rule is asked,
//! also behind faults. They are met along the tokens that spell the program, each at the token at
//! which it stands and in the order of the table there, and the tokens of a text stand one behind
//! another. So the first of them, which is the one that is answered, comes no later than any.
#![tactic(auto)]

mod laws;
mod worked;

pub use laws::{earliest, rising};
pub use worked::worked_rows;
