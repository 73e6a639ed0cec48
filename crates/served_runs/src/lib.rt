//! What always holds of the uncut run of a program that is served.
#![tactic(auto)]

mod laws;

pub use laws::served_runs;
