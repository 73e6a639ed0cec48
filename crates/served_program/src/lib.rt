//! Which accepted programs `run` serves so far.
//!
//! The definition stands once, in `specs/Served.antt`; [`is_served`] decides it, and [`served_laws`]
//! says what a served program gives to the kernel.
#![tactic(auto)]

mod expressions;
mod laws;
mod program;
mod statements;
mod transactions;

pub use laws::served_laws;
pub use program::is_served;
