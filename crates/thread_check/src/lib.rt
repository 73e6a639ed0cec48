//! Whether a thread program keeps the rules of names and the limits.
//!
//! `docs/LANGUAGE.md` has the table of faults. The definitions stand in `specs/`, one row of the
//! table a rule; [`check`] answers the first fault in order of the text.
#![tactic(auto)]

mod actions;
mod blocks;
mod calls;
mod checked;
mod declarations;
mod expressions;
mod fault;
mod names;
mod peak;
mod program;
mod scope;
mod sort;
mod statements;
mod transactions;
mod uses;

pub use checked::{Checked, check, discard};
pub use fault::{CheckFault, Kind};
