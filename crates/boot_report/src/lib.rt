//! The lines that report a boot: where it starts, its threads with their locals, and how it ends (docs/REPORT.md).
#![tactic(auto)]

mod ending;
mod passing;
mod starting;
mod threads;

pub use ending::{put_cut, put_dark, put_end};
pub use starting::put_begin;
