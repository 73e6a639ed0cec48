//! A simulated nonvolatile memory: words that stay, and budgets of word writes that cut the power.
#![tactic(auto)]

mod nv;
mod sim_nv;

pub use nv::{Cut, NoMemory, Nv, WORDS};
pub use sim_nv::SimNv;
