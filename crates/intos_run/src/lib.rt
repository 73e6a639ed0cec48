//! Runs a program of the kernel over boots that power budgets cut, and reports them.
//!
//! `run` is all that the program does: it reads the words of the command line and the program, gives the device its
//! budgets, runs boot after boot and writes the report. Its clauses are the promises of the project.
#![tactic(auto)]

mod boot;
mod boots;
mod command;
mod fault;
mod job;
mod refusal;
mod step_world;
mod top;

pub use command::{Command, CommandFault, read_command};
pub use step_world::StepWorld;
pub use top::{Ended, run};
