//! One event of the kernel: a step of the uncut run, as one transaction (docs/EVENTS.md).
#![tactic(auto)]

mod actions;
mod blocks;
mod chosen;
mod closing;
mod events;
mod prints;
mod results;
mod writes;

pub use events::{event, perform_event};
pub use writes::EVENT_WRITES;
