//! The console in the nonvolatile words: its length, its bytes, and appending to it (docs/IMAGE.md).
#![tactic(auto)]

mod appending;
mod reading;

pub use appending::append;
pub use reading::{byte, length};
