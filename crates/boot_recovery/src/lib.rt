//! Recovery of a kernel from the words of a device alone (docs/BOOTS.md).
#![tactic(auto)]

mod counting;
mod formatting;
mod recovery;
mod restoring;
mod rows;
mod starting;

pub use counting::counter;
pub use recovery::recover;
pub use starting::formatting_stands;
