//! The undo journal: each transaction over the nonvolatile words takes effect whole or not at all (docs/JOURNAL.md).
//!
//! `settle` makes a device `Idle`. `Idle::begin` opens a transaction, `Open`, which ends by `commit`, `undo` or,
//! after a cut, `lose`. A device whose power was cut is `Dark`, until `again` powers it up.
#![tactic(auto)]

mod dark;
mod entry;
mod idle;
mod layout;
mod open_transaction;
mod settling;
mod words;
mod writes;

pub use dark::Dark;
pub use entry::{Entry, entry_of};
pub use idle::Idle;
pub use layout::{CAPACITY, COUNT, ENTRIES, MAGIC, MAGIC_WORD};
pub use open_transaction::Open;
pub use settling::settle;
pub use words::Words;
