//! The records of threads, and when words and contexts stand for a state of the kernel.
#![tactic(auto)]

mod appending;
mod finishing;
mod kernel;
mod laws;
mod outcome;
mod reading;
mod record;
mod starting;

pub use appending::{append, clear};
pub use finishing::finish;
pub use kernel::Kernel;
pub use laws::standing_laws;
pub use outcome::Outcome;
pub use reading::{record_at, record_count, record_word, result_count, words_used};
pub use record::Record;
pub use starting::{start_values, store_values};
