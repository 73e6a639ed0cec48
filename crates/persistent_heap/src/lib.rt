//! The persistent heap: blocks are taken at the least free place and given back, over holes that are kept in the
//! device's words, in order and merged (docs/HEAP.md).
#![tactic(auto)]

mod giving_back;
mod hole;
mod layout;
mod link;
mod taking;
mod walk;
mod words;

pub use giving_back::give_back;
pub use hole::Hole;
pub use taking::take;
