//! The ready and the delayed threads of the kernel in the nonvolatile words: who is chosen.
//!
//! `ListCalls` has the contracts of the calls that change the lists or read them. Nobody implements it yet: code above
//! is proved against it.
#![tactic(auto)]

mod laws;
mod list_calls;
mod ready;

pub use laws::list_laws;
pub use list_calls::ListCalls;
pub use ready::chosen;
