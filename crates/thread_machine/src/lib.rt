//! The contexts of threads: their local moves, running ahead to the next action, and its results.
//!
//! A context stands for a local state of the thread's program (`local_of` in `specs/Context.antt`).
//! It holds no reference into the program, and takes no memory beside its own.
#![tactic(auto)]

mod ahead;
mod at_loop;
mod bind;
mod body;
mod context;
mod contexts;
mod count;
mod evaluate;
mod fresh;
mod locals;
mod loops;
mod moves;
mod next;
mod number;
mod operands;
mod replay;
mod run;
mod scope;
mod seek;
mod step;
mod walk;

pub use context::Ctx;
pub use contexts::Contexts;
pub use next::Next;
pub use thread_tree::Local;
