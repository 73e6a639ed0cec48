//! The contracts of the kernel's calls, and of what they are made of (docs/KERNEL-CALLS.md).
//!
//! `KernelCalls` is what every call and a tick are made of. `TaskCalls`, `QueueCalls` and `SemaphoreCalls` are the calls
//! of threads; they stand here only until crates of their own implement them. Nobody implements any of them yet: code
//! above is proved against them. `wake`, `serve`, `block`, `sleep`, `hold` and `settle` are proved over any calls of lists that keep
//! to their contracts (`ListCalls`).
#![tactic(auto)]

mod kernel_calls;
mod laws;
mod over_lists;
mod queue_calls;
mod room;
mod semaphore_calls;
mod task_calls;

pub use kernel_calls::KernelCalls;
pub use laws::{
    event_laws, holding_laws, midst_laws, moving_laws, result_laws, serving_laws, settling_laws,
};
pub use over_lists::{block, hold, serve, settle, sleep, wake};
pub use queue_calls::QueueCalls;
pub use room::CALL_ROOM;
pub use semaphore_calls::SemaphoreCalls;
pub use task_calls::TaskCalls;
