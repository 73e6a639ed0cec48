//! A counter of steps, by which contracts bound the work of a call. It takes no bytes, and only `tick` raises it.
#![tactic(auto)]

mod steps;

pub use steps::Steps;
