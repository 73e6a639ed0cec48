//! The part of a boot behind its recovery: event after event of a course (docs/EVENTS.md, docs/BOOTS.md).
#![tactic(auto)]

mod blank;
mod working;
mod world;

pub use blank::beginning;
pub use working::{Stopped, work};
pub use world::World;
