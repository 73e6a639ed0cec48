//! The objects of a program in the nonvolatile words: the fields of the live ones are read and stored, and what the
//! program declares is found by name.
#![tactic(auto)]

mod declared;
mod finding;
mod loading;
mod statics;
mod stop;
mod storing;
mod what;

pub use declared::{field_count, field_number, kind_number, object_number};
pub use loading::load;
pub use statics::{Static, static_object};
pub use stop::{BadReference, Stop};
pub use storing::store;
