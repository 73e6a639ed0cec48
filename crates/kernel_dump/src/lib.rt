//! The dump: what the words of a device show of the kernel of a program, line by line.
#![tactic(auto)]

mod console;
mod dump;
mod line;
mod names;
mod objects;
mod ready;
mod rows;
mod sort;

pub use console::put_console;
pub use dump::put_dump;
pub use line::Line;
pub use names::{bytes_of, name_at};
pub use objects::put_objects;
pub use ready::put_ready;
pub use rows::put_rows;
pub use sort::Sort;
