//! What can be seen of the kernel from outside: its events, the states of its threads, how much a
//! call leaves behind for the replay, and the text of its dump.
#![tactic(auto)]

mod codes;
mod event;
mod kinds;
mod laws;
mod row_state;
mod wait;
mod what;

pub use codes::{BAD_REFERENCE, NO_RECORD_ROOM, ORDINARY_END, TOO_MANY_MOVES, TOO_MANY_OPERATIONS};
pub use event::Event;
pub use kinds::{kind_of, record_words};
pub use laws::{acting, loops, open_calls, order, places, replay, soundness, stepping, waking};
pub use row_state::RowState;
pub use wait::{NEVER, Wait};
pub use what::What;
