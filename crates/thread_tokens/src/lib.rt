//! The tokens of a program's text.
#![tactic(auto)]

mod blank;
mod bytes;
mod ending;
mod lexeme;
mod names;
mod piece;
mod place;
mod scanned;
mod scanner;
mod spelling;

pub use ending::Ending;
pub use piece::{Fault, Piece};
pub use scanned::Scanned;
pub use scanner::scan;
pub use spelling::{mark_of, mark_text, operator_of, operator_text, word_of, word_text};
