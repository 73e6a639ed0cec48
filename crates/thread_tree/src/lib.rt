//! The tree of a thread program, and what its expressions and moves mean.
//!
//! `docs/LANGUAGE.md` teaches the language. The definitions stand in `specs/`: the grammar, the
//! value of an expression, the state of a thread and its moves.
#![tactic(auto)]

mod action;
mod block;
mod boxed;
mod expr;
mod few;
mod kinds;
mod limits;
mod list;
mod local;
mod name;
mod needed;
mod piece;
mod place;
mod shapes;
mod slot;
mod token;
mod transaction;
mod tree;

pub use action::{Call, Item, Who};
pub use block::{Block, Stmt};
pub use boxed::Box;
pub use expr::{Expr, FieldOf, Op};
pub use few::Few;
pub use kinds::{ATOMIC, EACH_GIVEN, PRINT, TURN, kind_of_call, result_count};
pub use limits::{
    BLOCKS, CONSOLE_BYTES, DECLARED, ITEMS, LOCALS, LOOPS, MOVES, OPERATIONS, RECORD_WORDS, ROWS,
    START_VALUES, TARGETS,
};
pub use list::List;
pub use local::Local;
pub use name::{Name, Text};
pub use needed::Needed;
pub use piece::Piece;
pub use place::{At, Num, Place};
pub use shapes::{pieces, shape, word_of};
pub use slot::Slot;
pub use token::{Mark, Placed, Token, Word};
pub use transaction::{TBlock, TStmt};
pub use tree::{Decl, Tree, discard};
