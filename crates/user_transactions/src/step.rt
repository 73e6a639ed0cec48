use crate::tx_end::TxEnd;
use thread_tree::{Expr, TBlock};

/// What a move of a block made of it.
#[derive(Drop)]
pub(crate) enum Step<'a> {
    /// What follows the statement is next.
    Went,
    /// What follows the innermost loop is next.
    Broke,
    /// A block was entered, of a loop with this test if there is one.
    Entered(&'a TBlock, Option<&'a Expr>),
    /// The whole block has ended.
    Ended(TxEnd),
}
