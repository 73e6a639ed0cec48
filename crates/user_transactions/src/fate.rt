use crate::tx_end::TxEnd;

/// What became of a block: what follows it is next, or what follows the innermost loop, or the whole has ended.
#[derive(Drop)]
pub(crate) enum Fate {
    Went,
    Broke,
    Ended(TxEnd),
}
