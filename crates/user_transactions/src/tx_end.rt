use arrayvec::ArrayVec;

/// How a block ended. After `Aborted` or `Fault` the caller undoes the transaction.
#[derive(Debug, Drop)]
pub enum TxEnd {
    Gave(ArrayVec<u32, 3>),
    Aborted,
    Fault(u32),
}
