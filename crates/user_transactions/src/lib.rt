//! The `atomic` blocks of a program, performed on the objects in the words within one transaction.
#![tactic(auto)]

mod acts;
mod atomic;
mod closing;
mod ends;
mod expressions;
mod fate;
mod leaving;
mod level;
mod moves;
mod performing;
mod references;
mod running;
mod step;
mod steps;
mod tx_end;
mod values;
mod work;

pub use performing::perform;
pub use tx_end::TxEnd;
