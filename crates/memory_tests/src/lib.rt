//! Tests of the memory's crates and of the outer world's: the counter of steps, the device, the journal, the heap,
//! files and sinks.
#![tactic(auto)]

#[cfg(test)]
mod blocks;
#[cfg(test)]
mod counted;
#[cfg(test)]
mod counters;
#[cfg(test)]
mod files;
#[cfg(test)]
mod fixtures;
#[cfg(test)]
mod heap;
#[cfg(test)]
mod heap_reads;
#[cfg(test)]
mod sinks;
#[cfg(test)]
mod transactions;
#[cfg(test)]
mod words;
