//! Rows that were worked out by hand: what the definitions of a dump, of the uncut run and of an image must give for
//! them. Only its tests have code.
#![tactic(auto)]

#[cfg(test)]
mod worked_dumps;
#[cfg(test)]
mod worked_images;
#[cfg(test)]
mod worked_runs;
