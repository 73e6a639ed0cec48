//! Whole runs over files, a sink and a device in memory, and the words of the command line. All texts are worked out by
//! hand. Only its tests have code.
#![tactic(auto)]

#[cfg(test)]
mod boots;
#[cfg(test)]
mod commands;
#[cfg(test)]
mod cuts;
#[cfg(test)]
mod mains;
#[cfg(test)]
mod programs;
#[cfg(test)]
mod refusals;
#[cfg(test)]
mod reports;
#[cfg(test)]
mod sinks;
#[cfg(test)]
mod words;
#[cfg(test)]
mod worlds;
