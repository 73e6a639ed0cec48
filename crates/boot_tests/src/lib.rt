//! Boots of small programs on devices in memory: the recovery of a device whose formatting was cut, programs that are run
//! over cut boots, and the lines of a boot. Only its tests have code.
#![tactic(auto)]

#[cfg(test)]
mod boots;
#[cfg(test)]
mod fixtures;
#[cfg(test)]
mod recovery;
#[cfg(test)]
mod report;
