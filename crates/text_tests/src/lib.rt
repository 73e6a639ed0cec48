//! Tests of texts: their tokens, their trees, the rules that they keep, and which programs are served. It has no
//! other code.
#![tactic(auto)]

#[cfg(test)]
mod changed_bytes;
#[cfg(test)]
mod checked;
#[cfg(test)]
mod first_faults;
#[cfg(test)]
mod fixtures;
#[cfg(test)]
mod printed;
#[cfg(test)]
mod read_texts;
#[cfg(test)]
mod refused_texts;
#[cfg(test)]
mod scans;
#[cfg(test)]
mod sensor_program;
#[cfg(test)]
mod served;
