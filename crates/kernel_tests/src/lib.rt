//! Tests of the kernel's parts on a device in memory: the image, objects, the console, the ready list, the records of
//! threads and the dump. It has no other code.
#![tactic(auto)]

#[cfg(test)]
mod console;
#[cfg(test)]
mod dumped;
#[cfg(test)]
mod finished;
#[cfg(test)]
mod fixtures;
#[cfg(test)]
mod image;
#[cfg(test)]
mod objects;
#[cfg(test)]
mod ready;
#[cfg(test)]
mod records;
