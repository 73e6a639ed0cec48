//! Tests of the laws, which are contracts of functions that do nothing: each can be cited. And of the table of kinds.
#![tactic(auto)]

#[cfg(test)]
mod cited_laws;
#[cfg(test)]
mod kinds;
