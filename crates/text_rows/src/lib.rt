//! Rows that were worked out by hand: what the definitions of a scan, of the table's answers and of the canonical text
//! must give for them. Only its tests have code.
#![tactic(auto)]

#[cfg(test)]
mod worked_scans;
#[cfg(test)]
mod worked_texts;
#[cfg(test)]
mod worked_verdicts;
