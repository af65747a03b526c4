//! Tests of what topology files mean: names, sources, cycles, fields, replays and sizes, and the
//! order of all faults.
#![tactic(auto)]

#[cfg(test)]
mod faults;
#[cfg(test)]
mod orders;
#[cfg(test)]
mod texts;
