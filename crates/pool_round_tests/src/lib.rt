//! Tests of rounds of stretches, in which many tuples go through all bolts, with full boxes too.
#![tactic(auto)]

#[cfg(test)]
mod rounds;
#[cfg(test)]
mod tally;
