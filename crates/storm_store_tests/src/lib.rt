//! Tests of runs over stores that fail, and over stores that begin with cells.
#![tactic(auto)]

#[cfg(test)]
mod stores;
