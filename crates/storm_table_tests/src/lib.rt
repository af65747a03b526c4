//! Tests of the tables that `run`, `replay` and `plain` print of the same files.
#![tactic(auto)]

#[cfg(test)]
mod beside;
#[cfg(test)]
mod three_ways;
