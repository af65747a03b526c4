//! Tests of tables that are folded by pieces of the records, by all numbers of workers.
#![tactic(auto)]

#[cfg(test)]
mod folds;
