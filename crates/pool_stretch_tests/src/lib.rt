//! Tests of stretches of workers: gates, halts and verdicts.
#![tactic(auto)]

#[cfg(test)]
mod stretches;
