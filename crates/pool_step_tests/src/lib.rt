//! Tests of single steps of tasks and ackers, and of the rounds of one worker.
#![tactic(auto)]

#[cfg(test)]
mod steps;
