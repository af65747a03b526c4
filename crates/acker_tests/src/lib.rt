//! Tests of an acker, and of the check of a list of messages.
#![tactic(auto)]

#[cfg(test)]
mod ackers;
