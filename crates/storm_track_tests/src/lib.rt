//! Tests of tracking: how each record ends, and what is reached in all tries.
#![tactic(auto)]

#[cfg(test)]
mod tracks;
