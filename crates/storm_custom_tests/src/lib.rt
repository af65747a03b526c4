//! Tests of bolts whose operation is a closure that is stored with its law.
#![tactic(auto)]

#[cfg(test)]
mod laws;
