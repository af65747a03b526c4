//! Tests of tables by their definition, whatever fails or stays mute.
#![tactic(auto)]

#[cfg(test)]
mod plains;
