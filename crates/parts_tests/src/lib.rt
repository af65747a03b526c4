//! Tests of the parts of two states over stores that refuse.
#![tactic(auto)]

#[cfg(test)]
mod commits;
#[cfg(test)]
mod migrations;
#[cfg(test)]
mod scene;
