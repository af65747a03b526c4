//! Tests of the cells of a state, and of its parts over stores that refuse.
#![tactic(auto)]

#[cfg(test)]
mod bytes;
#[cfg(test)]
mod commits;
#[cfg(test)]
mod migrations;
#[cfg(test)]
mod refusals;
#[cfg(test)]
mod tables;
