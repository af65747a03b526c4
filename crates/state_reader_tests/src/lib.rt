//! Tests of readers beside a publisher.
#![tactic(auto)]

#[cfg(test)]
mod alone;
#[cfg(test)]
mod commits;
#[cfg(test)]
mod together;
