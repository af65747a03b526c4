//! Tests of followers of commits: what a follower was told where it fails at a commit, and that a
//! later run goes on from there over the same stores.
#![tactic(auto)]

#[cfg(test)]
mod checks;
#[cfg(test)]
mod ends;
mod listener;
#[cfg(test)]
mod scenes;
#[cfg(test)]
mod ways;

pub use listener::{Line, Listener};
