//! Counts by state and key, each found by hash. A count ends at 2^64 - 1.
#![tactic(auto)]

mod tallies;

pub use tallies::{KeyCount, Tallies};
pub use tree_model;
