//! The trees of records that are tracked one by one: which nodes an attempt at a record reaches,
//! how often the record is tried, and how often a state's key is reached in all tries.
#![tactic(auto)]

mod laws;

pub use laws::{
    depths_add_up, good_attempts_reach_all, good_trees_go, paths_are_short, reached_counts_end,
    tallies_are_enough,
};
pub use tree_model;
