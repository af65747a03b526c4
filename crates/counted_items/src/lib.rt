//! Lists by how often their items stand in them.
//!
//! A weight gives each item a number; a list weighs what its items weigh together. Facts of many
//! lists, as that what was sent is what was taken and what waits, are equations of weights: they
//! add up whatever the order of the work.
#![tactic(auto)]

mod laws;

pub use laws::{
    counts_decide, items_within_are_there, lists_weigh_sums, order_does_not_count,
    same_is_within_both_ways,
};
