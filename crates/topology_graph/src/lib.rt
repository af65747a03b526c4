//! A graph of components with their subscriptions: depths, weights, and whatever else a component
//! has by what its sources have. Each component is looked at once, and each subscription once.
#![tactic(auto)]

mod numbers;
mod values;

pub use numbers::{
    DepthRule, TuplesRule, by_depth, greatest, numbers_by, ranks_settle_depths, total,
};
pub use values::{Along, Feed, Graph, values_along};
