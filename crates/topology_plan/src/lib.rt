//! What a valid topology is, and the plan that runs it.
#![tactic(auto)]

mod function;
mod limits;
mod parts;
mod plan;

pub use function::{Attempts, Function, Leaves, Shape, Test};
pub use limits::{MOST_PARTITIONS, plan_limits_have_these_values};
pub use parts::{Body, Component, Fold, Grouping, Kind, Op, Origin, StateSpec, Sub};
pub use plan::{Made, Plan};
