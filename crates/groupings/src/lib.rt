//! Which tasks of a consumer get a row.
#![tactic(auto)]

mod lane;
mod laws;
mod router;

pub use lane::{Lane, Targets};
pub use laws::{shuffles_are_even, targets_are_allowed};
pub use router::Router;
