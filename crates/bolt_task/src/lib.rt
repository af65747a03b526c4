//! The task of a bolt or a state: it executes the tuples that come to it, and tells their ackers.
#![tactic(auto)]

mod task;

pub use task::{AtOnce, BoltTask};
