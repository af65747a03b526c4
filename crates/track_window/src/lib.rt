//! A window of records whose tuple trees are tracked by the words of a shared ledger: each record
//! is a root of its own, and all go through the topology depth by depth.
#![tactic(auto)]

mod acks;
mod depth;
mod execute;
mod job;
mod judge;
mod make;
mod walk;
mod window;

pub use window::{Window, track_window};
