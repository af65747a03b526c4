//! One stretch of all workers over the seats of an engine, its boxes and its board: seats are lent
//! and dealt out to workers, which work beside one another, and come back.
//!
//! It passes on the crates of boxes, engine and workers that it stands on: a crate above names them
//! through this one.
#![tactic(auto)]

mod ackers;
mod crews;
mod desks;
mod hands;
mod stretch;

pub use box_account;
pub use box_rows;
pub use event_engine;
pub use stretch::stretch_once;
pub use worker_pool;
pub use world_progress;
