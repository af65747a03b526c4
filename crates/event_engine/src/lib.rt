//! The engine of tasks, ackers and the coordinator with their boxes: each event is a step of the
//! world, on one thread.
#![tactic(auto)]

mod acker;
mod boost;
mod engine;
mod exchange;
mod lending;
mod shutting;
mod start;
mod task;

pub use acker::AckerSeat;
pub use engine::Engine;
pub use task::TaskSeat;
