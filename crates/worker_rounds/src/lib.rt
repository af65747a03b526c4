//! The caller's own round between stretches of workers, with the commits of its coordinator to the
//! parts of all states.
//!
//! It passes on `schedule_core`, `batch_commits` and `worker_turns`.
#![tactic(auto)]

mod laws;
mod round;

pub use batch_commits;
pub use round::caller_round;
pub use schedule_core;
pub use worker_turns;
