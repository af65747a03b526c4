//! The command `resume`: a run that goes on where an earlier one stopped, by the meta that a keeper
//! holds and the cells that the stores hold.
//!
//! It passes on the crates that it stands on: a crate above names them through this one.
#![tactic(auto)]

mod going_on;
mod resume;
mod start;
mod text;

pub use kept_commits;
pub use resume::storm_resume;
pub use storm_answers;
pub use storm_answers::{run_report, schedule_core, stored_runs};
