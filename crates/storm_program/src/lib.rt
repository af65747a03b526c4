//! The commands of storm, and the call that the program makes.
#![tactic(auto)]

mod check;
mod fold;
mod load;
mod plain;
mod program;
mod replay;
mod run;
mod track;

pub use event_worlds::attempt_fates::{
    Attempt, End, Fates, committed_records_are_all, each_record_is_committed_once,
};
pub use fold::storm_fold;
pub use program::{
    storm, storm_check, storm_load, storm_plain, storm_replay, storm_run, storm_track,
};
pub use storm_resume::stored_runs::{RunEnd, replay_over};
pub use storm_resume::storm_answers::Status;
