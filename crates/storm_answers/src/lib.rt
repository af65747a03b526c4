//! How the commands of storm end: their statuses, the files that they read and refuse, the text of a
//! run that ended, and what is written.
#![tactic(auto)]

mod early_end;
mod files;
mod output;
mod report;
mod schedule;
mod status;

pub use early_end::{EarlyEnd, told};
pub use files::{Accepted, read_files, read_plan};
pub use output::{write_answer, write_text};
pub use report::{Counted, counted_in, offers_of, text_of_end};
pub use run_report;
pub use schedule::read_events;
pub use schedule_core;
pub use status::Status;
pub use stored_runs;
