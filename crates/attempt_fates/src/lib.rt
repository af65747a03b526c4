//! How the attempts of batches ended, as a run tells them.
#![tactic(auto)]

mod fates;
mod laws;

pub use fates::{Attempt, End, Fates};
pub use laws::{committed_records_are_all, each_record_is_committed_once};
