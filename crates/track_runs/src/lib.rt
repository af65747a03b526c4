//! The tracking of records: windows of up to 1,024 roots, each with a new ledger an attempt. What
//! was not acked is tried again, as often as the topology allows.
#![tactic(auto)]

mod ends;
mod records;
mod text;
mod tracking;

pub use records::{Tracked, track_records};
pub use text::tracked_text;
