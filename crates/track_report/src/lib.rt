//! The text of a tracking: how each record ended, how often each key of a state was written, and a
//! last line with their numbers.
#![tactic(auto)]

mod ending;
mod text;

pub use ending::RecordEnd;
pub use text::track_text;
