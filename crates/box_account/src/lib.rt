//! What the taken lists of boxes tell of the ends of attempts.
#![tactic(auto)]

mod laws;

pub use laws::{boxes_tell_of_ends, complete_verdicts_are_heard, rows_took_true};
