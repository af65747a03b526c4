//! What the offers of a spout come to, one after another: each record is taken at most once, and
//! with partitions a front of each.
#![tactic(auto)]

mod laws;

pub use laws::{
    all_records_are_taken, fronts_are_kept, marks_are_set, offers_are_runs,
    possible_starts_are_starts, records_are_taken_once,
};
