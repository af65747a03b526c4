//! Records as spans of their numbers: the maximal runs of a batch's records.
//!
//! A spout with partitions gives out batches whose records need not follow each other. Such a
//! batch is a list of spans, which rise and none of which touches another.
#![tactic(auto)]

mod fronts;
mod laws;
mod span;

pub use fronts::are_fronts;
pub use laws::{records_are_those_that_stand, runs_are_unique};
pub use span::{Span, Spans, are_apart, are_within, push_record, record_count};
