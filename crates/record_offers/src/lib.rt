//! Offers: which records a spout gives out next, which are gone, and which come back.
//!
//! A spout without partitions has batches of its input, one after another. A spout with partitions
//! offers the first records that are not gone and whose partition is not shut.
#![tactic(auto)]

mod choice;
mod laws;
mod marks;
mod offers;
mod starts;

pub use laws::{batches_hold_all_records, offers_are_free};
pub use offers::Offers;
pub use starts::possible;
