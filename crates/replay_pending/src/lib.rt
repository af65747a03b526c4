//! The attempts of batches that are in flight, at most so many, in one table: their records, their
//! time-outs, and what they were settled with. Of each transaction it counts the attempts that
//! were begun and those that aborted.
#![tactic(auto)]

mod attempts;
mod entry;
mod fault;
mod laws;
mod pending;
mod places;

pub use attempts::Tried;
pub use entry::Entry;
pub use fault::BeginFault;
pub use laws::{roots_are_told_at_their_last_tick, roots_that_are_not_timed_are_not_told};
pub use pending::Pending;
