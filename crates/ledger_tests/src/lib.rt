//! Two threads that ack a root beside one another, and tests of a shared ledger: calls as tables,
//! and workers with a seat each. Tests of a board of ticks.
#![tactic(auto)]

#[cfg(test)]
mod boards;
mod both;
#[cfg(test)]
mod steps;
#[cfg(test)]
mod tables;
#[cfg(test)]
mod workers;

pub use both::{ack_both, word_after_both};
