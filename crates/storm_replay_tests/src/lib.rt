//! Tests of replays of given schedules: their reports, each end, and what is refused.
#![tactic(auto)]

#[cfg(test)]
mod keys;
#[cfg(test)]
mod partitions;
#[cfg(test)]
mod refusals;
#[cfg(test)]
mod reports;
#[cfg(test)]
mod stores;
