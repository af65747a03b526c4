//! Tests of attempts in flight, and of what an acker holds of them.
#![tactic(auto)]

#[cfg(test)]
mod attempts;
#[cfg(test)]
mod ledgers;
