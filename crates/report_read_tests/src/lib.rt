//! Tests of reports that are read and printed again, and of those that are refused.
#![tactic(auto)]

#[cfg(test)]
mod by_hand;
#[cfg(test)]
mod cut;
#[cfg(test)]
mod examples;
#[cfg(test)]
mod read;
#[cfg(test)]
mod refused;
