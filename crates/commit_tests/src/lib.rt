//! Tests of turns of the coordinator and of outcomes of commits.
#![tactic(auto)]

#[cfg(test)]
mod partitions;
#[cfg(test)]
mod scenes;
#[cfg(test)]
mod starts;
#[cfg(test)]
mod turns;
#[cfg(test)]
mod values;
