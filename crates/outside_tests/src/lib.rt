//! Tests of files, outputs, ids and ticks.
#![tactic(auto)]

#[cfg(test)]
mod files;
#[cfg(test)]
mod ids;
#[cfg(test)]
mod ticks;
