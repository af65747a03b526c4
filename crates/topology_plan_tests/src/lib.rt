//! Tests of the plans of valid topology files, of large files and their weights, and of what `load`
//! runs.
#![tactic(auto)]

#[cfg(test)]
mod described;
#[cfg(test)]
mod large;
#[cfg(test)]
mod loads;
#[cfg(test)]
mod plans;
