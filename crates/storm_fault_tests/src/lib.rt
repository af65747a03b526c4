//! Tests of calls where a call to the outside fails, or gives and takes little.
#![tactic(auto)]

#[cfg(test)]
mod faults;
#[cfg(test)]
mod stores;
