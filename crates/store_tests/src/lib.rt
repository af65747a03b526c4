//! Tests of the stores in memory, and of what makes them.
#![tactic(auto)]

#[cfg(test)]
mod calls;
#[cfg(test)]
mod faults;
#[cfg(test)]
mod keys;
#[cfg(test)]
mod makers;
