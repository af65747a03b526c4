//! Tests of what collectors emit and tasks execute in the plans of topology files.
#![tactic(auto)]

#[cfg(test)]
mod calls;
#[cfg(test)]
mod emits;
#[cfg(test)]
mod executes;
