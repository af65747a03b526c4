//! Tests of runs and loads: their reports, each end of an attempt and of a run, and what is
//! refused.
#![tactic(auto)]

#[cfg(test)]
mod answers;
#[cfg(test)]
mod ends;
#[cfg(test)]
mod loads;
