//! Tests of the metas that are kept of commits.
#![tactic(auto)]

#[cfg(test)]
mod runs;
#[cfg(test)]
mod steps;
#[cfg(test)]
mod trouble;
