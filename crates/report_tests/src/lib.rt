//! Tests of whole reports, of every end of an attempt and every end of a run.
#![tactic(auto)]

#[cfg(test)]
mod ends;
#[cfg(test)]
mod reports;
