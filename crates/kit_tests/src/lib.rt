//! Tests of what other crates of tests share.
#![tactic(auto)]

#[cfg(test)]
mod lines;
#[cfg(test)]
mod texts;
