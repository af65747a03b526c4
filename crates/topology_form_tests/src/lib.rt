//! Tests of the form of topology files: each fault of a member, a name, a word, a
//! range and an operation.
#![tactic(auto)]

#[cfg(test)]
mod form;
#[cfg(test)]
mod members;
#[cfg(test)]
mod operations;
