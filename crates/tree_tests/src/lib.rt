//! Tests of what the tuple trees of a topology file write, and of the edges and messages that follow
//! tuples.
#![tactic(auto)]

#[cfg(test)]
mod copies;
#[cfg(test)]
mod edges;
#[cfg(test)]
mod folds;
#[cfg(test)]
mod trees;
