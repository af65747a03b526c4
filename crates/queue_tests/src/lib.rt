//! Tests of boxes that threads share.
#![tactic(auto)]

#[cfg(test)]
mod alone;
#[cfg(test)]
mod boxes;
#[cfg(test)]
mod together;
