//! Tests of the boxes of a plan, and of rows of passes to them.
#![tactic(auto)]

#[cfg(test)]
mod mails;
#[cfg(test)]
mod rows;
