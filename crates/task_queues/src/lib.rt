//! Bounded boxes that threads share. What is true of every message stays true of what is taken, and
//! each pass keeps books of what it sent and took, under a rule that holds between any two steps.
#![tactic(auto)]

mod mailbox;
mod pass;
mod rule;

pub use pass::{Mailbox, Pass, Rest};
pub use rule::{Book, Stamped, Truth, View};
