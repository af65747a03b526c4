//! Readers beside a run: a publisher shows commits, and readers answer values after them.
//!
//! Each reader has a pair of copies of its own, so that it never waits for another.
#![tactic(auto)]

mod calls;
mod change;
mod folds;
mod handles;
mod key_text;
mod laws;
mod pair;
mod publisher;
mod reader;
mod rule;
mod sides;
mod store;
mod totals;
mod view;

pub use handles::{Publisher, Reader, Readers, ToldCommits};
pub use laws::{earlier_books_begin_what_was_told, values_are_folds_of_writes};
pub use store::Seen;
