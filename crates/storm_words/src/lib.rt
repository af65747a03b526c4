//! The words of the command line: which command they are, by a parser with a subcommand for each.
#![tactic(auto)]

mod parser;
mod words;

pub use words::{Command, USAGE, read_words};
