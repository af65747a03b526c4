//! What tests of several crates share: why a test fails, a comparison, a text with a part
//! changed, a table's columns, and a text without some lines.
#![tactic(auto)]

mod mismatch;
mod texts;

pub use mismatch::{Mismatch, compare};
pub use texts::{changed, columns, lines_without};
