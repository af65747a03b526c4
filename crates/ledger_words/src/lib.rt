//! What the words of a shared ledger say of tuple trees, where a book has the calls that stand for
//! an acker's messages.
#![tactic(auto)]

mod laws;

pub use laws::{words_of_notes, zero_words_cover};
