//! The grammar of reports: their lines, which of them are well formed, and why each has one text.
#![tactic(auto)]

mod laws;

pub use laws::reports_have_texts_of_their_own;
