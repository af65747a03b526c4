//! A follower of commits that keeps, after each of them, the meta from which a later run goes on.
#![tactic(auto)]

mod joining;
mod kept;
mod laws;

pub use kept::KeptCommits;
pub use laws::{kept_texts_are_unique, loads_go_on, separate_spans_are_unique};
