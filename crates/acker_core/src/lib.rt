//! The acker of tuple trees, and the check of a list of messages.
#![tactic(auto)]

mod acker;
mod check;
mod entry;
mod follow;
mod laws;
mod placing;
mod sorted;
mod verdict;

pub use acker::Acker;
pub use check::{Check, check_list};
pub use follow::followed_order;
pub use laws::{
    complete_verdicts_cover, entries_go_by_their_roots, undisturbed_roots_complete,
    young_roots_are_undisturbed,
};
pub use verdict::Verdict;
