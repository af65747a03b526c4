//! The account of tuples: what was begun, executed, met, told and heard, whatever the order, and
//! what follows of it for each tuple, list, verdict and id. What begun roots and executed tuples
//! issue, and the laws of tickets read off for it, come first.
//!
//! A driver shows of each of its steps that it moves what waits, what ackers keep and what sources
//! gave. Moves add up, one after another and side by side, so all that is said here holds of any
//! schedule.
//!
//! It passes on the crates that it stands on: a crate above names them through this one, and
//! lists this one alone.
#![tactic(auto)]

mod ends;
mod issued;
mod laws;
mod moves;
mod stretches;

pub use acker_core;
pub use ends::{accounts_fit_at_first, ends_have_causes, pending_attempts_are_settled};
pub use issued::{
    issued_lists_are_sound, lists_of_all_notes_cover, roots_have_few_tuples,
    tuples_grow_along_trees,
};
pub use laws::{
    each_root_has_one_verdict, ids_are_drawn_once, lists_are_sound, packets_are_routed,
    stuck_roots_were_told, tuples_are_issued_once, verdicts_have_causes, words_given_are_few,
};
pub use message_lists;
pub use moves::{moves_add_up, reached_goes_on, work_moves};
pub use rotating_ledger;
pub use stretches::{
    books_tell_by_box, sources_add_up, stretches_are_moves, stretches_stay_gathered, works_add_up,
};
pub use tree_model;
pub use tree_model::{bolt_ops, counted_items, storm_values, topology_plan, tuple_tickets};
