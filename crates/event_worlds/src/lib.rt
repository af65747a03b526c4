//! The world of tasks, ackers and the coordinator with their boxes: what each step does to it, and
//! what holds of every world.
//!
//! It passes on the crates that it stands on: a crate above names them through this one, and
//! lists this one alone.
#![tactic(auto)]

mod laws;

pub use bolt_task;
pub use commit_order;
pub use commit_order::{
    acker_core, attempt_fates, bolt_ops, commit_turns, commit_writes, counted_items,
    output_collector, record_offers, record_spans, replay_pending, state_parts, storm_ids,
    storm_values, taken_records, topology_plan, tree_model, tuple_account, tuple_tickets,
};
pub use laws::{
    batches_have_no_more_nodes, coordinators_steps_lead_on_beside, ends_of_worlds_have_causes,
    partitions_are_shut_one_by_one, roots_begin_with_their_batches, settled_lists_are_whole,
    steps_add_to_histories, worlds_are_accounted, worlds_with_others_are_accounted,
};
