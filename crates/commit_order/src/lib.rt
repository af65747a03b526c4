//! The coordinator of batches: which attempts begin, which are settled, and in which order they are
//! committed.
//!
//! It passes on the crates that it stands on: a crate above names them through this one, and
//! lists this one alone.
#![tactic(auto)]

mod begins;
mod commits;
mod coordinator;
mod drops;
mod ends;
mod follow;
mod hear;
mod office;
mod rows;
mod settled;
mod stop;
mod ticks;
mod writes;

pub use attempt_fates;
pub use attempt_fates::{Attempt, End, Fates};
pub use commit_turns;
pub use commit_writes;
pub use coordinator::{Coordinator, Orders};
pub use follow::{Follow, NoFollow};
pub use output_collector;
pub use record_offers;
pub use record_offers::Offers;
pub use record_spans;
pub use replay_pending;
pub use state_parts;
pub use state_parts::{Commit, CommitOutcome, Parts};
pub use stop::Stop;
pub use storm_ids;
pub use taken_records;
pub use tuple_account;
pub use tuple_account::{
    acker_core, bolt_ops, counted_items, message_lists, rotating_ledger, storm_values,
    topology_plan, tree_model, tuple_tickets,
};
