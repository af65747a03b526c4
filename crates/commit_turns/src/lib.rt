//! What a turn of the coordinator does, as functions of what it knows, and what follows of them.
#![tactic(auto)]

mod laws;
mod wait;

pub use laws::{
    accounts_stay_fit, desks_are_kept, finished_runs_are_whole, lowest_is_pending,
    orders_are_decided, turns_fill_up,
};
pub use wait::Wait;
