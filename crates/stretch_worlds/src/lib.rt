//! What a stretch of work, in which tasks and ackers do as they come to it, leads to from a world,
//! whatever its order.
#![tactic(auto)]

mod laws;

pub use laws::{executions_fit, nothing_is_held_up, stretches_lead_on, turns_of_tasks_lead_on};
