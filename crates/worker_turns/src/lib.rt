//! What a caller does between stretches of workers: all that waits in boxes and outboxes comes,
//! each through its box, to the inbox that it is for.
#![tactic(auto)]

mod runs;
mod sweeping;

pub use sweeping::sweep;
