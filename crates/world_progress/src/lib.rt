//! Rounds of steps come to an end: a run of which nothing is lost commits every batch.
#![tactic(auto)]

mod laws;

pub use laws::{
    enough_rounds_finish, lasting_worlds_go_on, no_attempt_aborts_with_partitions,
    rounds_do_something, what_can_be_done_is_bounded, what_is_over_is_finished,
};
