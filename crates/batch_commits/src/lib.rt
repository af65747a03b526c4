//! What the commits of batches make of the parts of all states: they stand at the batches that were
//! committed.
#![tactic(auto)]

mod laws;

pub use laws::{
    all_batches_hold_all_records, commits_of_batches_move_parts, counts_run_on,
    failures_of_commits_are_counted, next_commits_are_of_the_next_batch,
    parts_that_stand_have_the_tables, strange_cells_were_there,
};
