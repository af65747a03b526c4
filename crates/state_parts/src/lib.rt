//! The parts of all states of a topology over a maker of stores: commits of batches to all of them,
//! the tables of the states, and cells brought to the format that is written.
#![tactic(auto)]

mod answer;
mod beside;
mod commit;
mod give;
mod laws;
mod make;
mod migrate;
mod parts;
mod split;
mod tables;

pub use answer::{Commit, CommitFault, CommitOutcome};
pub use laws::{
    commits_move_all_parts_on, parts_over_empty_stores_begin, tables_of_parts_are_tables_of_writes,
    writes_of_trees_are_placed,
};
pub use migrate::parts_with_the_same_cells_stand;
pub use parts::Parts;
