//! A part of a state over a store that may refuse: commits of batches, the table of its values, and
//! its cells brought to the format that is written.
#![tactic(auto)]

mod commit;
mod fault;
mod group;
mod known;
mod migrate;
mod part;
mod plan;
mod scan;
mod table;

pub use cell_format::{Cell, CellFault, commits_move_parts_on, decode_cell, encode_cell};
pub use fault::PartFault;
pub use group::GroupedWrites;
pub use migrate::cells_are_brought_to_format_2;
pub use part::Part;
