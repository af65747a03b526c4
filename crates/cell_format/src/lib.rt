//! The cells of a state's keys: their bytes, what a commit makes of them, and when they stand at a
//! number of commits.
#![tactic(auto)]

mod cell;
mod codec;
mod commit;
mod laws;

pub use cell::{Cell, CellFault};
pub use codec::{CELL_BYTES, decode_cell, encode_cell};
pub use commit::{cell_for, change};
pub use laws::{bytes_tell_cells_apart, commits_move_parts_on, opaque_cells_have_the_attempt};
