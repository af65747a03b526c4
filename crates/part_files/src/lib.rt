//! Stores of cells over logs, which only grow: a line for each put, which a stop may cut short.
#![tactic(auto)]

mod cells;
mod laws;
mod lines;
mod log;
mod memory_log;
mod store;
mod system;

pub use laws::{a_cut_put_is_done_or_not, a_put_sets_its_key, keys_of_a_file_are_in_order};
pub use lines::{put_piece, read_cells};
pub use log::Log;
pub use memory_log::MemLog;
pub use store::PartStore;
pub use system::{FileLog, FileMaker, STATE_FOLDER};
