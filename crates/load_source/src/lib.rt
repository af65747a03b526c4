//! What `load` runs: the topology of the word count, and records that two numbers make.
#![tactic(auto)]

mod laws;
mod records;
mod topology;

pub use laws::{load_file_is_fit, load_records_are_rows};
pub use records::load_records;
pub use topology::load_plan;
