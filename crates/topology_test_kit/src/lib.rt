//! What the tests of topology files share: valid files, changes of them, and what the reader tells.
#![tactic(auto)]

mod checks;
mod reading;

pub use checks::{
    FILE, PARTITIONED, check_changes, check_changes_of, check_operations, check_pairs,
    check_pairs_of, full_file,
};
pub use reading::{check_told, told};
