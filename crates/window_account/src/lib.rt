//! The account of a window of records that are tracked one by one: what was begun, executed, noted
//! and called, depth by depth, and what follows at the end.
#![tactic(auto)]

mod laws;

pub use laws::{begun_records_stand, depths_follow, ended_windows_are_judged};
