//! What the tests of states share: commits of a part over a store with given cells, of which a
//! call may fail, the tables of such parts, and cells brought to format 2.
#![tactic(auto)]

mod migrations;
mod scenes;
mod tables;

pub use migrations::{Answer, Format, Migration, Stored, check_migration};
pub use scenes::{End, Line, Scene, Step, Trouble, check, check_calls, check_each, check_failing};
pub use tables::{check_bad_table, check_other_kind, check_table, check_table_failing};
