//! The tables of records by consecutive pieces, which are made beside each other and then merged.
#![tactic(auto)]

mod entries;
mod fold;
mod laws;
mod piece;

pub use fold::fold_tables;
pub use laws::{tables_of_joined_writes, values_of_joined_amounts};
