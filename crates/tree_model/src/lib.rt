//! The tuple trees of records, what their state nodes write, and the tables of the states.
//!
//! It passes on the crates that it stands on: a crate above names them through this one, and
//! lists this one alone.
#![tactic(auto)]

mod fold;
mod laws;
mod messages;
mod packed;
mod plain;
mod running;
mod tree;
mod write;

pub use bolt_ops;
pub use counted_items;
pub use fold::fold_amount;
pub use laws::{
    children_are_made_of_rows, nodes_of_joined_rows, paths_lead_to_children,
    rows_of_nodes_are_within_limits, tables_are_one, true_lists_say_what_is_true,
    writes_of_joined_rows, writes_stand_in_path_order,
};
pub use messages::{AckMsg, Done, Draw, FailNote, Init, Parcel, Parcels, Tuple};
pub use packed::{LentWrite, PackedWrites};
pub use plain::{count_nodes, plain_tables};
pub use storm_values;
pub use topology_plan;
pub use tuple_tickets;
pub use tuple_tickets::{Edge, Edges};
pub use write::{Pair, Pairs, Table, Tables, Write, Writes, write_at, writes_of};
