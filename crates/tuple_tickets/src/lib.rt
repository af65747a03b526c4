//! Tuple trees by tickets: what a list of messages about a tree says, and why acks by XOR are
//! right.
//!
//! A ticket is a tuple of which a node and an edge are known. Trees are given by how they grow, so
//! that everything here holds of any topology.
#![tactic(auto)]

mod edge;
mod laws;

pub use edge::{Edge, Edges, edge_order_is_total};
pub use laws::{
    closed_lists_cover, complete_lists_cover, covering_lists_are_closed, issued_lists_are_sound,
    lists_of_all_notes_cover, roots_have_few_tickets, tickets_grow_along_trees,
    what_does_not_cancel_does_not_coincide, words_are_of_open_edges,
};
