//! Storm's `OutputCollector`: it emits the rows of one source as tuples of a tree, anchored below
//! the tuple that they are made of.
#![tactic(auto)]

mod collector;
mod laws;
mod outlet;

pub use collector::{Collector, Emitted};
pub use laws::{
    emitted_tuples_go_to_their_components, emitted_tuples_have_tasks, start_words_are_few,
};
