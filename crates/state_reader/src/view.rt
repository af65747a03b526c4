//! What the writer of a pair and each of its readers know.
use std::collections::LinkedList;
use tree_model::Write;

/// No value of it is made: it stands in contracts.
pub struct View {
    /// The commits that it has seen.
    pub seen: LinkedList<LinkedList<Write>>,
    /// The commits that it was told of.
    pub told: LinkedList<LinkedList<Write>>,
}
