use message_lists::Notes;
use tree_model::storm_values::{Path, Root};

/// What an acker tells of a root.
#[derive(Debug, Drop)]
pub enum Verdict {
    /// The init came, no fail, and the XOR of all ids is 0. The list has all messages since the
    /// entry of the root began, in order.
    Complete { root: Root, list: Notes },
    /// The init and a fail came. The path is that of the first one that failed.
    Fails { root: Root, path: Path },
}
