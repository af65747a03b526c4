use tree_model::storm_values::Rows;
use tree_model::{Tuple, Write};

/// What an attempt at a tuple came to.
#[derive(Drop)]
pub(crate) enum Found {
    /// It was not executed yet.
    Waits,
    /// There was no memory for it.
    NoMemory,
    Rows(Rows),
    Wrote(Write),
    Failed,
    Mute,
}

/// A tuple, and what an attempt at it came to.
#[derive(Drop)]
pub(crate) struct Job {
    pub(crate) tuple: Tuple,
    pub(crate) found: Found,
}

/// A call at a ledger.
#[derive(Clone, Copy)]
pub(crate) enum Act {
    /// The root and the word.
    Ack(u32, u64),
    Fail(u32),
}
