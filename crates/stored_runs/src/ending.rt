use event_worlds::storm_values::Bytes;
use event_worlds::tree_model::Tables;

/// How a run over the stores of a maker ended.
#[derive(Debug, Drop)]
pub enum RunEnd {
    /// No record is left uncommitted, and these are the tables of the states.
    All(Tables),
    /// As many attempts of this transaction aborted as the plan allows.
    Exhausted(u64),
    /// Some record is left uncommitted after the schedule, and so many batches were committed in the
    /// run.
    Unfinished(u64),
    /// No record is left uncommitted, and a store failed when the tables were read.
    StoreFault,
    /// A store has a cell at this key that its part does not take, or the key is no text.
    BadCell(Bytes),
    /// A follower failed at the commit of this transaction, which was done.
    Follow(u64),
}
