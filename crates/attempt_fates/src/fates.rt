use message_lists::Notes;
use record_spans::Spans;
use tree_model::storm_values::{Path, Root, Seq};

/// How an attempt of a batch ended.
#[derive(Debug, Drop)]
pub enum End {
    /// Its batch was committed. The list is what its acker was told of its tuples.
    Committed(Notes),
    /// A tuple at this path was the first that its acker was told to have failed.
    Failed(Path),
    /// It was not settled as many ticks after its begin as there are buckets.
    TimedOut,
    /// Its acker's word was 0, and this list leaves edges open: their ids coincide.
    Coincided(Notes),
    /// The store of this part of a state failed in its commit; its count of faults was `before` and
    /// is `after`.
    CommitFailed {
        component: u32,
        part: u32,
        before: u64,
        after: u64,
    },
    /// An attempt of a lower transaction, this one, ended without a commit, and the records of its
    /// batch came back.
    Dropped(Root),
}

/// One attempt of one batch. Its records are those of its spans, counted from 1, and ticks are the
/// coordinator's.
#[derive(Debug, Drop)]
pub struct Attempt {
    pub root: Root,
    pub spans: Spans,
    pub start: u64,
    pub finish: u64,
    pub end: End,
}

/// The attempts of a run, in the order of their ends.
pub type Fates = Seq<Attempt>;
