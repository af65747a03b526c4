use record_spans::Spans;
use storm_values::{Path, Root, Seq, Txt};
use tuple_tickets::Edges;

/// How an attempt ended. A path, and the edges of a collision, come as a report prints them.
#[derive(Drop)]
pub enum EndLine {
    Committed,
    Failed(Path),
    TimedOut,
    Coincided(Edges),
    /// The state and the part that refused the commit.
    CommitFailed(Txt, u32),
    /// The attempt of a lower transaction that ended without a commit.
    Dropped(Root),
}

/// The end of an attempt of a batch. Its records are those of its spans, and ticks are the first
/// and the last.
#[derive(Drop)]
pub struct AttemptLine {
    pub root: Root,
    pub spans: Spans,
    pub start: u64,
    pub finish: u64,
    pub end: EndLine,
}

/// The value of a key of a state.
#[derive(Drop)]
pub struct CellLine {
    pub state: Txt,
    pub key: Txt,
    pub value: i128,
}

/// How a run ended.
#[derive(Clone, Copy, Debug, PartialEq, Eq)]
pub enum Tail {
    /// All records were committed, in so many batches.
    Ok { records: u64, batches: u64 },
    /// No attempt is left of this transaction.
    Exhausted(u64),
    /// It was broken off after so many commits.
    Unfinished(u64),
}

/// The ends of attempts, in their order.
pub type AttemptLines = Seq<AttemptLine>;

/// The cells of the tables.
pub type CellLines = Seq<CellLine>;

/// What a run tells: the ends of its attempts, its tables where all was committed, and how it
/// ended.
#[derive(Drop)]
pub struct Report {
    pub lines: AttemptLines,
    pub cells: CellLines,
    pub tail: Tail,
}

/// A line of a report.
#[derive(Drop)]
pub(crate) enum Line {
    Attempt(AttemptLine),
    Cell(CellLine),
    Tail(Tail),
}
