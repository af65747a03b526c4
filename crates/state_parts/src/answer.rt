ghost use Rattle.std.specs.Prelude.{◌≡◌, false, None, Some};
ghost use Rattle.std.specs.Option.{option_or};
ghost use Rattle.state_parts.specs.declared.answer.CommitFault.TheVariants as fault;
ghost use Rattle.state_parts.specs.Answers.{joined, noted};
ghost use Rattle.state_parts.specs.Commits.{answer_of};

use record_spans::Spans;
use state_cells::PartFault;
use thiserror::Error;
use tree_model::PackedWrites;
use tree_model::storm_values::{Bytes, Memory, Root};

/// The commit of an attempt of a batch, with the spans of its records and the writes of the batch
/// for all parts, in their order.
#[derive(Debug, Drop)]
pub struct Commit {
    pub root: Root,
    pub spans: Spans,
    pub writes: PackedWrites,
}

/// What came of a commit.
#[derive(Clone, Copy, Debug, PartialEq, Eq)]
pub enum CommitOutcome {
    /// Every part is committed.
    Done,
    /// The store of this part of a state failed; its count of faults was `before` and is `after`.
    Failed {
        component: u32,
        part: u32,
        before: u64,
        after: u64,
    },
}

/// Why a commit has no outcome.
#[derive(Debug, Drop, Error)]
pub enum CommitFault {
    /// A store has a cell at this key that its part does not take.
    #[error("a store has a bad cell")]
    BadCell(Bytes),
    #[error("out of memory")]
    Memory,
}

impl From<Memory> for CommitFault {
    ghost from_gives = { λ _ e. e ≡ fault.Memory };

    fn from(_: Memory) -> Self {
        CommitFault::Memory
    }
}

/// What the parts answered so far, the first of each kind.
#[derive(Debug, Drop)]
pub(crate) struct Tally {
    pub no_memory: bool,
    pub bad: Option<Bytes>,
    pub failed: Option<CommitOutcome>,
}

fn keep_first<X: Drop>(first: &mut Option<X>, found: X)
    ensures { first.new ≡ option_or first.old (Some found) }
{
    if first.is_none() {
        *first = Some(found);
    }
}

impl Tally {
    pub fn new() -> Self
        ensures { result ≡ record { no_memory = false; bad = None; failed = None } }
    {
        Tally {
            no_memory: false,
            bad: None,
            failed: None,
        }
    }

    /// Notes what a part answered, with its failure in case its store failed.
    pub fn note(&mut self, answer: Result<(), PartFault>, failure: CommitOutcome)
        ensures { self.new ≡ noted self.old answer failure }
    {
        match answer {
            Ok(()) => {}
            Err(PartFault::Store) => keep_first(&mut self.failed, failure),
            Err(PartFault::BadCell(key)) => keep_first(&mut self.bad, key),
            Err(PartFault::Memory) => self.no_memory = true,
        }
    }

    /// Adds what parts behind these ones answered.
    pub fn join(self, later: Tally) -> Tally
        ensures { result ≡ joined self later }
    {
        Tally {
            no_memory: self.no_memory || later.no_memory,
            bad: self.bad.or(later.bad),
            failed: self.failed.or(later.failed),
        }
    }

    /// The answer of all: want of memory goes first, then a bad cell, then a failed store.
    pub fn answer(self) -> Result<CommitOutcome, CommitFault>
        ensures { result ≡ answer_of self }
    {
        if self.no_memory {
            return Err(CommitFault::Memory);
        }
        match self.bad {
            Some(key) => Err(CommitFault::BadCell(key)),
            None => Ok(self.failed.unwrap_or(CommitOutcome::Done)),
        }
    }
}
