// A follower that keeps what it is told, and fails at the commit of one transaction.
ghost use Rattle.std.specs.Prelude.{◌≡◌, ◌+◌, ◌++◌, ◌∷◌, [], Some, OnOk};
ghost use Rattle.event_worlds.specs.state_parts.declared.answer.Commit.{Commit};
ghost use Rattle.follow_tests.specs.Lines.{line_of};

use event_worlds::commit_order::Follow;
use event_worlds::record_spans::Spans;
use event_worlds::state_parts::Commit;
use event_worlds::storm_values::{Memory, Seq};
use std::alloc::Global;
use storm_stores::StoreFault;

/// What is kept of a commit: its transaction and its records.
#[derive(Debug, Drop)]
pub struct Line {
    pub txid: u64,
    pub spans: Spans,
}

/// It takes the transactions in their order, and fails at one of them, which it keeps or not.
#[derive(Debug, Drop)]
pub struct Listener {
    pub lines: Seq<Line>,
    pub last: u64,
    pub faults: u64,
    fails_at: u64,
    keeps: bool,
}

impl Listener {
    /// It was told nothing, and takes the transaction after this one. There is none of the number
    /// 0, so that one that fails there never does.
    pub fn new(alloc: Global, start: u64, fails_at: u64, keeps: bool) -> Self
        ensures takes { ⟦<Listener as Follow>⟧.takes result ≡ Some (start + 1) }
        ensures told { ⟦<Listener as Follow>⟧.tells result [] }
    {
        Listener {
            lines: Seq::new(alloc),
            last: start,
            faults: 0,
            fails_at,
            keeps,
        }
    }

    fn keep(&mut self, commit: &Commit) -> Result<(), Memory>
        ensures lines { OnOk result
            (self.new.lines ≡ self.old.lines ++ line_of commit.now ∷ []) }
        ensures last { OnOk result (self.new.last ≡ commit.now.root.txid) }
        ensures faults { self.new.faults ≡ self.old.faults }
    {
        self.lines.push(Line {
            txid: commit.root.txid,
            spans: commit.spans.copy()?,
        })?;
        self.last = commit.root.txid;
        Ok(())
    }
}

impl Follow for Listener {
    ghost use Rattle.std.specs.Prelude.{map};

    ghost tells = { λ f commits. f.lines ≡ map line_of commits };

    ghost takes = { λ f. Some (f.last + 1) };

    ghost fault_count = { λ f. f.faults };

    fn told(&mut self, commit: &Commit) -> Result<(), StoreFault> {
        let fails = commit.root.txid == self.fails_at;
        if !fails || self.keeps {
            self.keep(commit)?;
        }
        if fails {
            self.faults = self.faults.saturating_add(1);
            return Err(StoreFault::Failed);
        }
        Ok(())
    }
}
