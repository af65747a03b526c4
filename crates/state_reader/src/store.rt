//! The values after some commits, with the changes that made them.
ghost use Rattle.std.specs.Prelude.{◌≡◌, ◌++◌, ◌∷◌, ◌↔◌, [], IsTrue, length, OnErr, OnOk};
ghost use Rattle.state_reader.specs.Commits.{ends_in, value_by, writes_in};
ghost use Rattle.state_reader.specs.Kept.{AreTotals};
ghost use Rattle.state_reader.specs.Prefix.{StartsWith};
ghost use Rattle.state_reader.specs.declared.change.Change.TheVariants.{End, Write as Written};

use crate::change::Change;
use crate::totals::Totals;
use left_right::Absorb;
use std::alloc::{AllocError, Global};
use tree_model::Write;
use tree_model::storm_values::{Duplicate, Memory};
use tree_model::topology_plan::Fold;

/// What a reader saw: after how many commits, and the key's value then.
#[derive(Clone, Copy, Debug, PartialEq, Eq)]
pub struct Seen {
    pub commits: u64,
    pub value: Option<i128>,
}

/// The values after the changes of its log.
#[derive(Debug, Drop)]
pub struct Store {
    totals: Totals,
    commits: u64,
    log: Vec<Change>,
    ghost kept: { AreTotals (writes_in log.items) totals },
    ghost counted: { commits ≡ ends_in log.items },
}

impl Absorb<Change> for Store {
    // A clause reads an array as a list, of any length.
    type State = [Change; 0];

    ghost state = { λ store. store.log.items };

    ghost applied = { λ changes change. changes ++ change ∷ [] };

    fn absorb_first(&mut self, change: &Change, _other: &Store) -> Result<(), Memory> {
        match change {
            Change::Write(write) => self.write(write),
            Change::End => self.end(),
        }
    }
}

impl Store {
    /// A store without commits.
    pub fn new(alloc: Global) -> Self
        ensures { result.log.items ≡ [] }
    {
        Store {
            totals: Totals::new(alloc),
            commits: 0,
            log: Vec::new(alloc),
        }
    }

    /// How many commits there were, and the value of a key of a state after all writes.
    pub fn look(&self, by: Option<Fold>, state: u32, key: &str) -> Seen
        ensures commits { result.commits ≡ ends_in self.now.log.items }
        ensures value { result.value
            ≡ value_by by (writes_in self.now.log.items) state key.now }
    {
        Seen {
            commits: self.commits,
            value: match by {
                Some(by) => self.totals.value(by, state, key),
                None => None,
            },
        }
    }

    /// Whether its changes begin with those of the other. It takes time in the number of those.
    pub fn begins_with(&self, other: &Store) -> bool
        ensures { IsTrue result ↔ StartsWith self.now.log.items other.now.log.items }
    {
        starts_with(self.log.as_slice(), other.log.as_slice())
    }

    #[tactic(auto, using(crate::proofs::Commits::writes_more, crate::proofs::Commits::ends_more))]
    fn write(&mut self, write: &Write) -> Result<(), Memory>
        ensures ok { OnOk result
            (self.new.log.items ≡ self.old.log.items ++ Written write.now ∷ []) }
        ensures err { OnErr result (self.new.log.items ≡ self.old.log.items) }
    {
        let copy = write.copy()?;
        self.log.reserve(1)?;
        self.totals.add(write)?;
        self.log.push_reserved(Change::Write(copy));
        Ok(())
    }

    /// Ends a commit. There may be no number for one more.
    #[tactic(auto, using(crate::proofs::Commits::writes_end, crate::proofs::Commits::ends_end))]
    fn end(&mut self) -> Result<(), Memory>
        ensures ok { OnOk result (self.new.log.items ≡ self.old.log.items ++ End ∷ []) }
        ensures err { OnErr result (self.new.log.items ≡ self.old.log.items) }
    {
        let commits = self.commits.checked_add(1).ok_or(AllocError)?;
        self.log.push(Change::End)?;
        self.commits = commits;
        Ok(())
    }
}

fn starts_with(all: &[Change], first: &[Change]) -> bool
    ensures { IsTrue result ↔ StartsWith all.now first.now }
{
    if first.len() > all.len() {
        return false;
    }
    for place in 0..first.len() {
        if !all[place].is_same(&first[place]) {
            return false;
        }
    }
    true
}
