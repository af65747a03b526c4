//! Readers, and what they are told.
ghost use Rattle.std.specs.Prelude.{◌≡◌, ◌↔◌, ◌+◌, ◌++◌, [], length, All, IsNone, OnOk};
ghost use Rattle.std.specs.Option.{option_to_list};
ghost use Rattle.left_right.specs.Sides.{view};
ghost use Rattle.state_reader.specs.Commits.{value_after};
ghost use Rattle.state_reader.specs.Folds.{fold_at, folds_in};
ghost use Rattle.state_reader.specs.Pairs.{told_in};
ghost use Rattle.state_reader.specs.Readers.{book_of, folds_of, learned_by, left_in, told_list, IsNewReader};
ghost use Rattle.state_reader.specs.Views.{newcomer, Begins};

use crate::calls::{read, read_told};
use crate::folds::Folds;
use crate::handles::{Reader, Readers, ToldCommits};
use crate::rule::StoreReader;
use crate::store::Seen;
use std::alloc::Global;
use std::sync::Wait;
use tree_model::storm_values::Memory;
use tree_model::topology_plan::{Fold, Plan};

impl Readers {
    /// No readers.
    pub(crate) fn new(alloc: Global) -> Self
        ensures { left_in result ≡ [] }
    {
        Readers {
            list: Vec::new(alloc),
        }
    }

    /// Adds a reader that has read nothing.
    pub(crate) fn add(&mut self, alloc: Global, plan: &Plan, eye: StoreReader) -> Result<(), Memory>
        requires { view eye.place ≡ newcomer }
        ensures count { OnOk result (length (left_in self.new) ≡ length (left_in self.old) + 1) }
        ensures readers { OnOk result (All (IsNewReader plan.now) (left_in self.old)
            → All (IsNewReader plan.now) (left_in self.new)) }
    {
        let reader = Reader {
            number: self.list.len(),
            folds: Folds::of_plan(alloc, plan)?,
            eye: Some(eye),
            note: None,
        };
        self.list.push(reader)?;
        Ok(())
    }

    /// Hands out a reader. There is none where all are handed out.
    pub fn pop(&mut self) -> Option<Reader>
        ensures one { left_in self.old ≡ left_in self.new ++ option_to_list result }
        ensures none { IsNone result ↔ (left_in self.old ≡ []) }
    {
        self.list.pop()
    }
}

impl Reader {
    /// After how many commits this is, and the value of a key of a state then. A component number
    /// that is no state's has no value. It does not return where the publisher was ended, or where
    /// another publisher's commits were learned. The first call after a `learn` takes time in the
    /// number of all writes.
    pub fn get<R: Wait>(&mut self, rt: &R, state: u32, key: &str) -> Seen
        ensures book { Begins (book_of self.old) (book_of self.new) }
        ensures learned { Begins (learned_by self.old) (book_of self.new) }
        ensures commits { result.commits ≡ length (book_of self.new) }
        ensures value { result.value
            ≡ value_after (fold_at (folds_of self.new) state) (book_of self.new) state key.now }
        ensures folds { folds_of self.new ≡ folds_of self.old }
    {
        let by = self.folds.of_state(state);
        let eye = self.eye.take().unwrap();
        let (seen, eye) = read_either(rt, eye, self.note.take(), by, state, key);
        self.eye = Some(eye);
        seen
    }

    /// Learns what the publisher of this reader told. After the next `get` that is a prefix of the
    /// book. Where no `get` comes between two calls, the later one stands for both.
    pub fn learn(&mut self, told: ToldCommits)
        ensures learned { Begins (told_list told) (learned_by self.new) }
        ensures book { book_of self.new ≡ book_of self.old }
        ensures folds { folds_of self.new ≡ folds_of self.old }
    {
        self.note = Some(told.of_pair(self.number));
    }
}

impl ToldCommits {
    /// The reader of a pair, or of the first where there is no such pair.
    fn of_pair(self, number: usize) -> StoreReader
        ensures { Begins (told_list self) (view result.place).told }
    {
        let ToldCommits { first, mut others } = self;
        if number == 0 || number > others.len() {
            return first;
        }
        others.swap_remove(number - 1)
    }
}

/// Reads by the reader that was told, if there is one.
fn read_either<R: Wait>(
    rt: &R,
    eye: StoreReader,
    note: Option<StoreReader>,
    by: Option<Fold>,
    state: u32,
    key: &str,
) -> (Seen, StoreReader)
    ensures book { Begins (view eye.place).seen (view result.1.place).seen }
    ensures told { Begins (told_in note) (view result.1.place).seen }
    ensures commits { result.0.commits ≡ length (view result.1.place).seen }
    ensures value { result.0.value
        ≡ value_after by (view result.1.place).seen state key.now }
{
    match note {
        None => read(rt, eye, by, state, key),
        Some(note) => read_told(rt, eye, note, by, state, key),
    }
}
