//! What a publisher does with each pair.
ghost use Rattle.std.specs.Prelude.{◌≡◌, ◌<◌, ◌^◌, ◌++◌, ◌∷◌, [], length, IfOk, MatchResult};
ghost use Rattle.left_right.specs.Sides.{view};
ghost use Rattle.state_reader.specs.Commits.{value_after};
ghost use Rattle.state_reader.specs.Lists.{shown_by};
ghost use Rattle.state_reader.specs.Views.{newcomer};

use crate::calls::{latest, open, publish, tell};
use crate::rule::StoreReader;
use crate::sides::Pair;
use crate::store::Seen;
use std::alloc::{AllocError, Global};
use std::mem::replace;
use std::sync::Wait;
use tree_model::Write;
use tree_model::storm_values::Memory;
use tree_model::topology_plan::Fold;

impl Pair {
    /// A pair before any commit, with its reader.
    pub fn new<R: Wait>(alloc: Global, rt: &R, places: usize) -> Result<(Pair, StoreReader), Memory>
        requires { (0 < places) × (places < 2 ^ 32) }
        ensures list { IfOk result (λ made. shown_by made.0 ≡ []) }
        ensures reader { IfOk result (λ made. view made.1.place ≡ newcomer) }
    {
        let (writer, reader) = open(alloc, rt, places)?;
        let pair = Pair {
            writer: Some(writer),
            failed: false,
        };
        Ok((pair, reader))
    }

    /// Shows one more commit. It waits for the reader to leave.
    pub fn publish<R: Wait>(&mut self, rt: &R, commit: &[Write]) -> Result<(), Memory>
        ensures { MatchResult result
            (λ _. shown_by self.new ≡ shown_by self.old ++ commit.now ∷ [])
            (λ _. shown_by self.new ≡ shown_by self.old) }
    {
        if self.failed {
            return Err(AllocError);
        }
        self.failed = true;
        let (writer, answer) = publish(rt, self.writer.take().unwrap(), commit);
        self.failed = answer.is_err();
        let old = replace(&mut self.writer, Some(writer));
        let None = old else { unreachable!() };
        answer
    }

    /// A reader that was told what is shown. There may be no place for it.
    pub fn tell(&mut self) -> Result<StoreReader, Memory>
        ensures same { shown_by self.new ≡ shown_by self.old }
        ensures told { IfOk result (λ note. (view note.place).told ≡ shown_by self.old) }
    {
        let mut writer = self.writer.take().unwrap();
        let answer = tell(&mut writer);
        let old = replace(&mut self.writer, Some(writer));
        let None = old else { unreachable!() };
        answer
    }

    /// What the commits come to that are shown.
    pub fn latest(&self, by: Option<Fold>, state: u32, key: &str) -> Seen
        ensures commits { result.commits ≡ length (shown_by self.now) }
        ensures value { result.value ≡ value_after by (shown_by self.now) state key.now }
    {
        latest(self.writer.as_ref().unwrap(), by, state, key)
    }

    /// Waits for the reader to leave.
    pub fn end<R: Wait>(self, rt: &R) {
        let Pair { writer, failed: _ } = self;
        writer.unwrap().take(rt);
    }
}
