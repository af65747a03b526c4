//! The publisher.
ghost use Rattle.std.specs.Prelude.{◌≡◌, ◌≤◌, ◌<◌, ◌^◌, ◌+◌, ◌*◌, ◌++◌, ◌∷◌, [], length, map, replicate, All, IfOk, IsErr, MatchResult, OnErr, OnOk, ◌↔◌};
ghost use Rattle.std.specs.List.{AllZip};
ghost use Rattle.left_right.specs.Sides.{view};
ghost use Rattle.state_reader.specs.Commits.{value_after};
ghost use Rattle.state_reader.specs.Folds.{fold_at, folds_in};
ghost use Rattle.state_reader.specs.Lists.{shown_by_each, with_commit, MayHave};
ghost use Rattle.state_reader.specs.Pairs.{told_by_each};
ghost use Rattle.state_reader.specs.Publishers.{answering_folds, list_of, lists_of, IsLive, IsOver};
ghost use Rattle.state_reader.specs.Readers.{left_in, told_list, IsNewReader};
ghost use Rattle.state_reader.specs.Views.{newcomer};

use crate::folds::Folds;
use crate::handles::{Publisher, Readers, ToldCommits};
use crate::rule::StoreReader;
use crate::sides::Pair;
use crate::store::Seen;
use std::alloc::{AllocError, Global};
use std::sync::Wait;
use tree_model::storm_values::Memory;
use tree_model::topology_plan::Plan;
use tree_model::{Write, Writes};

impl Publisher {
    /// A publisher of a plan's commits before any commit, and its readers.
    pub fn new<R: Wait>(
        alloc: Global,
        rt: &R,
        plan: &Plan,
        readers: u32,
    ) -> Result<(Publisher, Readers), Memory>
        requires { (1 ≤ readers) × (readers ≤ 16) }
        ensures lists { IfOk result (λ made. lists_of made.0 ≡ replicate readers []) }
        ensures live { IfOk result (λ made. IsLive made.0) }
        ensures folds { IfOk result (λ made. answering_folds made.0 ≡ folds_in plan.now) }
        ensures count { IfOk result (λ made. length (left_in made.1) ≡ readers) }
        ensures readers { IfOk result (λ made. All (IsNewReader plan.now) (left_in made.1)) }
    {
        let folds = Folds::of_plan(alloc, plan)?;
        let (first, eye) = Pair::new(alloc, rt, places_for(readers))?;
        let mut publisher = Publisher {
            folds,
            first,
            others: Vec::new(alloc),
            txid: 0,
            failed: false,
        };
        match publisher.add_readers(alloc, rt, plan, eye, readers) {
            Ok(made) => Ok((publisher, made)),
            Err(failed) => {
                publisher.end(rt);
                Err(failed)
            }
        }
    }

    /// Shows one more commit to all readers. It waits for readers to leave. Without memory some of
    /// them may have the commit, and every later call answers the same.
    pub fn publish<R: Wait>(&mut self, rt: &R, txid: u64, writes: &Writes) -> Result<(), Memory>
        requires { txid ≡ length (list_of self.old) + 1 }
        ensures list { MatchResult result
            (λ _. list_of self.new ≡ with_commit writes.now (list_of self.old))
            (λ _. list_of self.new ≡ list_of self.old) }
        ensures all { OnOk result
            (lists_of self.new ≡ map (with_commit writes.now) (lists_of self.old)) }
        ensures each { AllZip (MayHave writes.now) (lists_of self.old) (lists_of self.new) }
        ensures live { OnOk result (IsLive self.new) }
        ensures over { OnErr result (IsOver self.new) }
        ensures stays_over { IsOver self.old → IsErr result }
        ensures kept_over { IsOver self.old → lists_of self.new ≡ lists_of self.old }
        ensures folds { answering_folds self.new ≡ answering_folds self.old }
    {
        if self.failed {
            return Err(AllocError);
        }
        self.failed = true;
        publish_all(rt, &mut self.others, writes.as_slice())?;
        self.first.publish(rt, writes.as_slice())?;
        self.txid = txid;
        self.failed = false;
        Ok(())
    }

    /// Names the commits that were published to all readers. There may be no place for it where
    /// many were told that did not read since.
    pub fn tell(&mut self) -> Result<ToldCommits, Memory>
        ensures told { IfOk result (λ told. told_list told ≡ list_of self.old) }
        ensures lists { lists_of self.new ≡ lists_of self.old }
        ensures over { IsOver self.new ↔ IsOver self.old }
        ensures folds { answering_folds self.new ≡ answering_folds self.old }
    {
        let first = self.first.tell()?;
        let others = tell_all(&mut self.others)?;
        Ok(ToldCommits { first, others })
    }

    /// The number of commits, and the value of a key of a state after them. A component number that
    /// is no state's has no value.
    pub fn latest(&self, state: u32, key: &str) -> Seen
        ensures commits { result.commits ≡ length (list_of self.now) }
        ensures value { result.value
            ≡ value_after (fold_at (answering_folds self.now) state) (list_of self.now) state
            key.now }
    {
        self.first.latest(self.folds.of_state(state), state, key)
    }

    /// Waits for the readers to leave. They read no more.
    pub fn end<R: Wait>(self, rt: &R) {
        let Publisher {
            folds: _,
            first,
            mut others,
            txid: _,
            failed: _,
        } = self;
        first.end(rt);
        while let Some(pair) = others.pop() {
            pair.end(rt);
        }
        others.destroy_empty();
    }

    /// Makes the other pairs, and the readers.
    fn add_readers<R: Wait>(
        &mut self,
        alloc: Global,
        rt: &R,
        plan: &Plan,
        eye: StoreReader,
        readers: u32,
    ) -> Result<Readers, Memory>
        requires few { (1 ≤ readers) × (readers ≤ 16) }
        requires lists { lists_of self.old ≡ [] ∷ [] }
        requires eye { view eye.place ≡ newcomer }
        ensures lists { OnOk result (lists_of self.new ≡ replicate readers []) }
        ensures live { IsLive self.old → IsLive self.new }
        ensures folds { answering_folds self.new ≡ answering_folds self.old }
        ensures count { IfOk result (λ made. length (left_in made) ≡ readers) }
        ensures readers { IfOk result (λ made. All (IsNewReader plan.now) (left_in made)) }
    {
        let mut made = Readers::new(alloc);
        made.add(alloc, plan, eye)?;
        for _ in 1..readers {
            let eye = self.add_pair(alloc, rt, places_for(readers))?;
            made.add(alloc, plan, eye)?;
        }
        Ok(made)
    }

    /// Makes one more pair before any commit.
    fn add_pair<R: Wait>(
        &mut self,
        alloc: Global,
        rt: &R,
        places: usize,
    ) -> Result<StoreReader, Memory>
        requires places { (0 < places) × (places < 2 ^ 32) }
        requires list { list_of self.old ≡ [] }
        ensures eye { IfOk result (λ eye. view eye.place ≡ newcomer) }
        ensures lists { OnOk result (lists_of self.new ≡ lists_of self.old ++ [] ∷ []) }
        ensures list { list_of self.new ≡ [] }
        ensures live { IsLive self.old → IsLive self.new }
        ensures folds { answering_folds self.new ≡ answering_folds self.old }
    {
        let (pair, eye) = Pair::new(alloc, rt, places)?;
        match self.others.push(pair) {
            Ok(()) => Ok(eye),
            Err(failed) => {
                failed.value.end(rt);
                Err(AllocError)
            }
        }
    }
}

/// So many readers of a pair may be there at a time: its own, what it learned last, and what each
/// reader may be told twice.
fn places_for(readers: u32) -> usize
    requires { readers ≤ 16 }
    ensures { result ≡ 2 * readers + 2 }
{
    2 * readers as usize + 2
}

/// Shows a commit by each pair, in order.
fn publish_all<R: Wait>(rt: &R, pairs: &mut Vec<Pair>, commit: &[Write]) -> Result<(), Memory>
    ensures all { OnOk result (shown_by_each pairs.new.items
        ≡ map (with_commit commit.now) (shown_by_each pairs.old.items)) }
    ensures each { AllZip (MayHave commit.now) (shown_by_each pairs.old.items)
        (shown_by_each pairs.new.items) }
{
    for place in 0..pairs.len() {
        pairs[place].publish(rt, commit)?;
    }
    Ok(())
}

/// A reader of each pair that was told what its pair shows.
fn tell_all(pairs: &mut Vec<Pair>) -> Result<Vec<StoreReader>, Memory>
    ensures same { shown_by_each pairs.new.items ≡ shown_by_each pairs.old.items }
    ensures told { IfOk result
        (λ notes. told_by_each notes.items ≡ shown_by_each pairs.old.items) }
{
    let mut notes = Vec::new(*pairs.allocator());
    for place in 0..pairs.len() {
        notes.push(pairs[place].tell()?)?;
    }
    Ok(notes)
}
