//! The tables of a piece of the records, as they grow.
ghost use Rattle.std.specs.Prelude.{◌≡◌, ◌<◌, ◌∷◌, [], ◌++◌, ℕ, List, length, IfOk, OnOk};
ghost use Rattle.std.specs.Int.{w64};
ghost use Rattle.std.specs.Int.RustNames.{FitsSigned};
ghost use Rattle.tree_model.specs.bolt_ops.RowOp.{Custom};
ghost use Rattle.tree_model.specs.declared.write.Write.{Write};
ghost use Rattle.tree_model.specs.Inside.{entries_of};
ghost use Rattle.tree_model.specs.Tables.{AddsTable, AreRunningTables, AreTables, state_by};
ghost use Rattle.fold_tables.specs.Pieces.{AreMergedStates, IsPiece, MergesAt, fold_by, pairs_by};

use crate::entries::{Entries, fold_in, merge_all, sorted_pairs};
use indexmap::IndexMap;
use std::alloc::Global;
use std::mem::replace;
use tree_model::bolt_ops::RowOp;
use tree_model::storm_values::{Duplicate, Memory, Seq, Txt};
use tree_model::topology_plan::{Body, Component, Plan};
use tree_model::{Table, Tables, Write, Writes};

/// The values of the states by key, of some writes, and how many writes there were.
#[derive(Drop)]
pub(crate) struct Piece {
    // those of each component; a bolt has none
    states: Vec<Entries>,
    /// Up to `u64::MAX`.
    pub(crate) writes: u64,
}

impl Piece {
    /// What no writes leave.
    pub(crate) fn new(alloc: Global, plan: &Plan) -> Result<Self, Memory>
        ensures { IfOk result (λ piece. (custom : Custom) → IsPiece plan.now custom [] piece) }
    {
        let mut states = Vec::new(alloc);
        for _ in 0..plan.components() {
            states.push(no_entries(alloc))?;
        }
        Ok(Piece { states, writes: 0 })
    }

    /// Folds writes in, one after another.
    pub(crate) fn add_all<O: RowOp>(
        &mut self,
        plan: &Plan,
        custom: &O,
        writes: Writes,
    ) -> Result<(), Memory>
        requires { length self.old.states.items ≡ length plan.now.components }
        ensures length { length self.new.states.items ≡ length plan.now.components }
        ensures more { OnOk result ((made : List Write)
            → IsPiece plan.now (O.meaning custom.now) made self.old
            → IsPiece plan.now (O.meaning custom.now) (made ++ writes) self.new) }
    {
        for write in writes.into_vec() {
            self.add(plan, custom, write)?;
        }
        Ok(())
    }

    /// Folds a write in.
    fn add<O: RowOp>(&mut self, plan: &Plan, custom: &O, write: Write) -> Result<(), Memory>
        requires { length self.old.states.items ≡ length plan.now.components }
        ensures length { length self.new.states.items ≡ length plan.now.components }
        ensures more { OnOk result ((made : List Write)
            → IsPiece plan.now (O.meaning custom.now) made self.old
            → IsPiece plan.now (O.meaning custom.now) (made ++ write ∷ []) self.new) }
    {
        let Write {
            state,
            key,
            amount,
            ..
        } = write;
        self.writes = self.writes.saturating_add(1);
        fold_write(&mut self.states, plan, custom, state, key, amount)
    }

    /// Merges the piece of the records that come next.
    pub(crate) fn merge<O: RowOp>(
        &mut self,
        alloc: Global,
        plan: &Plan,
        custom: &O,
        later: Piece,
    ) -> Result<(), Memory>
        requires length { length self.old.states.items ≡ length plan.now.components }
        requires later { length later.states.items ≡ length plan.now.components }
        ensures { OnOk result ((made more : List Write)
            → IsPiece plan.now (O.meaning custom.now) made self.old
            → IsPiece plan.now (O.meaning custom.now) more later
            → IsPiece plan.now (O.meaning custom.now) (made ++ more) self.new) }
    {
        let Piece { states, writes } = later;
        self.writes = self.writes.saturating_add(writes);
        merge_states(alloc, &mut self.states, plan, custom, states)
    }

    /// The tables of the states, whose keys are sorted here, once.
    pub(crate) fn tables(self, alloc: Global, plan: &Plan) -> Result<Tables, Memory>
        ensures { IfOk result (λ tables. (custom : Custom) (made : List Write)
            → AreRunningTables plan.now custom made (pairs_by self.states.items)
            → AreTables plan.now custom made tables) }
    {
        let mut tables = Seq::new(alloc);
        for (number, entries) in (0..plan.components()).zip(self.states) {
            add_table(alloc, &mut tables, plan.component(number), entries)?;
        }
        Ok(tables)
    }
}

fn no_entries(alloc: Global) -> Entries
    ensures { entries_of result ≡ [] }
{
    IndexMap::new(alloc)
}

/// Folds an amount into the value of a key of a state.
fn fold_write<O: RowOp>(
    states: &mut Vec<Entries>,
    plan: &Plan,
    custom: &O,
    state: u32,
    key: Txt,
    amount: i64,
) -> Result<(), Memory>
    requires { length states.old.items ≡ length plan.now.components }
    ensures length { length states.new.items ≡ length plan.now.components }
    ensures fits { FitsSigned w64 amount }
    ensures more { OnOk result ((made : List Write) (part : ℕ)
        → AreRunningTables plan.now (O.meaning custom.now) made (pairs_by states.old.items)
        → AreRunningTables plan.now (O.meaning custom.now)
        (made ++ record { state = state; part = part; key = key; amount = amount } ∷ [])
        (pairs_by states.new.items)) }
{
    if state >= plan.components() {
        return Ok(());
    }
    match &plan.component(state).body {
        Body::Bolt(_) => Ok(()),
        Body::State(spec) => fold_in(&mut states[state as usize], custom, spec.fold, key, amount),
    }
}

/// Merges the later values of each state.
fn merge_states<O: RowOp>(
    alloc: Global,
    states: &mut Vec<Entries>,
    plan: &Plan,
    custom: &O,
    mut later: Vec<Entries>,
) -> Result<(), Memory>
    requires length { length states.old.items ≡ length plan.now.components }
    requires later { length later.items ≡ length plan.now.components }
    ensures length { length states.new.items ≡ length plan.now.components }
    ensures merged { OnOk result (AreMergedStates plan.now (O.meaning custom.now)
        (pairs_by states.old.items) (pairs_by later.items) (pairs_by states.new.items)) }
{
    for number in 0..plan.components() {
        let body = &plan.component(number).body;
        merge_state(alloc, states, &mut later, number as usize, custom, body)?;
    }
    Ok(())
}

/// Merges the later values of a component, if it is a state.
fn merge_state<O: RowOp>(
    alloc: Global,
    states: &mut Vec<Entries>,
    later: &mut Vec<Entries>,
    place: usize,
    custom: &O,
    body: &Body,
) -> Result<(), Memory>
    requires here { place < length states.old.items }
    requires there { place < length later.old.items }
    ensures merges { OnOk result (MergesAt (O.meaning custom.now) (fold_by body.now) place
        (pairs_by states.old.items) (pairs_by later.old.items) (pairs_by states.new.items)
        (pairs_by later.new.items)) }
    ensures count { length states.new.items ≡ length states.old.items }
    ensures count_later { length later.new.items ≡ length later.old.items }
{
    match body {
        Body::Bolt(_) => Ok(()),
        Body::State(spec) => {
            let others = replace(&mut later[place], no_entries(alloc));
            merge_all(&mut states[place], custom, spec.fold, others)
        }
    }
}

/// Adds the table of a component, if it is a state.
fn add_table(
    alloc: Global,
    tables: &mut Tables,
    component: &Component,
    entries: Entries,
) -> Result<(), Memory>
    ensures { OnOk result ((custom : Custom) (number : ℕ)
        → AddsTable (state_by custom number component.now component.now.body) (entries_of entries)
        tables.old tables.new) }
{
    if let Body::State(_) = component.body {
        let name = component.name.copy()?;
        let pairs = sorted_pairs(alloc, entries)?;
        tables.push(Table { name, pairs })?;
    }
    Ok(())
}
