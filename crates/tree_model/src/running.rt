ghost use Rattle.std.specs.Prelude.{◌≡◌, ℕ, List, [], map, true, false, slice_get, option_and_then, IfOk, IfSome, OnOk, OnErr};
ghost use Rattle.storm_values.specs.Keys.{text_of, quoted};
ghost use Rattle.storm_values.specs.Rows.{values_in};
ghost use Rattle.bolt_ops.specs.RowOp.{Custom};
ghost use Rattle.tree_model.specs.declared.write.Write.{Write};
ghost use Rattle.tree_model.specs.Inside.{entries_of, pairs_of, pairs_by, quoted_entry};
ghost use Rattle.tree_model.specs.Trees.{amount_by, key_of};
ghost use Rattle.tree_model.specs.Tables.{AddsTable, AreSorted, AreTables, AreRunningTables, folded, tallied, with_amount, state_by};

use crate::fold::Folds;
use crate::tree::Visitor;
use crate::write::{Pair, Pairs, Table, Tables, amount};
use indexmap::IndexMap;
use std::alloc::Global;
use std::marker::Model;
use storm_values::{Memory, Row, Seq, Txt, Value, key_text_in, plain_key, quoted_key};
use topology_plan::{Body, Component, Fold, Plan, StateSpec};

/// Values by text, found by hash. A text of up to 30 bytes lies where it is found.
type Entries = IndexMap<Txt, i128>;

/// The values of a state by key.
#[derive(Debug, Drop)]
struct Values {
    entries: Entries,
    // Each key is one text in which nothing is escaped, and stands there without brackets and
    // quotation marks. That holds until another key comes.
    plain: bool,
}

/// The tables of the states so far.
#[derive(Debug, Drop)]
pub(crate) struct RunningTables {
    values: Vec<Values>,
    // where the next key is written
    room: String,
}

impl Model for RunningTables {
    ghost use Rattle.std.specs.Prelude.{List};
    ghost use Rattle.tree_model.specs.declared.write.Pair.{Pair};

    ghost Value = { List (List Pair) };

    ghost use Rattle.tree_model.specs.Inside.{pairs_by};

    ghost view = { λ tables. pairs_by tables.values.items };
}

impl RunningTables {
    /// The tables before any write.
    pub(crate) fn new(alloc: Global, plan: &Plan) -> Result<Self, Memory>
        ensures { IfOk result
            (λ tables. (custom : Custom) → AreRunningTables plan.now custom [] tables) }
    {
        let mut values = Vec::new(alloc);
        for _ in 0..plan.components() {
            values.push(no_values(alloc))?;
        }
        let room = String::new(alloc);
        Ok(RunningTables { values, room })
    }

    /// The tables of the states, whose keys are sorted here, once.
    pub(crate) fn tables(self, alloc: Global, plan: &Plan) -> Result<Tables, Memory>
        ensures { IfOk result
            (λ tables. (custom : Custom) (writes : List Write)
            → AreRunningTables plan.now custom writes self
            → AreTables plan.now custom writes tables) }
    {
        let mut tables = Seq::new(alloc);
        for (number, values) in (0..plan.components()).zip(self.values) {
            add_table(alloc, &mut tables, plan.component(number), values)?;
        }
        Ok(tables)
    }
}

/// The tables so far, and the folds by which amounts go in.
#[derive(Drop)]
pub(crate) struct Filling<F> {
    pub(crate) tables: RunningTables,
    pub(crate) folds: F,
}

impl<F: Folds> Visitor for Filling<F> {
    ghost use Rattle.std.specs.Option.{option_map_or};
    ghost use Rattle.tree_model.specs.Tables.{written};
    ghost use Rattle.tree_model.specs.Trees.{write_of};

    ghost visited = { λ t filling node. record filling {
      tables = option_map_or (written t (F.meaning filling.folds) filling.tables)
          (write_of t node) filling.tables;
    } };

    fn visit(
        &mut self,
        alloc: Global,
        plan: &Plan,
        component: u32,
        row: &Row,
    ) -> Result<(), Memory> {
        if let Body::State(spec) = &plan.component(component).body {
            add_row(
                alloc,
                &mut self.tables.values,
                &mut self.tables.room,
                &self.folds,
                component,
                spec,
                row,
            )?;
        }
        Ok(())
    }
}

/// Adds the table of a component, if it is a state.
fn add_table(
    alloc: Global,
    tables: &mut Tables,
    component: &Component,
    values: Values,
) -> Result<(), Memory>
    ensures { OnOk result
        ((custom : Custom) (number : ℕ)
        → AddsTable (state_by custom number component.now component.now.body) (pairs_of values)
        tables.old tables.new) }
{
    if let Body::State(_) = component.body {
        let name = component.name.copy()?;
        let pairs = sorted_pairs(alloc, values)?;
        tables.push(Table { name, pairs })?;
    }
    Ok(())
}

/// The pairs of a state in the order of their keys.
fn sorted_pairs(alloc: Global, mut values: Values) -> Result<Pairs, Memory>
    ensures { IfOk result (AreSorted (pairs_of values)) }
{
    make_whole(&mut values)?;
    let Values { entries, .. } = values;
    sorted_entries(alloc, entries)
}

fn sorted_entries(alloc: Global, mut entries: Entries) -> Result<Pairs, Memory>
    ensures { IfOk result (AreSorted (entries_of entries)) }
{
    entries.sort_keys()?;
    pairs(alloc, entries)
}

fn pairs(alloc: Global, entries: Entries) -> Result<Pairs, Memory>
    ensures { IfOk result (λ pairs. pairs ≡ entries_of entries) }
{
    let pairs = entries
        .into_iter()
        .map(|(key, value)| Pair { key, value })
        .collect(alloc)?;
    Ok(Seq::from_vec(pairs))
}

/// Folds what a row is to add into the map of a state, if there is one.
fn add_row<F: Folds>(
    alloc: Global,
    values: &mut Vec<Values>,
    room: &mut String,
    folds: &F,
    state: u32,
    spec: &StateSpec,
    row: &Row,
) -> Result<(), Memory>
    ensures { OnOk result (pairs_by values.new.items
        ≡ with_amount (pairs_by values.old.items) state
        (folded (F.meaning folds.now) spec.now.fold) (text_of (key_of spec.now row.now))
        (amount_by spec.now.fold (option_and_then (slice_get row.now) spec.now.amount))) }
{
    let state = state as usize;
    if state < values.len() {
        put_row(alloc, &mut values[state], room, folds, spec, row)
    } else {
        Ok(())
    }
}

fn no_values(alloc: Global) -> Values
    ensures { pairs_of result ≡ [] }
{
    Values {
        entries: IndexMap::new(alloc),
        plain: true,
    }
}

/// Folds what a row is to add into the value of its key. A key that is kept plain is neither made
/// nor copied, but where it is new.
fn put_row<F: Folds>(
    alloc: Global,
    values: &mut Values,
    room: &mut String,
    folds: &F,
    spec: &StateSpec,
    row: &Row,
) -> Result<(), Memory>
    ensures { OnOk result (pairs_of values.new
        ≡ tallied (folded (F.meaning folds.now) spec.now.fold) (pairs_of values.old)
        (text_of (key_of spec.now row.now))
        (amount_by spec.now.fold (option_and_then (slice_get row.now) spec.now.amount))) }
{
    let (fields, added) = (spec.key.as_slice(), amount(spec, row));
    match kept_plain(values.plain, row.as_slice(), fields) {
        Some(text) => put(&mut values.entries, folds, spec.fold, text, added),
        None => {
            let key = key_text_in(alloc, room, row.as_slice(), fields)?;
            put_key(values, folds, spec.fold, &key, added)
        }
    }
}

/// The text that is the whole key, where keys are kept plain and this one can be.
fn kept_plain<'r>(plain: bool, row: &'r [Value], fields: &[u32]) -> Option<&'r Txt>
    ensures plain { IfSome result (λ text. plain ≡ true) }
    ensures text { IfSome result
        (λ text. text_of (values_in row.now fields.now) ≡ quoted text.now) }
{
    if plain { plain_key(row, fields) } else { None }
}

/// Folds an amount into the value of a key's JSON text, which takes the place of plain keys.
fn put_key<F: Folds>(
    values: &mut Values,
    folds: &F,
    by: Fold,
    key: &Txt,
    amount: i64,
) -> Result<(), Memory>
    ensures ok { OnOk result (pairs_of values.new
        ≡ tallied (folded (F.meaning folds.now) by) (pairs_of values.old) key.now amount) }
    ensures err { OnErr result (pairs_of values.new ≡ pairs_of values.old) }
{
    make_whole(values)?;
    put(&mut values.entries, folds, by, key, amount)
}

/// Puts the JSON texts of the keys in the place of plain keys.
fn make_whole(values: &mut Values) -> Result<(), Memory>
    ensures whole { OnOk result (values.new.plain ≡ false) }
    ensures same { pairs_of values.new ≡ pairs_of values.old }
{
    if !values.plain {
        return Ok(());
    }
    values.entries = quoted_entries(&values.entries)?;
    values.plain = false;
    Ok(())
}

/// The values by the JSON texts of their plain keys.
fn quoted_entries(entries: &Entries) -> Result<Entries, Memory>
    ensures { IfOk result
        (λ made. made.entries ≡ map quoted_entry entries.now.entries) }
{
    let alloc = *entries.allocator();
    let mut room = String::new(alloc);
    let mut made = IndexMap::with_capacity(alloc, entries.len())?;
    for (text, value) in entries {
        made.insert(quoted_key(alloc, &mut room, text)?, *value)?;
    }
    Ok(made)
}

/// Folds an amount into the value of a text, with one search where the key has one. A new text
/// is copied.
fn put<F: Folds>(
    entries: &mut Entries,
    folds: &F,
    by: Fold,
    key: &Txt,
    amount: i64,
) -> Result<(), Memory>
    ensures ok { OnOk result (entries_of entries.new
        ≡ tallied (folded (F.meaning folds.now) by) (entries_of entries.old) key.now amount) }
    ensures err { OnErr result (entries_of entries.new ≡ entries_of entries.old) }
{
    match entries.get_mut(key) {
        Some(value) => {
            *value = folds.fold(by, Some(*value), amount);
            Ok(())
        }
        None => {
            entries.insert(key.copy()?, folds.fold(by, None, amount))?;
            Ok(())
        }
    }
}
