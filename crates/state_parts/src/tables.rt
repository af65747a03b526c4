ghost use Rattle.std.specs.Prelude.{◌≡◌, ◌++◌, ◌∷◌, [], ℕ, List, Some, IfOk, OnOk, IsErrOf};
ghost use Rattle.std.specs.BTreeMap.{IsOrdered};
ghost use Rattle.std.specs.Cmp.Lexicographic.{slice_cmp};
ghost use Rattle.std.specs.List.{AllZip};
ghost use Rattle.std.specs.Option.{option_or};
ghost use Rattle.std.specs.Ordering.{nat_cmp};
ghost use Rattle.tree_model.specs.bolt_ops.RowOp.{Custom};
ghost use Rattle.tree_model.specs.storm_values.Counts.{raised};
ghost use Rattle.storm_stores.specs.CellMaps.{CellMap, cell_at};
ghost use Rattle.state_parts.specs.Gathered.{pairs_of, value_of};
ghost use Rattle.tree_model.specs.Tables.{StateOf, state_by, states_of};
ghost use Rattle.state_cells.specs.Rows.{IsBadRow};
ghost use Rattle.state_parts.specs.Commits.{SameCounts};
ghost use Rattle.state_parts.specs.PartPlans.{plans_of};
ghost use Rattle.state_parts.specs.PartTables.{AddsTableOver, AreRead, IsBadRowAt, IsRead, IsTableOver, OneRaised, Tell, components_of, put_all, value_among, value_for};

use crate::parts::StatePart;
use state_cells::PartFault;
use std::alloc::Global;
use std::collections::BTreeMap;
use storm_stores::CellStore;
use tree_model::storm_values::{Memory, Txt};
use tree_model::topology_plan::{Body, Component, Plan};
use tree_model::{Pair, Pairs, Table, Tables};

type Values = BTreeMap<Txt, i128>;

/// Gives the keys of pairs their values, one after another.
fn put_pairs(values: &mut Values, pairs: Pairs) -> Result<(), Memory>
    requires { IsOrdered (slice_cmp nat_cmp) values.old }
    ensures ordered { IsOrdered (slice_cmp nat_cmp) values.new }
    ensures put { OnOk result ((key : List ℕ) →
        value_of values.new key ≡ put_all (value_of values.old) pairs key) }
{
    for pair in pairs.into_vec() {
        values.insert(pair.key, pair.value)?;
    }
    Ok(())
}

/// Adds the keys and values of a part, if it is one of the state.
fn add_values<C: CellStore>(
    at: &mut StatePart<C>,
    number: u32,
    values: &mut Values,
) -> Result<(), PartFault>
    requires { IsOrdered (slice_cmp nat_cmp) values.old }
    ensures ordered { IsOrdered (slice_cmp nat_cmp) values.new }
    ensures added { OnOk result ((cells : CellMap) → C.tells at.old.over.store cells →
        (key : List ℕ) → value_of values.new key
        ≡ option_or (value_for number at.old.component cells key) (value_of values.old key)) }
    ensures read { IsRead C.tells C.fault_count at.old at.new }
    ensures failed { IsErrOf result PartFault.Store →
        C.fault_count at.new.over.store ≡ raised (C.fault_count at.old.over.store) }
    ensures quiet { (IsErrOf result PartFault.Store → ⊥) →
        C.fault_count at.new.over.store ≡ C.fault_count at.old.over.store }
    ensures bad { (key : List ℕ) → IsErrOf result (PartFault.BadCell key) → (cells : CellMap) →
        C.tells at.old.over.store cells → IsBadRow at.old.over.kind key (cell_at cells key) }
{
    if at.component != number {
        return Ok(());
    }
    let pairs = match at.over.table() {
        Ok(pairs) => pairs,
        Err(fault) => return Err(fault),
    };
    match put_pairs(values, pairs) {
        Ok(()) => {}
        Err(_) => return Err(PartFault::Memory),
    }
    Ok(())
}

/// The keys of a state with their values.
fn values_of<C: CellStore>(
    alloc: Global,
    parts: &mut Vec<StatePart<C>>,
    number: u32,
) -> Result<Values, PartFault>
    ensures ordered { IfOk result (IsOrdered (slice_cmp nat_cmp)) }
    ensures values { IfOk result (λ values. (maps : List CellMap) →
        Tell C.tells parts.old.items maps → (key : List ℕ) → value_of values key
        ≡ value_among number (components_of parts.old.items) maps key) }
    ensures read { AreRead C.tells C.fault_count parts.old.items parts.new.items }
    ensures failed { IsErrOf result PartFault.Store →
        OneRaised C.fault_count parts.old.items parts.new.items }
    ensures quiet { (IsErrOf result PartFault.Store → ⊥) →
        SameCounts C.fault_count parts.old.items parts.new.items }
    ensures bad { (key : List ℕ) → IsErrOf result (PartFault.BadCell key) →
        IsBadRowAt C.tells parts.old.items key }
{
    let mut values = BTreeMap::new(alloc);
    for i in 0..parts.len() {
        match add_values(&mut parts[i], number, &mut values) {
            Ok(()) => {}
            Err(fault) => return Err(fault),
        }
    }
    Ok(values)
}

fn pairs_in(alloc: Global, values: Values) -> Result<Pairs, Memory>
    ensures { IfOk result (λ pairs. pairs ≡ pairs_of values) }
{
    let pairs = values
        .into_iter()
        .map(|(key, value)| Pair { key, value })
        .collect(alloc)?;
    Ok(Pairs::from_vec(pairs))
}

fn push_table(
    alloc: Global,
    component: &Component,
    values: Values,
    tables: &mut Tables,
) -> Result<(), Memory>
    ensures { OnOk result (tables.new ≡ tables.old
        ++ record { name = component.now.name; pairs = pairs_of values } ∷ []) }
{
    let name = component.name.copy()?;
    let pairs = pairs_in(alloc, values)?;
    tables.push(Table { name, pairs })
}

/// Adds the table of a state.
fn add_state_table<C: CellStore>(
    alloc: Global,
    parts: &mut Vec<StatePart<C>>,
    number: u32,
    component: &Component,
    tables: &mut Tables,
) -> Result<(), PartFault>
    ensures added { OnOk result ((state : StateOf) → state.number ≡ number →
        state.name ≡ component.now.name →
        AddsTableOver C.tells parts.old.items (Some state) tables.old tables.new) }
    ensures read { AreRead C.tells C.fault_count parts.old.items parts.new.items }
    ensures failed { IsErrOf result PartFault.Store →
        OneRaised C.fault_count parts.old.items parts.new.items }
    ensures quiet { (IsErrOf result PartFault.Store → ⊥) →
        SameCounts C.fault_count parts.old.items parts.new.items }
    ensures bad { (key : List ℕ) → IsErrOf result (PartFault.BadCell key) →
        IsBadRowAt C.tells parts.old.items key }
{
    let values = match values_of(alloc, parts, number) {
        Ok(values) => values,
        Err(fault) => return Err(fault),
    };
    match push_table(alloc, component, values, tables) {
        Ok(()) => {}
        Err(_) => return Err(PartFault::Memory),
    }
    Ok(())
}

/// Adds the table of a component, if it is a state.
fn add_table<C: CellStore>(
    alloc: Global,
    parts: &mut Vec<StatePart<C>>,
    number: u32,
    component: &Component,
    tables: &mut Tables,
) -> Result<(), PartFault>
    ensures added { OnOk result ((custom : Custom) → AddsTableOver C.tells parts.old.items
        (state_by custom number component.now component.now.body) tables.old tables.new) }
    ensures read { AreRead C.tells C.fault_count parts.old.items parts.new.items }
    ensures failed { IsErrOf result PartFault.Store →
        OneRaised C.fault_count parts.old.items parts.new.items }
    ensures quiet { (IsErrOf result PartFault.Store → ⊥) →
        SameCounts C.fault_count parts.old.items parts.new.items }
    ensures bad { (key : List ℕ) → IsErrOf result (PartFault.BadCell key) →
        IsBadRowAt C.tells parts.old.items key }
{
    match &component.body {
        Body::Bolt(_) => Ok(()),
        Body::State(_) => add_state_table(alloc, parts, number, component, tables),
    }
}

/// The tables of the plan's states, in order.
pub(crate) fn tables_of<C: CellStore>(
    alloc: Global,
    parts: &mut Vec<StatePart<C>>,
    plan: &Plan,
) -> Result<Tables, PartFault>
    ensures tables { IfOk result
        (λ tables. (custom : Custom) →
        AllZip (IsTableOver C.tells parts.old.items) (states_of plan.now custom) tables) }
    ensures plans { plans_of parts.new.items ≡ plans_of parts.old.items }
    ensures read { AreRead C.tells C.fault_count parts.old.items parts.new.items }
    ensures failed { IsErrOf result PartFault.Store →
        OneRaised C.fault_count parts.old.items parts.new.items }
    ensures quiet { (IsErrOf result PartFault.Store → ⊥) →
        SameCounts C.fault_count parts.old.items parts.new.items }
    ensures bad { (key : List ℕ) → IsErrOf result (PartFault.BadCell key) →
        IsBadRowAt C.tells parts.old.items key }
{
    let mut tables = Tables::new(alloc);
    for number in 0..plan.components() {
        match add_table(alloc, parts, number, plan.component(number), &mut tables) {
            Ok(()) => {}
            Err(fault) => return Err(fault),
        }
    }
    Ok(tables)
}
