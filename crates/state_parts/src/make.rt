ghost use Rattle.std.specs.Prelude.{◌≡◌, ◌++◌, ◌∷◌, [], ℕ, map, length, slice_get, Some, OnOk};
ghost use Rattle.std.specs.List.{range_with_len};
ghost use Rattle.state_parts.specs.Makers.{AreOut, OnlyMade};
ghost use Rattle.state_parts.specs.PartPlans.{AreIndexed, IsOneOf, part_by, parts_by, planned_parts, plans_of};

use crate::parts::StatePart;
use state_cells::Part;
use std::alloc::{AllocError, Global};
use storm_stores::{CellStore, StoreMaker};
use tree_model::storm_values::Memory;
use tree_model::topology_plan::{Body, Component, Plan, StateSpec};

/// Adds a part of a state, over the store that the maker makes for it. Without memory the store
/// goes back.
fn add_part<C: CellStore, M: StoreMaker<C = C>>(
    alloc: Global,
    parts: &mut Vec<StatePart<C>>,
    component: u32,
    part: u32,
    spec: &StateSpec,
    stores: &mut M,
) -> Result<(), Memory>
    requires { IsOneOf (plans_of parts.old.items) component part → ⊥ }
    ensures plans { OnOk result (plans_of parts.new.items ≡ plans_of parts.old.items
        ++ part_by component spec.now.kind spec.now.fold part ∷ []) }
    ensures out { (start : M) →
        AreOut C.tells C.fault_count M.holds M.has_made M.fault_count
        start stores.old parts.old.items →
        AreOut C.tells C.fault_count M.holds M.has_made M.fault_count
        start stores.new parts.new.items }
    ensures only_made { OnOk result ((start : M) →
        OnlyMade M.has_made start stores.old parts.old.items →
        OnlyMade M.has_made start stores.new parts.new.items) }
{
    let store = stores.make(component, part)?;
    let over = Part::new(alloc, store, spec.kind, spec.fold);
    match parts.push(StatePart {
        component,
        part,
        over,
    }) {
        Ok(()) => {}
        Err(back) => {
            stores.give(component, part, back.value.over.into_store());
            return Err(AllocError);
        }
    }
    Ok(())
}

/// Adds the parts of a state that has so many.
fn add_parts<C: CellStore, M: StoreMaker<C = C>>(
    alloc: Global,
    parts: &mut Vec<StatePart<C>>,
    component: u32,
    tasks: u32,
    spec: &StateSpec,
    stores: &mut M,
) -> Result<(), Memory>
    requires { (p : ℕ) → IsOneOf (plans_of parts.old.items) component p → ⊥ }
    ensures plans { OnOk result (plans_of parts.new.items ≡ plans_of parts.old.items
        ++ map (part_by component spec.now.kind spec.now.fold) (range_with_len 0 tasks)) }
    ensures out { (start : M) →
        AreOut C.tells C.fault_count M.holds M.has_made M.fault_count
        start stores.old parts.old.items →
        AreOut C.tells C.fault_count M.holds M.has_made M.fault_count
        start stores.new parts.new.items }
    ensures only_made { OnOk result ((start : M) →
        OnlyMade M.has_made start stores.old parts.old.items →
        OnlyMade M.has_made start stores.new parts.new.items) }
{
    for part in 0..tasks {
        add_part(alloc, parts, component, part, spec, stores)?;
    }
    Ok(())
}

/// Adds the parts of a component, if it is a state.
fn add_component<C: CellStore, M: StoreMaker<C = C>>(
    alloc: Global,
    parts: &mut Vec<StatePart<C>>,
    number: u32,
    component: &Component,
    stores: &mut M,
) -> Result<(), Memory>
    requires { (p : ℕ) → IsOneOf (plans_of parts.old.items) number p → ⊥ }
    ensures plans { OnOk result (plans_of parts.new.items ≡ plans_of parts.old.items
        ++ parts_by number component.now.tasks component.now.body) }
    ensures out { (start : M) →
        AreOut C.tells C.fault_count M.holds M.has_made M.fault_count
        start stores.old parts.old.items →
        AreOut C.tells C.fault_count M.holds M.has_made M.fault_count
        start stores.new parts.new.items }
    ensures only_made { OnOk result ((start : M) →
        OnlyMade M.has_made start stores.old parts.old.items →
        OnlyMade M.has_made start stores.new parts.new.items) }
{
    match &component.body {
        Body::Bolt(_) => Ok(()),
        Body::State(spec) => add_parts(alloc, parts, number, component.tasks, spec, stores),
    }
}

/// Adds the parts of all states, and notes the place of each component's first part.
pub(crate) fn add_states<C: CellStore, M: StoreMaker<C = C>>(
    alloc: Global,
    parts: &mut Vec<StatePart<C>>,
    firsts: &mut Vec<usize>,
    plan: &Plan,
    stores: &mut M,
) -> Result<(), Memory>
    requires no_parts { parts.old.items ≡ [] }
    requires no_firsts { firsts.old.items ≡ [] }
    ensures plans { OnOk result (plans_of parts.new.items ≡ planned_parts plan.now) }
    ensures indexed { OnOk result
        (AreIndexed firsts.new.items 0 (plans_of parts.new.items)) }
    ensures out { AreOut C.tells C.fault_count M.holds M.has_made M.fault_count
        stores.old stores.new parts.new.items }
    ensures only_made { OnOk result
        (OnlyMade M.has_made stores.old stores.new parts.new.items) }
{
    for number in 0..plan.components() {
        firsts.push(parts.len())?;
        add_component(alloc, parts, number, plan.component(number), stores)?;
    }
    Ok(())
}
