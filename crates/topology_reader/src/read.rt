//! From the bytes of a topology file to its plan.

ghost use Rattle.std.specs.Prelude.{◌≡◌, ◌≢◌, ◌≤◌, length, Some, None, IfOk, IfErr};
ghost use Rattle.topology_reader.specs.Prelude.{Checks, view, json_of, IsValid, IsWired, IsInRange, most_bolts};
ghost use Rattle.topology_reader.specs.FirstFault.{twice_fault, source_fault, cycle_fault, size_fault, meaning_fault, first_fault, IsFilePlan};
ghost use Rattle.topology_reader.specs.Planned.{plan_of};
ghost use Rattle.topology_reader.specs.Steps.{IsMade, names_fault};

use crate::cycles::{check_cycles, check_replays};
use crate::fields_fault::check_fields;
use crate::names::{check_sources, check_twice};
use crate::planned::{planned_components, subs_by_source};
use crate::wiring::{Sources, Wiring};
use serde_json::Value;
use std::alloc::Global;
use storm_values::{MOST_TASKS_IN_ALL, MOST_TOPOLOGY_BYTES, MOST_WEIGHT, Memory};
use topology_form::{TopoFault, parts_from, within};
use topology_graph::{DepthRule, TuplesRule, greatest, numbers_by, total};
use topology_plan::{Made, Plan};

/// The plan of a topology file, or the file's first fault: its length, JSON, its
/// form, and then what it says.
///
/// Time is linear in the bytes; the search for a cycle takes a step for each two bolts besides.
pub fn read_topology(alloc: Global, bytes: &[u8]) -> Result<Plan, TopoFault>
    ensures plan { IfOk result (λ plan. IsFilePlan bytes.now plan) }
    ensures valid { IfOk result (λ plan. IsValid plan) }
    ensures wired { IfOk result (λ plan. IsWired plan) }
    ensures fault { IfErr result
        (λ fault. fault ≢ TopoFault.Memory → first_fault bytes.now ≡ Some fault) }
{
    if bytes.len() > MOST_TOPOLOGY_BYTES {
        return Err(TopoFault::TooLong(bytes.len()));
    }
    let value = parse(alloc, bytes)?;
    let parts = parts_from(alloc, value)?;
    let sources = Sources::of(alloc, &parts)?;
    plan_from(&sources)
}

fn parse(alloc: Global, bytes: &[u8]) -> Result<Value, TopoFault>
    ensures ok { IfOk result (λ value. json_of bytes.now ≡ Some (view value)) }
    ensures fault { IfErr result (λ fault. fault ≢ TopoFault.Memory
        → (fault ≡ TopoFault.NotJson) × (json_of bytes.now ≡ None)) }
{
    match Value::from_slice(alloc, bytes) {
        Ok(value) => Ok(value),
        Err(error) if error.is_memory() => Err(TopoFault::Memory),
        Err(_) => Err(TopoFault::NotJson),
    }
}

/// The plan of a file's parts, or the first fault of what they say.
///
/// The faults in their order: a name that stands twice, an input without a source, a cycle, fields,
/// a transactional state under an opaque spout, the tasks in all, and the weight.
#[tactic(auto, unfolding(crate::specs::FirstFault::meaning_fault))]
fn plan_from(sources: &Sources<'_>) -> Result<Plan, TopoFault>
    requires { IsInRange sources.now }
    ensures plan { IfOk result
        (λ plan. (meaning_fault sources.now ≡ None) × (plan ≡ plan_of sources.now)) }
    ensures fault { IfErr result
        (λ fault. fault ≢ TopoFault.Memory → meaning_fault sources.now ≡ Some fault) }
{
    check_names(sources)?;
    let wiring = Wiring::of(sources)?;
    wired_plan(&wiring)
}

fn check_names(sources: &Sources<'_>) -> Result<(), TopoFault>
    requires few { length sources.now.bolts ≤ most_bolts }
    ensures { Checks result (names_fault sources.now) }
{
    check_twice(sources)?;
    check_sources(sources)?;
    check_cycles(sources)
}

/// The plan of a file whose names and cycles have no fault, or the first fault of the rest.
#[tactic(auto, unfolding(crate::specs::FirstFault::meaning_fault))]
fn wired_plan(wiring: &Wiring<'_>) -> Result<Plan, TopoFault>
    requires range { IsInRange wiring.now }
    requires once { twice_fault wiring.now ≡ None }
    requires named { source_fault wiring.now ≡ None }
    requires acyclic { cycle_fault wiring.now ≡ None }
    ensures plan { IfOk result
        (λ plan. (meaning_fault wiring.now ≡ None) × (plan ≡ plan_of wiring.now)) }
    ensures fault { IfErr result
        (λ fault. fault ≢ TopoFault.Memory → meaning_fault wiring.now ≡ Some fault) }
{
    check_fields(wiring)?;
    check_replays(wiring.sources().parts())?;
    let made = make(wiring)?;
    check_size(wiring.alloc(), made.tasks, made.weight)?;
    Ok(Plan::of(made))
}

fn make(wiring: &Wiring<'_>) -> Result<Made, Memory>
    ensures { IfOk result (IsMade wiring.now) }
{
    let alloc = wiring.alloc();
    let graph = wiring.graph();
    let depth = greatest(&numbers_by(alloc, &DepthRule, graph)?) as u32;
    let weight = total(&numbers_by(alloc, &TuplesRule, graph)?);
    let parts = wiring.sources().parts();
    let spout_fields = parts.spout.fields.copy()?;
    let mut component_subs = subs_by_source(wiring)?;
    let spout_subs = component_subs.remove(0);
    let (components, tasks) = planned_components(wiring)?;
    Ok(Made {
        spout_fields,
        spout_kind: parts.spout.kind,
        batch: parts.spout.batch,
        partitions: parts.spout.partitions,
        components,
        spout_subs,
        component_subs,
        ackers: parts.ackers,
        pending: parts.pending,
        buckets: parts.buckets,
        attempts: parts.attempts,
        tasks,
        depth,
        weight,
    })
}

fn check_size(alloc: Global, tasks: u32, weight: u64) -> Result<(), TopoFault>
    ensures { Checks result (size_fault tasks weight) }
{
    let found = i64::from(tasks);
    within(alloc, "tasks in all", found, 1, MOST_TASKS_IN_ALL)?;
    if weight > MOST_WEIGHT {
        return Err(TopoFault::Weight(weight));
    }
    Ok(())
}
