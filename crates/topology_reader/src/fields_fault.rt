//! The faults of fields: what differs, what is not there, and what is there already.

ghost use Rattle.std.specs.Prelude.{◌≡◌, map};
ghost use Rattle.topology_reader.specs.Prelude.{pointwise, Checks, bytes_eq, first_some};
ghost use Rattle.topology_reader.specs.FirstFault.{is_among, differ_fault, field_fault, chooses, direct_fault, input_fault, fields_read, one_more_fault, added_fault, component_fault, fields_fault};

use crate::names::key_of;
use crate::wiring::Wiring;
use std::alloc::Global;
use std::slice::from_ref;
use storm_values::{MOST_FIELDS, Txt};
use topology_form::{BodyPart, ComponentPart, GroupingPart, Input, TopoFault, within};
use topology_graph::by_depth;
use topology_plan::Leaves;

/// The fields of each component, after those of all of its sources.
pub(crate) fn check_fields(wiring: &Wiring<'_>) -> Result<(), TopoFault>
    ensures { Checks result (fields_fault wiring.now) }
{
    for c in &by_depth(wiring.alloc(), wiring.graph())? {
        check_component(wiring, *c)?;
    }
    Ok(())
}

/// A state adds no field, and the key of each of its inputs is its own.
fn check_component(wiring: &Wiring<'_>, c: usize) -> Result<(), TopoFault>
    ensures { Checks result (component_fault wiring.now c) }
{
    let Some(part) = wiring.sources().component_at(c) else {
        return Ok(());
    };
    check_same(wiring, c)?;
    check_inputs(wiring, c, part.inputs.as_slice())?;
    check_read(wiring, c, &part.body)?;
    check_added(wiring.alloc(), wiring.fields_to(c), &part.body)
}

fn check_same(wiring: &Wiring<'_>, c: usize) -> Result<(), TopoFault>
    ensures { Checks result (differ_fault wiring.now c) }
{
    let fields = wiring.fields_to(c);
    for feed in wiring.feeds_at(c) {
        if !are_same(wiring.fields_of(feed.from), fields) {
            return Err(TopoFault::FieldsDiffer(wiring.name_of(c)?));
        }
    }
    Ok(())
}

fn are_same(a: &[Txt], b: &[Txt]) -> bool
    ensures { result ≡ pointwise bytes_eq a.now b.now }
{
    if a.len() != b.len() {
        return false;
    }
    for i in 0..a.len() {
        if a[i].as_str() != b[i].as_str() {
            return false;
        }
    }
    true
}

fn check_there(wiring: &Wiring<'_>, c: usize, names: &[Txt]) -> Result<(), TopoFault>
    ensures { Checks result (field_fault wiring.now c names.now) }
{
    let fields = wiring.fields_to(c);
    for name in names {
        if !is_among(fields, name) {
            return Err(TopoFault::NoField(wiring.name_of(c)?, name.copy()?));
        }
    }
    Ok(())
}

fn is_among(texts: &[Txt], text: &Txt) -> bool
    ensures { result ≡ is_among texts.now text.now }
{
    texts.iter().any(|other| text.as_str() == other.as_str())
}

fn check_inputs(wiring: &Wiring<'_>, c: usize, inputs: &[Input]) -> Result<(), TopoFault>
    ensures { Checks result (first_some (map (input_fault wiring.now c) inputs.now)) }
{
    for input in inputs {
        check_there(wiring, c, key_of(&input.grouping))?;
        check_direct(wiring, input)?;
    }
    Ok(())
}

fn check_direct(wiring: &Wiring<'_>, input: &Input) -> Result<(), TopoFault>
    ensures { Checks result (direct_fault wiring.now input.now input.now.grouping) }
{
    match input.grouping {
        GroupingPart::Direct if !chooses(wiring, input) => {
            Err(TopoFault::WrongKind(Txt::from_str(wiring.alloc(), "grouping")?))
        }
        _ => Ok(()),
    }
}

fn chooses(wiring: &Wiring<'_>, input: &Input) -> bool
    ensures { result ≡ chooses wiring.now input.now }
{
    let Some(from) = wiring.sources().source_of(&input.from) else {
        return false;
    };
    match wiring.sources().body_of(from) {
        Some(BodyPart::Bolt(operation)) => operation.function.shape().chooses,
        _ => false,
    }
}

/// The fields that a bolt's operation reads, or a state's key and then its amount.
#[tactic(auto, using(crate::proofs::PartLemmas::field_fault_of_both))]
fn check_read(wiring: &Wiring<'_>, c: usize, body: &BodyPart) -> Result<(), TopoFault>
    ensures { Checks result (field_fault wiring.now c (fields_read body.now)) }
{
    match body {
        BodyPart::Bolt(operation) => check_there(wiring, c, operation.reads.as_slice()),
        BodyPart::State(state) => {
            check_there(wiring, c, state.key.as_slice())?;
            match &state.amount {
                Some(amount) => check_there(wiring, c, from_ref(amount)),
                None => Ok(()),
            }
        }
    }
}

fn check_added(alloc: Global, fields: &[Txt], body: &BodyPart) -> Result<(), TopoFault>
    ensures { Checks result (added_fault fields.now body.now) }
{
    let BodyPart::Bolt(operation) = body else {
        return Ok(());
    };
    match operation.function.shape().leaves {
        Leaves::More => match &operation.into {
            Some(into) => check_one_more(alloc, fields, into),
            None => Ok(()),
        },
        _ => Ok(()),
    }
}

fn check_one_more(alloc: Global, fields: &[Txt], into: &Txt) -> Result<(), TopoFault>
    ensures { Checks result (one_more_fault fields.now into.now) }
{
    if is_among(fields, into) {
        return Err(TopoFault::Twice(into.copy()?));
    }
    within(alloc, "fields", (fields.len() + 1) as i64, 1, MOST_FIELDS)
}
