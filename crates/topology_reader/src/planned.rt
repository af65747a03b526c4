//! What a topology file says, with components and fields by their numbers.

ghost use Rattle.std.specs.Prelude.{◌≡◌, ◌<◌, ◌^◌, [], ◌∷◌, length, replicate, option_map, slice_get, IfOk, IfSome, OnOk};
ghost use Rattle.topology_reader.specs.Prelude.{option_map_or, tasks_in_all};
ghost use Rattle.topology_reader.specs.Planned.{number_of, numbers_of, planned_operation, planned_body, route_field, planned_grouping, planned_component, first_task_of, plan_of};
ghost use Rattle.topology_reader.specs.Steps.{items_by, with_sub, with_inputs};
ghost use Rattle.topology_reader.specs.Wiring.{fields_of, body_of};

use crate::wiring::{Wiring, copied};
use std::alloc::Global;
use storm_values::{Duplicate, Indexes, Memory, Txt};
use topology_form::{BodyPart, ComponentPart, GroupingPart, Input, Operation};
use topology_plan::{Body, Component, Grouping, Op, Origin, StateSpec, Sub};

fn number_of(fields: &[Txt], name: &Txt) -> u32
    requires { length fields.now < 2 ^ 32 }
    ensures { result ≡ number_of fields.now name.now }
{
    match fields.iter().position(|one| one.as_str() == name.as_str()) {
        Some(place) => place as u32,
        None => 0,
    }
}

fn numbers_of(alloc: Global, fields: &[Txt], names: &[Txt]) -> Result<Indexes, Memory>
    requires { length fields.now < 2 ^ 32 }
    ensures { IfOk result (λ numbers. numbers ≡ numbers_of fields.now names.now) }
{
    let mut numbers = Vec::with_capacity(alloc, names.len())?;
    for name in names {
        numbers.push(number_of(fields, name))?;
    }
    Ok(Indexes::from_vec(numbers))
}

fn planned_operation(alloc: Global, fields: &[Txt], operation: &Operation) -> Result<Op, Memory>
    requires { length fields.now < 2 ^ 32 }
    ensures { IfOk result (λ op. op ≡ planned_operation fields.now operation.now) }
{
    Ok(Op {
        reads: numbers_of(alloc, fields, operation.reads.as_slice())?,
        function: operation.function.copy()?,
    })
}

fn planned_body(alloc: Global, fields: &[Txt], body: &BodyPart) -> Result<Body, Memory>
    requires { length fields.now < 2 ^ 32 }
    ensures { IfOk result (λ planned. planned ≡ planned_body fields.now body.now) }
{
    match body {
        BodyPart::Bolt(operation) => Ok(Body::Bolt(planned_operation(alloc, fields, operation)?)),
        BodyPart::State(state) => Ok(Body::State(StateSpec {
            kind: state.kind,
            key: numbers_of(alloc, fields, state.key.as_slice())?,
            amount: state.amount.as_ref().map(|name| number_of(fields, name)),
            fold: state.fold,
        })),
    }
}

fn grouping_of(wiring: &Wiring<'_>, from: Origin, said: &GroupingPart) -> Result<Grouping, Memory>
    ensures { IfOk result (λ grouping. grouping ≡ planned_grouping wiring.now from said.now) }
{
    match said {
        GroupingPart::Shuffle => Ok(Grouping::Shuffle),
        GroupingPart::Fields(key) => {
            let fields = wiring.fields_of(from);
            Ok(Grouping::Fields(numbers_of(wiring.alloc(), fields, key.as_slice())?))
        }
        GroupingPart::All => Ok(Grouping::All),
        GroupingPart::Global => Ok(Grouping::Global),
        GroupingPart::Direct => Ok(Grouping::Direct(chosen_field(wiring, from))),
    }
}

fn chosen_field(wiring: &Wiring<'_>, from: Origin) -> u32
    ensures { result
        ≡ option_map_or (route_field (fields_of wiring.now from)) (body_of wiring.now from) 0 }
{
    match wiring.sources().body_of(from) {
        Some(BodyPart::Bolt(operation)) if operation.function.shape().chooses => {
            number_of_first(wiring.fields_of(from), operation.reads.as_slice())
        }
        _ => 0,
    }
}

fn number_of_first(fields: &[Txt], names: &[Txt]) -> u32
    requires { length fields.now < 2 ^ 32 }
    ensures { result ≡ option_map_or (number_of fields.now) (slice_get names.now 0) 0 }
{
    match names.first() {
        Some(name) => number_of(fields, name),
        None => 0,
    }
}

/// The subscriptions of the spout, and then those of each component, in the order of their
/// consumers, in time linear in the inputs but for the search of their sources' names.
pub(crate) fn subs_by_source(wiring: &Wiring<'_>) -> Result<Vec<Vec<Sub>>, Memory>
    ensures { IfOk result (λ subs. items_by subs.items
        ≡ (plan_of wiring.now).spout_subs ∷ (plan_of wiring.now).component_subs) }
{
    let sources = wiring.sources();
    let count = sources.count();
    let mut subs = no_subs(wiring.alloc(), count + 1)?;
    for to in 0..count {
        let inputs = sources.component(to).inputs.as_slice();
        add_inputs(&mut subs, wiring, to as u32, inputs)?;
    }
    Ok(subs)
}

fn no_subs(alloc: Global, count: usize) -> Result<Vec<Vec<Sub>>, Memory>
    ensures { IfOk result (λ subs. items_by subs.items ≡ replicate count []) }
{
    let mut subs = Vec::with_capacity(alloc, count)?;
    for _c in 0..count {
        subs.push(Vec::new(alloc))?;
    }
    Ok(subs)
}

/// Adds the inputs of component `to`.
fn add_inputs(
    subs: &mut Vec<Vec<Sub>>,
    wiring: &Wiring<'_>,
    to: u32,
    inputs: &[Input],
) -> Result<(), Memory>
    ensures { OnOk result (items_by subs.new.items
        ≡ with_inputs wiring.now (items_by subs.old.items) (to, inputs.now)) }
{
    for input in inputs {
        if let Some(from) = wiring.sources().source_of(&input.from) {
            let grouping = grouping_of(wiring, from, &input.grouping)?;
            add_sub(subs, from, Sub { to, grouping })?;
        }
    }
    Ok(())
}

fn add_sub(subs: &mut Vec<Vec<Sub>>, from: Origin, sub: Sub) -> Result<(), Memory>
    ensures { OnOk result (items_by subs.new.items ≡ with_sub (items_by subs.old.items) from sub) }
{
    let place = match from {
        Origin::Spout => 0,
        Origin::Component(c) => c as usize + 1,
    };
    if place < subs.len() {
        subs[place].push(sub)?;
    }
    Ok(())
}

fn planned_component(
    wiring: &Wiring<'_>,
    c: u32,
    first_task: u32,
    part: &ComponentPart,
) -> Result<Component, Memory>
    requires { first_task ≡ first_task_of wiring.now c }
    ensures { IfOk result (λ component. component ≡ planned_component wiring.now (c, part.now)) }
{
    let alloc = wiring.alloc();
    Ok(Component {
        name: part.name.copy()?,
        first_task,
        tasks: part.tasks,
        fields: copied(alloc, wiring.fields_of(Origin::Component(c)))?,
        body: planned_body(alloc, wiring.fields_to(c as usize), &part.body)?,
    })
}

/// The components, whose tasks are numbered through, and the tasks in all.
pub(crate) fn planned_components(wiring: &Wiring<'_>) -> Result<(Vec<Component>, u32), Memory>
    ensures { IfOk result (λ made. (made.0.items ≡ (plan_of wiring.now).components)
        × (made.1 ≡ tasks_in_all (plan_of wiring.now))) }
{
    let sources = wiring.sources();
    let count = sources.count();
    let mut components = Vec::with_capacity(wiring.alloc(), count)?;
    let mut first_task = 0;
    for c in 0..count {
        let part = sources.component(c);
        components.push(planned_component(wiring, c as u32, first_task, part)?)?;
        first_task += part.tasks;
    }
    Ok((components, first_task))
}
