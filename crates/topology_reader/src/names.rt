//! Names that stand twice, and names that no source has.

ghost use Rattle.std.specs.Prelude.{◌≡◌, ℕ, List, [], ◌∷◌, map, IfOk};
ghost use Rattle.std.specs.Borrow.{Bor};
ghost use Rattle.topology_reader.specs.Prelude.{Checks, option_copied, first_some, Input, components_of};
ghost use Rattle.topology_reader.specs.FirstFault.{first_again, again_fault, key_of, own_key, projected, component_twice, twice_fault, nameless_fault, source_fault};
ghost use Rattle.topology_reader.specs.Wiring.{component_names};

use crate::wiring::Sources;
use indexmap::IndexSet;
use std::alloc::Global;
use storm_values::{Memory, Txt};
use topology_form::{BodyPart, ComponentPart, GroupingPart, Input, TopoFault};
use topology_plan::Leaves;

/// What goes by a name.
trait Named {
    ghost name_of: { Self → List ℕ };

    fn name(&self) -> &str
        ensures { result.now ≡ name_of self.now };
}

impl Named for Txt {
    ghost name_of = { λ name. name };

    fn name(&self) -> &str {
        self.as_str()
    }
}

impl Named for &str {
    ghost name_of = { λ name. name.now };

    fn name(&self) -> &str {
        self
    }
}

impl Named for Input {
    ghost name_of = { λ input. input.from };

    fn name(&self) -> &str {
        self.from.as_str()
    }
}

fn first_again<'a, N: Named>(alloc: Global, items: &'a [N]) -> Result<Option<&'a str>, Memory>
    ensures { IfOk result
        (λ again. option_copied again ≡ first_again [] (map N.name_of items.now)) }
{
    let mut seen = IndexSet::with_capacity(alloc, items.len())?;
    for item in items {
        if !seen.insert(item.name())? {
            return Ok(Some(item.name()));
        }
    }
    Ok(None)
}

fn check_items<N: Named>(alloc: Global, items: &[N]) -> Result<(), TopoFault>
    ensures { Checks result (again_fault (map N.name_of items.now)) }
{
    match first_again(alloc, items)? {
        Some(name) => Err(TopoFault::Twice(Txt::from_str(alloc, name)?)),
        None => Ok(()),
    }
}

pub(crate) fn check_twice(sources: &Sources<'_>) -> Result<(), TopoFault>
    ensures { Checks result (twice_fault sources.now) }
{
    check_items(sources.alloc(), all_names(sources)?.as_slice())?;
    check_items(sources.alloc(), sources.parts().spout.fields.as_slice())?;
    check_components(sources)
}

/// The names of the spout and of the components.
fn all_names<'a>(sources: &'a Sources<'_>) -> Result<Vec<&'a str>, Memory>
    ensures { IfOk result (λ names. map (λ (name : Bor (List ℕ)). name.now) names.items
        ≡ sources.now.spout.name ∷ component_names sources.now) }
{
    let mut names = Vec::new(sources.alloc());
    names.push(sources.parts().spout.name.as_str())?;
    for c in 0..sources.count() {
        names.push(sources.component(c).name.as_str())?;
    }
    Ok(names)
}

fn check_components(sources: &Sources<'_>) -> Result<(), TopoFault>
    ensures { Checks result (first_some (map component_twice (components_of sources.now))) }
{
    for c in 0..sources.count() {
        check_component(sources.alloc(), sources.component(c))?;
    }
    Ok(())
}

fn check_component(alloc: Global, part: &ComponentPart) -> Result<(), TopoFault>
    ensures { Checks result (component_twice part.now) }
{
    let inputs = part.inputs.as_slice();
    check_items(alloc, own_key(&part.body))?;
    check_items(alloc, inputs)?;
    for input in inputs {
        check_items(alloc, key_of(&input.grouping))?;
    }
    check_items(alloc, projected(&part.body))
}

pub(crate) fn check_sources(sources: &Sources<'_>) -> Result<(), TopoFault>
    ensures { Checks result (source_fault sources.now) }
{
    for c in 0..sources.count() {
        check_named(sources, sources.component(c))?;
    }
    Ok(())
}

fn check_named(sources: &Sources<'_>, part: &ComponentPart) -> Result<(), TopoFault>
    ensures { Checks result (nameless_fault sources.now part.now) }
{
    for input in part.inputs.as_slice() {
        if sources.source_of(&input.from).is_none() {
            return Err(TopoFault::NoSource(input.from.copy()?));
        }
    }
    Ok(())
}

pub(crate) fn key_of(said: &GroupingPart) -> &[Txt]
    ensures { result.now ≡ key_of said.now }
{
    match said {
        GroupingPart::Fields(key) => key.as_slice(),
        _ => &[],
    }
}

fn own_key(body: &BodyPart) -> &[Txt]
    ensures { result.now ≡ own_key body.now }
{
    match body {
        BodyPart::State(state) => state.key.as_slice(),
        BodyPart::Bolt(_) => &[],
    }
}

fn projected(body: &BodyPart) -> &[Txt]
    ensures { result.now ≡ projected body.now }
{
    match body {
        BodyPart::Bolt(operation) => match operation.function.shape().leaves {
            Leaves::Read => operation.reads.as_slice(),
            _ => &[],
        },
        _ => &[],
    }
}
