//! The components of a topology file by their numbers, the sources of their names, who feeds whom,
//! and which fields the rows of a source have.

ghost use Rattle.std.specs.Prelude.{◌≡◌, ◌<◌, ◌^◌, [], ◌∷◌, ◌++◌, length, slice_get, None, Some, IfOk};
ghost use Rattle.topology_reader.specs.FirstFault.{cycle_fault};
ghost use Rattle.topology_reader.specs.Prelude.{IsInRange, components_of, filter_map, IsClosed, IsSettled, option_copied, option_to_list, feeds_at, fed_by, read};
ghost use Rattle.topology_reader.specs.Wiring.{source_of, component_at, copies_said, feed_of, graph_of, body_of, name_at, fields_after, first_of, fields_rule, fields_of, fields_to};

use indexmap::IndexMap;
use std::alloc::Global;
use std::marker::Model;
use storm_values::{Memory, Names, Seq, Txt};
use topology_form::{BodyPart, ComponentPart, FileParts, GroupingPart};
use topology_graph::{Along, Feed, Graph, values_along};
use topology_plan::{Leaves, Origin};

/// The spout and the bolts by their names, found by the names' hashes. Contracts see it as what the
/// file says.
#[derive(Drop)]
pub(crate) struct Sources<'p> {
    alloc: Global,
    parts: &'p FileParts,
    /// The first one where a name stands twice.
    by_name: IndexMap<&'p str, Origin>,
}

impl<'p> Model for Sources<'p> {
    ghost use Rattle.std.specs.Prelude.{◌<◌, ◌^◌, length};
    ghost use Rattle.topology_reader.specs.Prelude.{FileParts, components_of};
    ghost use Rattle.topology_reader.specs.Steps.{IsIndexOf};

    ghost Value = { FileParts };

    ghost view = { λ s. s.parts.now };

    ghost invariant = { λ s.
        (length (components_of s.parts.now) < 2 ^ 32) × IsIndexOf s.parts.now s.by_name };
}

impl<'p> Sources<'p> {
    pub(crate) fn of(alloc: Global, parts: &'p FileParts) -> Result<Self, Memory>
        requires { length (components_of parts.now) < 2 ^ 32 }
        ensures { IfOk result (λ sources. sources ≡ parts.now) }
    {
        let mut by_name = IndexMap::new(alloc);
        for i in (0..parts.bolts.len()).rev() {
            let name = parts.bolts.at(i).name.as_str();
            by_name.insert(name, Origin::Component(i as u32))?;
        }
        by_name.insert(parts.spout.name.as_str(), Origin::Spout)?;
        Ok(Sources {
            alloc,
            parts,
            by_name,
        })
    }

    pub(crate) fn alloc(&self) -> Global {
        self.alloc
    }

    pub(crate) fn parts(&self) -> &FileParts
        ensures { result.now ≡ self.now }
    {
        self.parts
    }

    pub(crate) fn count(&self) -> usize
        ensures value { result ≡ length (components_of self.now) }
        ensures few { length (components_of self.now) < 2 ^ 32 }
    {
        self.parts.bolts.len() + self.parts.states.len()
    }

    /// The bolts have the first numbers.
    pub(crate) fn component(&self, c: usize) -> &ComponentPart
        requires { c < length (components_of self.now) }
        ensures { component_at self.now c ≡ Some result.now }
    {
        let bolts = self.parts.bolts.len();
        if c < bolts {
            return self.parts.bolts.at(c);
        }
        self.parts.states.at(c - bolts)
    }

    pub(crate) fn component_at(&self, c: usize) -> Option<&ComponentPart>
        ensures { option_copied result ≡ component_at self.now c }
    {
        if c < self.count() {
            return Some(self.component(c));
        }
        None
    }

    pub(crate) fn body_of(&self, from: Origin) -> Option<&BodyPart>
        ensures { option_copied result ≡ body_of self.now from }
    {
        match from {
            Origin::Spout => None,
            Origin::Component(c) => Some(&self.component_at(c as usize)?.body),
        }
    }

    pub(crate) fn source_of(&self, name: &Txt) -> Option<Origin>
        ensures { result ≡ source_of self.now name.now }
    {
        self.by_name.get(name.as_str()).copied()
    }
}

/// The graph of a file without a cycle.
pub(crate) fn graph_of(sources: &Sources<'_>) -> Result<Graph, Memory>
    requires range { IsInRange sources.now }
    requires acyclic { cycle_fault sources.now ≡ None }
    ensures value { IfOk result (λ graph. graph ≡ graph_of sources.now) }
    ensures closed { IfOk result IsClosed }
    ensures settled { IfOk result IsSettled }
{
    let count = sources.count();
    let mut graph = Vec::with_capacity(sources.alloc, count)?;
    for c in 0..count {
        let feeds = feeds_to(sources, sources.component(c))?;
        graph.push(Seq::from_vec(feeds))?;
    }
    Ok(Seq::from_vec(graph))
}

fn feeds_to(sources: &Sources<'_>, part: &ComponentPart) -> Result<Vec<Feed>, Memory>
    ensures { IfOk result
        (λ feeds. feeds.items ≡ filter_map (feed_of sources.now part.now.tasks) part.now.inputs) }
{
    let mut feeds = Vec::with_capacity(sources.alloc, part.inputs.len())?;
    for input in part.inputs.as_slice() {
        if let Some(from) = sources.source_of(&input.from) {
            let copies = u64::from(copies_said(&input.grouping, part.tasks));
            feeds.push(Feed { from, copies })?;
        }
    }
    Ok(feeds)
}

fn copies_said(said: &GroupingPart, tasks: u32) -> u32
    ensures { result ≡ copies_said said.now tasks }
{
    match said {
        GroupingPart::All => tasks,
        _ => 1,
    }
}

/// What a component's body leaves of the fields of its first source.
impl<'p> Along<Names> for Sources<'p> {
    ghost rule = { λ s. fields_rule s };

    fn over(&self, c: usize, feeds: &[Feed], known: &[Option<Names>]) -> Result<Names, Memory> {
        let come = of_first(self.parts, feeds, known);
        match self.component_at(c) {
            Some(part) => fields_after(self.alloc, &part.body, come),
            None => Ok(Names::new(self.alloc)),
        }
    }
}

fn of_first<'f>(parts: &'f FileParts, feeds: &[Feed], known: &'f [Option<Names>]) -> &'f [Txt]
    ensures { result.now ≡ first_of (fed_by (fields_rule parts.now) known.now feeds.now) }
{
    match feeds.first() {
        Some(feed) => fields_known(parts, known, feed.from),
        None => &[],
    }
}

/// The fields of a source, as far as they are known.
fn fields_known<'f>(parts: &'f FileParts, known: &'f [Option<Names>], from: Origin) -> &'f [Txt]
    ensures { result.now ≡ read parts.now.spout.fields [] known.now from }
{
    match from {
        Origin::Spout => parts.spout.fields.as_slice(),
        Origin::Component(c) => match known.get(c as usize) {
            Some(Some(fields)) => fields.as_slice(),
            _ => &[],
        },
    }
}

/// The graph of a file without a cycle with the fields of each source. Contracts see it as what the
/// file says.
#[derive(Drop)]
pub(crate) struct Wiring<'p> {
    sources: &'p Sources<'p>,
    graph: Graph,
    /// Of each component.
    fields: Vec<Option<Names>>,
}

impl<'p> Model for Wiring<'p> {
    ghost use Rattle.topology_reader.specs.Prelude.{FileParts, IsInRange, values_of};
    ghost use Rattle.std.specs.Prelude.{◌≡◌, None, Some, map};
    ghost use Rattle.topology_reader.specs.FirstFault.{cycle_fault};
    ghost use Rattle.topology_reader.specs.Wiring.{graph_of, fields_rule};

    ghost Value = { FileParts };

    ghost view = { λ w. w.sources.now };

    ghost invariant = { λ w.
        (w.graph ≡ graph_of w.sources.now)
        × (w.fields.items ≡ map Some (values_of (fields_rule w.sources.now) w.graph))
        × IsInRange w.sources.now × (cycle_fault w.sources.now ≡ None) };
}

impl<'p> Wiring<'p> {
    /// Each component and each subscription is looked at once.
    pub(crate) fn of(sources: &'p Sources<'p>) -> Result<Self, Memory>
        requires range { IsInRange sources.now }
        requires acyclic { cycle_fault sources.now ≡ None }
        ensures { IfOk result (λ wiring. wiring ≡ sources.now) }
    {
        let graph = graph_of(sources)?;
        let fields = values_along(sources.alloc, sources, &graph)?;
        Ok(Wiring {
            sources,
            graph,
            fields,
        })
    }

    pub(crate) fn alloc(&self) -> Global {
        self.sources.alloc()
    }

    pub(crate) fn sources(&self) -> &Sources<'p>
        ensures value { result.now ≡ self.now }
        ensures range { IsInRange self.now }
    {
        // brings in the invariant
        let _ = &self.fields;
        self.sources
    }

    pub(crate) fn graph(&self) -> &Graph
        ensures value { result.now ≡ graph_of self.now }
        ensures closed { IsClosed result.now }
        ensures settled { IsSettled result.now }
        ensures range { IsInRange self.now }
    {
        // brings in the invariant
        let _ = &self.fields;
        &self.graph
    }

    /// The subscriptions of a component.
    pub(crate) fn feeds_at(&self, c: usize) -> &[Feed]
        ensures { result.now ≡ feeds_at (graph_of self.now) c }
    {
        match self.graph.as_slice().get(c) {
            Some(feeds) => feeds.as_slice(),
            None => &[],
        }
    }

    pub(crate) fn name_of(&self, c: usize) -> Result<Txt, Memory>
        ensures { IfOk result (λ name. name ≡ name_at self.now c) }
    {
        match self.sources.component_at(c) {
            Some(part) => part.name.copy(),
            None => Ok(Txt::new()),
        }
    }

    pub(crate) fn fields_of(&self, from: Origin) -> &[Txt]
        ensures value { result.now ≡ fields_of self.now from }
        ensures few { length result.now < 2 ^ 32 }
    {
        fields_known(self.sources.parts(), self.fields.as_slice(), from)
    }

    pub(crate) fn fields_to(&self, c: usize) -> &[Txt]
        ensures value { result.now ≡ fields_to self.now c }
        ensures few { length result.now < 2 ^ 32 }
    {
        match self.feeds_at(c).first() {
            Some(feed) => self.fields_of(feed.from),
            None => &[],
        }
    }
}

fn fields_after(alloc: Global, body: &BodyPart, come: &[Txt]) -> Result<Names, Memory>
    ensures { IfOk result (λ after. after ≡ fields_after body.now come.now) }
{
    match body {
        BodyPart::Bolt(operation) => match operation.function.shape().leaves {
            Leaves::Same => copied(alloc, come),
            Leaves::Read => operation.reads.copy(),
            Leaves::Made => with_made(alloc, &[], &operation.into),
            Leaves::More => with_made(alloc, come, &operation.into),
        },
        BodyPart::State(_) => Ok(Names::new(alloc)),
    }
}

/// Fields with one that is made.
#[tactic(auto, using(crate::proofs::PartLemmas::none_more))]
fn with_made(alloc: Global, come: &[Txt], into: &Option<Txt>) -> Result<Names, Memory>
    ensures { IfOk result (λ made. made ≡ come.now ++ option_to_list into.now) }
{
    let mut made = copied(alloc, come)?;
    if let Some(name) = into {
        made.push(name.copy()?)?;
    }
    Ok(made)
}

pub(crate) fn copied(alloc: Global, names: &[Txt]) -> Result<Names, Memory>
    ensures { IfOk result (λ made. made ≡ names.now) }
{
    let mut made = Vec::with_capacity(alloc, names.len())?;
    for name in names {
        made.push(name.copy()?)?;
    }
    Ok(Names::from_vec(made))
}
