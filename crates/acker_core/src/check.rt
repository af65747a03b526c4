ghost use Rattle.std.specs.Prelude.{◌≡◌, ◌++◌, List, IfOk, OnOk, IsPermutation};
ghost use Rattle.tree_model.specs.tuple_tickets.declared.edge.Edge.{Edge};
ghost use Rattle.tree_model.specs.Lists.{occurrences, occurrences_in};
ghost use Rattle.acker_core.specs.Edges.{AreLeft, AreInOrder, tops, put_on};
ghost use Rattle.acker_core.specs.Check.{IsCheckOf};

use crate::follow::followed_order;
use crate::sorted::sorted_order;
use message_lists::Notes;
use std::alloc::Global;
use tree_model::AckMsg;
use tree_model::storm_values::{Duplicate, Memory, Seq};
use tree_model::tuple_tickets::{Edge, Edges};

/// What a check of a list comes to.
#[derive(Debug, Drop)]
pub enum Check {
    /// Each edge occurs an even number of times. These are the places of the dones, in the order of
    /// the paths that they consume.
    Closed(Seq<usize>),
    /// The edges that occur an odd number of times, by path and then by id.
    Left(Edges),
}

/// Whether each edge occurs an even number of times among the edges of the inits and the consumed
/// and produced edges of the dones. Where the dones are found at the paths of a tuple tree it takes
/// time in proportion to n for n edges; else they are copied and sorted, in n log n.
pub fn check_list(alloc: Global, list: &Notes) -> Result<Check, Memory>
    ensures { IfOk result (IsCheckOf list.now) }
{
    if let Some(order) = followed_order(alloc, list)? {
        return Ok(Check::Closed(order));
    }
    check_messages(alloc, list.to_messages(alloc)?.as_slice())
}

// The check of a list by sorting.
fn check_messages(alloc: Global, list: &[AckMsg]) -> Result<Check, Memory>
    ensures { IfOk result (IsCheckOf list.now) }
{
    let edges = edges_of(alloc, list)?;
    let left = odd_edges(alloc, edges)?;
    if left.is_empty() {
        let order = sorted_order(alloc, list)?;
        return Ok(Check::Closed(order));
    }
    Ok(Check::Left(Edges::from_vec(left)))
}

// The edges of a list, in the order of its messages.
fn edges_of(alloc: Global, list: &[AckMsg]) -> Result<Vec<Edge>, Memory>
    ensures { IfOk result (λ edges. edges.items ≡ occurrences list.now) }
{
    let mut edges = Vec::new(alloc);
    for note in list {
        add_edges_in(&mut edges, note)?;
    }
    Ok(edges)
}

// Adds the edges of a message.
fn add_edges_in(into: &mut Vec<Edge>, note: &AckMsg) -> Result<(), Memory>
    ensures { OnOk result (into.new.items ≡ into.old.items ++ occurrences_in note.now) }
{
    match note {
        AckMsg::Init(init) => add_edges(into, &init.edges),
        AckMsg::Done(done) => {
            into.push(done.consumed.copy()?)?;
            add_edges(into, &done.produced)
        }
        AckMsg::Failed(_) => Ok(()),
    }
}

fn add_edges(into: &mut Vec<Edge>, edges: &Edges) -> Result<(), Memory>
    ensures { OnOk result (into.new.items ≡ into.old.items ++ edges.now) }
{
    for edge in edges.as_slice() {
        into.push(edge.copy()?)?;
    }
    Ok(())
}

// The edges that occur an odd number of times, in order.
fn odd_edges(alloc: Global, edges: Vec<Edge>) -> Result<Vec<Edge>, Memory>
    ensures { IfOk result (λ left. AreLeft edges.items left.items) }
{
    let mut edges = edges;
    sort_edges(&mut edges);
    let left = odd_of_sorted(alloc, edges)?;
    Ok(left)
}

fn sort_edges(edges: &mut Vec<Edge>)
    ensures permutation { IsPermutation edges.old.items edges.new.items }
    ensures sorted { AreInOrder edges.new.items }
{
    edges.sort_unstable_by(|a, b| a.compare(b));
}

// Of edges in order those that occur an odd number of times. Equal edges stand side by side, so one
// pass with a stack serves.
fn odd_of_sorted(alloc: Global, edges: Vec<Edge>) -> Result<Vec<Edge>, Memory>
    requires { AreInOrder edges.items }
    ensures { IfOk result (λ left. AreLeft edges.items left.items) }
{
    let mut left: Vec<Edge> = Vec::new(alloc);
    for edge in edges {
        put_edge(&mut left, edge)?;
    }
    Ok(left)
}

// The edge goes on top, or takes away the equal one there.
fn put_edge(left: &mut Vec<Edge>, edge: Edge) -> Result<(), Memory>
    ensures { OnOk result (left.new.items ≡ put_on left.old.items edge) }
{
    if is_on_top(left.as_slice(), &edge) {
        left.pop();
    } else {
        left.push(edge)?;
    }
    Ok(())
}

fn is_on_top(left: &[Edge], edge: &Edge) -> bool
    ensures { result ≡ tops left.now edge.now }
{
    match left.last() {
        Some(last) => last.compare(edge).is_eq(),
        None => false,
    }
}
