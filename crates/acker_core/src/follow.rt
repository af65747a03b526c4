// The path order of a list by a walk over its tuple tree.
ghost use Rattle.std.specs.Prelude.{◌≡◌, ◌∷◌, ◌++◌, [], get_or, IfOk, IfSome, IsTrue, OnOk};
ghost use Rattle.std.specs.declared.cmp.Ordering.TheVariants.{Less};
ghost use Rattle.tree_model.specs.counted_items.Weights.{Same};
ghost use Rattle.tree_model.specs.storm_values.Order.{path_cmp};
ghost use Rattle.tree_model.specs.Lists.{IsClosed};
ghost use Rattle.message_lists.specs.Packed.{done_lent};
ghost use Rattle.commit_writes.specs.Writes.{IsPathOrderOf};
ghost use Rattle.acker_core.specs.Orders.{FollowsOn, HasInit, StandsAt, all_open, edge_of, edges_by, last_path, path_of};

use crate::placing::{Slot, placed_slots};
use message_lists::{LentDone, LentNote, Notes};
use std::alloc::Global;
use std::cmp::Ordering;
use tree_model::AckMsg;
use tree_model::storm_values::{Memory, Seq};
use tree_model::tuple_tickets::Edge;

/// The path order of a closed list, where its dones are found at their paths, each once. Each edge
/// is then produced once and consumed once. Where one is not found, this is no answer. It takes
/// time in proportion to n for n messages.
pub fn followed_order(alloc: Global, list: &Notes) -> Result<Option<Seq<usize>>, Memory>
    ensures { IfOk result (λ found.
        IfSome found (λ order. IsClosed list.now × IsPathOrderOf list.now order)) }
{
    let Some(firsts) = first_edges(list) else {
        return Ok(None);
    };
    let slots = placed_slots(alloc, list, firsts.len())?;
    let order = follow(alloc, list, firsts, &slots)?;
    Ok(order)
}

// The edges of the first init.
fn first_edges(list: &Notes) -> Option<&[Edge]>
    ensures { IfSome result (λ edges. HasInit list.now edges.now) }
{
    for at in 0..list.len() {
        if let LentNote::Whole(AckMsg::Init(init)) = list.get(at) {
            return Some(init.edges.as_slice());
        }
    }
    None
}

// A path of a done, whose last number lies by itself.
#[derive(Clone, Copy, Drop)]
struct LentPath<'l> {
    before: &'l [u32],
    last: u32,
}

// An edge that is still open.
#[derive(Clone, Copy, Drop)]
enum LentEdge<'l> {
    /// It lies in the init.
    Whole(&'l Edge),
    /// It is that of a child of a done, by the child's number and id.
    Below(LentPath<'l>, usize, u64),
}

// Edges of one message whose dones are still to come.
#[derive(Clone, Copy, Drop)]
enum OpenEdges<'l> {
    /// They lie in the init.
    Whole(&'l [Edge]),
    /// They are those of the children of a done from a number on, by their ids.
    Below(LentPath<'l>, usize, &'l [u64]),
}

// Edges whose dones are still to come, and the slot of the first of them.
#[derive(Clone, Copy, Drop)]
struct Open<'l> {
    edges: OpenEdges<'l>,
    slot: usize,
}

// A walk so far: the places of the dones that it came to, the edges that these and the init made
// and that are still open, and the path of the last done.
#[derive(Drop)]
struct Walk<'l> {
    order: Vec<usize>,
    pending: Vec<Open<'l>>,
    last: Option<LentPath<'l>>,
}

// Follows the open edges to their dones, the children's before those of a later sibling, until each
// message but the init was met.
fn follow(
    alloc: Global,
    list: &Notes,
    firsts: &[Edge],
    slots: &[Slot],
) -> Result<Option<Seq<usize>>, Memory>
    requires { HasInit list.now firsts.now }
    ensures { IfOk result (λ found.
        IfSome found (λ order. IsClosed list.now × IsPathOrderOf list.now order)) }
{
    let mut walk = Walk {
        order: Vec::with_capacity(alloc, list.len())?,
        pending: Vec::new(alloc),
        last: None,
    };
    add_open(&mut walk.pending, OpenEdges::Whole(firsts), 0)?;
    for _ in 1..list.len() {
        if !walk.step(list, slots)? {
            return Ok(None);
        }
    }
    if !walk.pending.is_empty() {
        return Ok(None);
    }
    Ok(Some(Seq::from_vec(walk.order)))
}

impl<'l> Walk<'l> {
    // Goes to the done of an open edge, if the edge's slot tells it.
    fn step(&mut self, list: &'l Notes, slots: &[Slot]) -> Result<bool, Memory>
        ensures { IfOk result (λ went. IsTrue went
            → FollowsOn list.now self.old.order.items self.new.order.items
            (last_path self.old.last) (last_path self.new.last)
            (all_open self.old.pending.items) (all_open self.new.pending.items)) }
    {
        let Some((edge, slot)) = take_edge(&mut self.pending)? else {
            return Ok(false);
        };
        let Some(slot) = slots.get(slot) else {
            return Ok(false);
        };
        let place = slot.place as usize;
        let Some(done) = done_at(list, place) else {
            return Ok(false);
        };
        let path = LentPath {
            before: done.parent,
            last: done.number,
        };
        if !consumes(path, done.id, edge) || !is_above(path, self.last) {
            return Ok(false);
        }
        let children = OpenEdges::Below(path, 0, done.produced);
        add_open(&mut self.pending, children, slot.first as usize)?;
        self.last = Some(path);
        self.order.push(place)?;
        Ok(true)
    }
}

// Takes out the open edge whose done stands next in path order.
fn take_edge<'l>(waiting: &mut Vec<Open<'l>>) -> Result<Option<(LentEdge<'l>, usize)>, Memory>
    ensures { IfOk result (λ taken. IfSome taken (λ t.
        Same (all_open waiting.old.items) (edge_of t.0 ∷ all_open waiting.new.items))) }
{
    let Some(top) = waiting.pop() else {
        return Ok(None);
    };
    let Some((edge, others)) = split(top.edges) else {
        return Ok(None);
    };
    add_open(waiting, others, top.slot.saturating_add(1))?;
    Ok(Some((edge, top.slot)))
}

// The first of some edges, and the others.
fn split<'l>(edges: OpenEdges<'l>) -> Option<(LentEdge<'l>, OpenEdges<'l>)>
    ensures { IfSome result
        (λ parts. edges_by edges.entry ≡ edge_of parts.0 ∷ edges_by parts.1) }
{
    match edges {
        OpenEdges::Whole(edges) => {
            let (edge, others) = edges.split_first()?;
            Some((LentEdge::Whole(edge), OpenEdges::Whole(others)))
        }
        OpenEdges::Below(path, first, ids) => {
            let (id, others) = ids.split_first()?;
            let next = first.checked_add(1)?;
            let edge = LentEdge::Below(path, first, *id);
            Some((edge, OpenEdges::Below(path, next, others)))
        }
    }
}

fn is_none(edges: &OpenEdges<'_>) -> bool
    ensures { IsTrue result → edges_by edges.now ≡ [] }
{
    match edges {
        OpenEdges::Whole(edges) => edges.is_empty(),
        OpenEdges::Below(_, _, ids) => ids.is_empty(),
    }
}

fn add_open<'l>(
    waiting: &mut Vec<Open<'l>>,
    edges: OpenEdges<'l>,
    slot: usize,
) -> Result<(), Memory>
    ensures { OnOk result
        (all_open waiting.new.items ≡ all_open waiting.old.items ++ edges_by edges.entry) }
{
    if is_none(&edges) {
        return Ok(());
    }
    waiting.push(Open { edges, slot })?;
    Ok(())
}

fn done_at(list: &Notes, place: usize) -> Option<LentDone<'_>>
    ensures { IfSome result (λ done. StandsAt list.now place (done_lent done)) }
{
    if place >= list.len() {
        return None;
    }
    match list.get(place) {
        LentNote::Done(done) => Some(done),
        LentNote::Whole(_) => None,
    }
}

// Whether the edge of a path and an id is this one. The ids are compared first, since they differ
// wherever edges differ, but for coincidences.
fn consumes(path: LentPath<'_>, id: u64, edge: LentEdge<'_>) -> bool
    ensures { IsTrue result
        → edge_of edge.entry ≡ record { path = path_of path.entry; id = id } }
{
    match edge {
        LentEdge::Whole(edge) => edge.id == id && is_path(path, edge.path.as_slice()),
        LentEdge::Below(parent, number, of) => {
            of == id && path.last as usize == number && is_path(parent, path.before)
        }
    }
}

// Whether a path in two pieces is this one.
fn is_path(path: LentPath<'_>, whole: &[u32]) -> bool
    ensures { IsTrue result → whole.now ≡ path_of path.entry }
{
    match whole.split_last() {
        Some((last, before)) => *last == path.last && before == path.before,
        None => false,
    }
}

// Whether a path stands behind the last one.
fn is_above(path: LentPath<'_>, last: Option<LentPath<'_>>) -> bool
    ensures { IsTrue result → path_cmp (last_path last.entry) (path_of path.entry) ≡ Less }
{
    match last {
        Some(last) => is_below(last, path),
        None => true,
    }
}

// Whether a path stands before another: by the first number that differs, and where there is none,
// by length.
fn is_below(a: LentPath<'_>, b: LentPath<'_>) -> bool
    ensures { IsTrue result → path_cmp (path_of a.entry) (path_of b.entry) ≡ Less }
{
    let both = a.before.len().min(b.before.len());
    match a.before[..both].cmp(&b.before[..both]) {
        Ordering::Less => true,
        Ordering::Equal => {
            let x = number_at(a, both);
            let y = number_at(b, both);
            x < y || (x == y && a.before.len() < b.before.len())
        }
        Ordering::Greater => false,
    }
}

// The number of a path at a place.
fn number_at(path: LentPath<'_>, at: usize) -> u32
    ensures { result ≡ get_or (path_of path.entry) at path.entry.last }
{
    if at < path.before.len() {
        path.before[at]
    } else {
        path.last
    }
}
