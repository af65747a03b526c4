//! Making the tuples of rows, each with the next id.
ghost use Rattle.std.specs.Prelude.{◌≡◌, ◌<◌, ◌∷◌, [], All, length, replicate, IfOk, OnOk};
ghost use Rattle.tree_model.specs.storm_values.Rows.{IsRow};
ghost use Rattle.tree_model.specs.topology_plan.Topology.{copies_of};
ghost use Rattle.tree_model.specs.topology_plan.Wired.{width_of, width_to};
ghost use Rattle.tree_model.specs.Trees.{copies_at, kids, kids_by};
ghost use Rattle.track_window.specs.Making.{Makes, node};

use crate::job::{Found, Job};
use std::alloc::AllocError;
use storm_ids::Ids;
use tree_model::Tuple;
use tree_model::storm_values::{Duplicate, Memory, Path, Root, Row, Rows};
use tree_model::topology_plan::{Grouping, Origin, Plan, Sub};
use tree_model::tuple_tickets::{Edge, Edges};

/// Where tuples are made: right below a path of a root.
#[derive(Clone, Copy)]
pub(crate) struct Below<'a> {
    pub(crate) root: Root,
    pub(crate) path: &'a Path,
}

/// Makes the tuples of rows, row by row. A row is copied for all of its tuples but the last.
pub(crate) fn make_rows<N: Ids>(
    plan: &Plan,
    from: Origin,
    below: &Below<'_>,
    rows: Rows,
    ids: &mut N,
    edges: &mut Edges,
    jobs: &mut Vec<Job>,
) -> Result<(), Memory>
    requires { All (IsRow (width_of plan.now from)) rows }
    ensures { OnOk result (Makes plan.now below.now.root below.now.path.now (kids plan.now from rows)
        edges.old jobs.old.items edges.new jobs.new.items) }
{
    for row in rows.into_vec() {
        make_row(plan, from, below, row, ids, edges, jobs)?;
    }
    Ok(())
}

/// Makes the tuples of a row, subscription by subscription.
pub(crate) fn make_row<N: Ids>(
    plan: &Plan,
    from: Origin,
    below: &Below<'_>,
    row: Row,
    ids: &mut N,
    edges: &mut Edges,
    jobs: &mut Vec<Job>,
) -> Result<(), Memory>
    requires { IsRow (width_of plan.now from) row }
    ensures { OnOk result (Makes plan.now below.now.root below.now.path.now (kids_by plan.now from row)
        edges.old jobs.old.items edges.new jobs.new.items) }
{
    let subs = plan.subs(from);
    if subs.is_empty() {
        return Ok(());
    }
    let last = subs.len() - 1;
    for place in 0..last {
        make_copies(plan, &subs[place], below, &row, ids, edges, jobs)?;
    }
    make_last(plan, &subs[last], below, row, ids, edges, jobs)?;
    Ok(())
}

/// Makes copies of a row for the consumer of a subscription.
fn make_copies<N: Ids>(
    plan: &Plan,
    sub: &Sub,
    below: &Below<'_>,
    row: &Row,
    ids: &mut N,
    edges: &mut Edges,
    jobs: &mut Vec<Job>,
) -> Result<(), Memory>
    requires there { sub.now.to < length plan.now.components }
    requires row { IsRow (width_to plan.now sub.now.to) row.now }
    ensures { OnOk result (Makes plan.now below.now.root below.now.path.now
        (copies_at plan.now row.now sub.now)
        edges.old jobs.old.items edges.new jobs.new.items) }
{
    make_same(
        plan,
        sub.to,
        copies(plan, sub),
        below,
        row,
        ids,
        edges,
        jobs,
    )
}

/// Makes the tuples of a row for the consumer of a subscription, the last of which has the row
/// itself.
fn make_last<N: Ids>(
    plan: &Plan,
    sub: &Sub,
    below: &Below<'_>,
    row: Row,
    ids: &mut N,
    edges: &mut Edges,
    jobs: &mut Vec<Job>,
) -> Result<(), Memory>
    requires there { sub.now.to < length plan.now.components }
    requires row { IsRow (width_to plan.now sub.now.to) row }
    ensures { OnOk result (Makes plan.now below.now.root below.now.path.now
        (copies_at plan.now row sub.now)
        edges.old jobs.old.items edges.new jobs.new.items) }
{
    let count = copies(plan, sub);
    if count == 0 {
        return Ok(());
    }
    make_same(plan, sub.to, count - 1, below, &row, ids, edges, jobs)?;
    make(plan, below, sub.to, row, ids, edges, jobs)?;
    Ok(())
}

/// Makes so many copies of a row for a component.
fn make_same<N: Ids>(
    plan: &Plan,
    component: u32,
    count: u32,
    below: &Below<'_>,
    row: &Row,
    ids: &mut N,
    edges: &mut Edges,
    jobs: &mut Vec<Job>,
) -> Result<(), Memory>
    requires there { component < length plan.now.components }
    requires row { IsRow (width_to plan.now component) row.now }
    ensures { OnOk result (Makes plan.now below.now.root below.now.path.now
        (replicate count (node component row.now))
        edges.old jobs.old.items edges.new jobs.new.items) }
{
    for _ in 0..count {
        make(plan, below, component, row.copy()?, ids, edges, jobs)?;
    }
    Ok(())
}

/// Makes a tuple of a row, as the next child.
fn make<N: Ids>(
    plan: &Plan,
    below: &Below<'_>,
    component: u32,
    row: Row,
    ids: &mut N,
    edges: &mut Edges,
    jobs: &mut Vec<Job>,
) -> Result<(), Memory>
    requires there { component < length plan.now.components }
    requires row { IsRow (width_to plan.now component) row }
    ensures { OnOk result (Makes plan.now below.now.root below.now.path.now
        (node component row ∷ []) edges.old jobs.old.items edges.new jobs.new.items) }
{
    let path = below.path.child(next_number(edges)?)?;
    let id = ids.next();
    let edge = Edge {
        path: path.copy()?,
        id,
    };
    edges.push(edge)?;
    jobs.push(Job {
        tuple: Tuple {
            root: below.root,
            edge: Edge { path, id },
            component,
            row,
        },
        found: Found::Waits,
    })?;
    Ok(())
}

/// The number of the next child. There are none from 2^32 on.
fn next_number(edges: &Edges) -> Result<u32, Memory>
    ensures { IfOk result (λ number. number ≡ length edges.now) }
{
    let number = edges.len();
    if number > u32::MAX as usize {
        return Err(AllocError);
    }
    Ok(number as u32)
}

/// How many copies of a row go to the consumer of a subscription.
fn copies(plan: &Plan, sub: &Sub) -> u32
    requires { sub.now.to < length plan.now.components }
    ensures { result ≡ copies_of plan.now sub.now }
{
    match sub.grouping {
        Grouping::All => plan.component(sub.to).tasks,
        _ => 1,
    }
}
