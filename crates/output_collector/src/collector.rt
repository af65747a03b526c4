ghost use Rattle.std.specs.Prelude.{◌≡◌, ◌≤◌, ◌+◌, ◌-◌, ◌^◌, [], ◌∷◌, ◌++◌, All, length, map, IfOk, OnOk};
ghost use Rattle.std.specs.List.{range_with_len};
ghost use Rattle.tuple_account.specs.storm_values.Limits.{most_tasks_in_all};
ghost use Rattle.groupings.specs.Allowed.{IsLane, told};
ghost use Rattle.groupings.specs.Routing.{moved};
ghost use Rattle.tuple_account.specs.topology_plan.Valid.{IsValid};
ghost use Rattle.tuple_account.specs.topology_plan.Wired.{IsWired};
ghost use Rattle.tuple_account.specs.tree_model.Trees.{kids, kids_by};
ghost use Rattle.tuple_account.specs.Issued.{draw_from, edges_of};
ghost use Rattle.tuple_account.specs.Places.{ids_of};
ghost use Rattle.output_collector.specs.Collectors.{outlet_of, ids_in, source_of, given_by, IsStarted};
ghost use Rattle.output_collector.specs.Draws.{Draws, given_after};
ghost use Rattle.output_collector.specs.Outlets.{HasItsLanes, IsSameSource, after_rows, parcels_for, tasks_for_row, tuples_for};
ghost use Rattle.output_collector.specs.Sending.{AreFew, BeginsWith, Sends, nodes_at, sent};

use crate::outlet::{Outlet, Route};
use groupings::Targets;
use std::alloc::{AllocError, Global};
use storm_ids::{Ids, Words};
use tuple_account::storm_values::{Memory, Path, Root, Row, Rows};
use tuple_account::topology_plan::{Origin, Plan};
use tuple_account::tree_model::{Draw, Edge, Edges, Parcel, Parcels, Tuple};

/// Emits the rows of one source, each tuple with an id of its own. It serves a task or the spout
/// for a whole run.
#[derive(Drop)]
pub struct Collector<'p, I: Ids> {
    alloc: Global,
    outlet: Outlet<'p>,
    ids: I,
    source: u32,
    given: u64,
}

/// The edges of the tuples that a call emitted, in path order, and where their ids come from.
#[derive(Debug, Drop)]
pub struct Emitted {
    pub edges: Edges,
    pub draw: Draw,
}

/// Where the tuples of a call stand: right below a path.
#[derive(Drop)]
struct Below<'a> {
    root: Root,
    path: &'a Path,
}

/// Where one tuple goes.
#[derive(Clone, Copy)]
struct Stop {
    component: u32,
    task: u32,
}

impl<'p, I: Ids> Collector<'p, I> {
    /// The collector of a source of rows, whose ids come from the source of words of a number. It
    /// draws one start word for each subscription first, of whatever grouping.
    pub fn new(
        alloc: Global,
        plan: &'p Plan,
        from: Origin,
        source: u32,
        mut ids: I,
    ) -> Result<Self, Memory>
        ensures { IfOk result (IsStarted I.tells plan.now from source ids) }
    {
        let starts = start_words(alloc, &mut ids, plan.subs(from).len())?;
        Ok(Collector {
            alloc,
            outlet: Outlet::new(alloc, plan, from, starts.as_slice())?,
            ids,
            source,
            given: starts.len() as u64,
        })
    }

    /// Emits rows below a path, behind what `into` holds: each row to the consumers of each
    /// subscription in turn, each tuple with the next id. It looks up each row and subscription
    /// once, and a row is copied for all of its tuples but the last. More than 2^32 tuples of one
    /// call are told as want of memory.
    pub fn emit(
        &mut self,
        root: Root,
        path: &Path,
        rows: Rows,
        into: &mut Parcels,
    ) -> Result<Emitted, Memory>
        ensures parcels { IfOk result (λ emitted. into.new ≡ into.old
            ++ parcels_for (outlet_of self.old) root path.now rows (ids_of emitted.edges)) }
        ensures edges { IfOk result (λ emitted. emitted.edges
            ≡ edges_of (tuples_for (outlet_of self.old) root path.now rows
            (ids_of emitted.edges))) }
        ensures enough { IfOk result (λ emitted. length emitted.edges
            ≡ length (kids (outlet_of self.old).topology (outlet_of self.old).from rows)) }
        ensures draw { IfOk result
            (λ emitted. emitted.draw ≡ draw_from (source_of self.old) (given_by self.old)) }
        ensures drawn { IfOk result (λ emitted.
            Draws I.tells (ids_in self.old) (ids_of emitted.edges) (ids_in self.new)) }
        ensures given { IfOk result (λ emitted.
            given_by self.new ≡ given_after (given_by self.old) (length emitted.edges)) }
        ensures outlet { OnOk result (outlet_of self.new ≡ after_rows rows (outlet_of self.old)) }
        ensures same_source { IsSameSource (outlet_of self.new) (outlet_of self.old) }
        ensures source { source_of self.new ≡ source_of self.old }
        ensures kept { BeginsWith into.new into.old }
    {
        let draw = draw_from(self.source, self.given);
        let room = if self.outlet.subs_len() == 0 {
            0
        } else {
            rows.len()
        };
        let mut edges = Edges::from_vec(Vec::with_capacity(self.alloc, room)?);
        let below = Below { root, path };
        for row in rows.into_vec() {
            self.emit_row(&below, row, &mut edges, into)?;
        }
        Ok(Emitted { edges, draw })
    }

    /// Emits one row along each subscription.
    fn emit_row(
        &mut self,
        below: &Below<'_>,
        row: Row,
        edges: &mut Edges,
        into: &mut Parcels,
    ) -> Result<(), Memory>
        ensures sends { OnOk result (Sends I.tells below.now.root below.now.path.now
            (kids_by self.old.outlet.topology self.old.outlet.from row)
            (tasks_for_row self.old.outlet.lanes row)
            (sent self.old edges.old into.old) (sent self.new edges.new into.new)) }
        ensures lanes { HasItsLanes self.old.outlet }
        ensures outlet { OnOk result (self.new.outlet
            ≡ record self.old.outlet { lanes = map moved self.old.outlet.lanes }) }
        ensures same_source { IsSameSource self.new.outlet self.old.outlet }
        ensures source { self.new.source ≡ self.old.source }
        ensures kept { BeginsWith into.new into.old }
    {
        self.outlet.facts();
        let Some(last) = self.outlet.subs_len().checked_sub(1) else {
            return Ok(());
        };
        for sub in 0..last {
            let route = self.outlet.route(sub, &row);
            self.send_copies(below, route, &row, edges, into)?;
        }
        let route = self.outlet.route(last, &row);
        self.send_last(below, route, row, edges, into)
    }

    /// Sends copies of a row along a route.
    fn send_copies(
        &mut self,
        below: &Below<'_>,
        route: Route,
        row: &Row,
        edges: &mut Edges,
        into: &mut Parcels,
    ) -> Result<(), Memory>
        requires { AreFew route.targets }
        ensures sends { OnOk result (Sends I.tells below.now.root below.now.path.now
            (nodes_at route.component row.now (told route.targets)) (told route.targets)
            (sent self.old edges.old into.old) (sent self.new edges.new into.new)) }
        ensures outlet { self.new.outlet ≡ self.old.outlet }
        ensures source { self.new.source ≡ self.old.source }
        ensures kept { BeginsWith into.new into.old }
    {
        let component = route.component;
        match route.targets {
            Targets::One(task) => {
                self.send(below, Stop { component, task }, row.copy()?, edges, into)
            }
            Targets::All { first, count } => {
                let stop = Stop {
                    component,
                    task: first,
                };
                self.send_from(below, stop, count, row, edges, into)
            }
        }
    }

    /// Sends a row along a route, itself to the last task and copies to the others.
    fn send_last(
        &mut self,
        below: &Below<'_>,
        route: Route,
        row: Row,
        edges: &mut Edges,
        into: &mut Parcels,
    ) -> Result<(), Memory>
        requires { AreFew route.targets }
        ensures sends { OnOk result (Sends I.tells below.now.root below.now.path.now
            (nodes_at route.component row (told route.targets)) (told route.targets)
            (sent self.old edges.old into.old) (sent self.new edges.new into.new)) }
        ensures outlet { self.new.outlet ≡ self.old.outlet }
        ensures source { self.new.source ≡ self.old.source }
        ensures kept { BeginsWith into.new into.old }
    {
        let component = route.component;
        match route.targets {
            Targets::One(task) => self.send(below, Stop { component, task }, row, edges, into),
            Targets::All { first, count } => {
                let stop = Stop {
                    component,
                    task: first,
                };
                self.send_from(below, stop, count - 1, &row, edges, into)?;
                let task = first + (count - 1);
                self.send(below, Stop { component, task }, row, edges, into)
            }
        }
    }

    /// Sends copies of a row to so many tasks of a component, from one on.
    fn send_from(
        &mut self,
        below: &Below<'_>,
        first: Stop,
        count: u32,
        row: &Row,
        edges: &mut Edges,
        into: &mut Parcels,
    ) -> Result<(), Memory>
        requires { first.task + count ≤ most_tasks_in_all }
        ensures sends { OnOk result (Sends I.tells below.now.root below.now.path.now
            (nodes_at first.component row.now (range_with_len first.task count))
            (range_with_len first.task count)
            (sent self.old edges.old into.old) (sent self.new edges.new into.new)) }
        ensures outlet { self.new.outlet ≡ self.old.outlet }
        ensures source { self.new.source ≡ self.old.source }
        ensures kept { BeginsWith into.new into.old }
    {
        let component = first.component;
        for task in first.task..first.task + count {
            self.send(below, Stop { component, task }, row.copy()?, edges, into)?;
        }
        Ok(())
    }

    /// Sends a row to a task as the next child, with the next id.
    fn send(
        &mut self,
        below: &Below<'_>,
        to: Stop,
        row: Row,
        edges: &mut Edges,
        into: &mut Parcels,
    ) -> Result<(), Memory>
        ensures sends { OnOk result (Sends I.tells below.now.root below.now.path.now
            (record { component = to.component; row = row } ∷ []) (to.task ∷ [])
            (sent self.old edges.old into.old) (sent self.new edges.new into.new)) }
        ensures outlet { self.new.outlet ≡ self.old.outlet }
        ensures source { self.new.source ≡ self.old.source }
        ensures kept { BeginsWith into.new into.old }
    {
        let path = below.path.child(next_number(edges)?)?;
        let id = self.draw();
        edges.push(Edge {
            path: path.copy()?,
            id,
        })?;
        into.push(Parcel::ToTask(
            to.task,
            Tuple {
                root: below.root,
                edge: Edge { path, id },
                component: to.component,
                row,
            },
        ))?;
        Ok(())
    }

    /// The next id.
    fn draw(&mut self) -> u64
        ensures drawn { Draws I.tells self.old.ids (result ∷ []) self.new.ids }
        ensures given { self.new.given ≡ given_after self.old.given 1 }
        ensures outlet { self.new.outlet ≡ self.old.outlet }
        ensures source { self.new.source ≡ self.old.source }
    {
        self.given = self.given.saturating_add(1);
        self.ids.next()
    }

    /// Where the ids of the next call's tuples come from.
    pub fn next_draw(&self) -> Draw
        ensures { result ≡ draw_from (source_of self.now) (given_by self.now) }
    {
        draw_from(self.source, self.given)
    }

    /// What every collector keeps. It does nothing.
    pub fn facts(&self)
        ensures valid { IsValid (outlet_of self.now).topology }
        ensures wired { IsWired (outlet_of self.now).topology }
        ensures lanes { HasItsLanes (outlet_of self.now) }
        ensures sound { All IsLane (outlet_of self.now).lanes }
        ensures fits { given_by self.now ≤ 2 ^ 64 - 1 }
    {
        self.outlet.facts();
        // brings in that the number fits its type
        let _ = draw_from(self.source, self.given);
    }
}

/// The draw of a source's next words, where it gave so many.
fn draw_from(source: u32, given: u64) -> Draw
    ensures value { result ≡ draw_from source given }
    ensures fits { given ≤ 2 ^ 64 - 1 }
{
    Draw {
        source,
        first: given,
    }
}

/// The number of the next child. There are none from 2^32 on.
fn next_number(edges: &Edges) -> Result<u32, Memory>
    ensures { IfOk result (λ number. number ≡ length edges.now) }
{
    let number = edges.len();
    if number > u32::MAX as usize {
        return Err(AllocError);
    }
    Ok(number as u32)
}

/// So many first words of a source.
fn start_words<I: Ids>(alloc: Global, ids: &mut I, count: usize) -> Result<Words, Memory>
    ensures drawn { IfOk result (λ words. Draws I.tells ids.old words ids.new) }
    ensures count { IfOk result (λ words. length words ≡ count) }
{
    let mut words = Words::from_vec(Vec::with_capacity(alloc, count)?);
    for _ in 0..count {
        words.push(ids.next())?;
    }
    Ok(words)
}
