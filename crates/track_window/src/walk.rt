//! A walk through the topology, depth by depth: what it keeps, and what is added for each tuple
//! that was executed.
ghost use Rattle.std.specs.Prelude.{◌≡◌, ◌≤◌, ◌<◌, ◌∷◌, ◌^◌, ℕ, [], List, Some, None, length, replicate, All, IfOk, OnOk};
ghost use Rattle.tree_model.specs.bolt_ops.RowOp.{Custom};
ghost use Rattle.tree_model.specs.storm_values.Rows.{IsRow};
ghost use Rattle.tree_model.specs.topology_plan.Topology.{Topology};
ghost use Rattle.tree_model.specs.topology_plan.Wired.{width_of};
ghost use Rattle.tree_model.specs.tuple_tickets.Edges.{xor_ids};
ghost use Rattle.tree_model.specs.tuple_tickets.Trees.{goes, fails};
ghost use Rattle.tree_model.specs.declared.messages.AckMsg.TheVariants as msg;
ghost use Rattle.tree_model.specs.Courses.{course_at};
ghost use Rattle.tree_model.specs.Trees.{kids, kids_of, write_of};
ghost use Rattle.state_tallies.specs.Tallies.{count_of};
ghost use Rattle.tuple_account.specs.Issued.{draw_from, node_of};
ghost use Rattle.track_window.specs.Jobs.{IsFound, IsSafe, tuples_in};
ghost use Rattle.tree_model.specs.Lists.{root_of};
ghost use Rattle.window_account.specs.Calls.{call_of, noted, number_of};
ghost use Rattle.track_window.specs.Acts.{call_of_act};
ghost use Rattle.track_window.specs.Walks.{Begins, Steps, Told};

use crate::job::{Act, Found, Job};
use crate::make::{Below, make_row, make_rows};
use message_lists::Notes;
use state_tallies::Tallies;
use std::alloc::{AllocError, Global};
use storm_ids::Ids;
use tree_model::bolt_ops::RowOp;
use tree_model::storm_values::{Duplicate, Few, Memory, Path, Root, Row, Rows};
use tree_model::topology_plan::{Origin, Plan};
use tree_model::tuple_tickets::{Edge, Edges};
use tree_model::{AckMsg, Done, Draw, FailNote, Init, Tuple, Write};

/// The source that draws name.
const SOURCE: u32 = 0;

/// What a walk has so far.
#[derive(Drop)]
pub(crate) struct Walk {
    pub(crate) alloc: Global,
    /// The messages of each record.
    pub(crate) notes: Vec<Notes>,
    pub(crate) tallies: Tallies,
    /// The tuples of the next depth, in the order of roots and paths.
    pub(crate) jobs: Vec<Job>,
    /// The calls that stand for the messages of this depth.
    pub(crate) acts: Vec<Act>,
    /// How many ids were drawn, which ends at 2^64 - 1.
    pub(crate) given: u64,
}

impl Walk {
    /// A walk of so many records, before its first step.
    pub(crate) fn new(alloc: Global, plan: &Plan, count: usize) -> Result<Walk, Memory>
        ensures notes { IfOk result (λ walk. walk.notes.items ≡ replicate count []) }
        ensures jobs { IfOk result (λ walk. walk.jobs.items ≡ []) }
        ensures acts { IfOk result (λ walk. walk.acts.items ≡ []) }
        ensures components { IfOk result
            (λ walk. length walk.tallies ≡ length plan.now.components) }
        ensures tallies { IfOk result (λ walk. (state : ℕ) (key : List ℕ) →
            count_of walk.tallies state key ≡ 0) }
    {
        Ok(Walk {
            alloc,
            notes: no_notes(alloc, count)?,
            tallies: Tallies::new(alloc, plan.components())?,
            jobs: Vec::new(alloc),
            acts: Vec::new(alloc),
            given: 0,
        })
    }

    /// Begins the record of a number: its first tuples, and its init. It answers the word of the
    /// init.
    pub(crate) fn begin<N: Ids>(
        &mut self,
        plan: &Plan,
        number: u32,
        attempt: u32,
        row: &Row,
        ids: &mut N,
    ) -> Result<u64, Memory>
        requires row { IsRow (width_of plan.now Origin.Spout) row.now }
        requires number { number < length self.old.notes.items }
        ensures { IfOk result
            (λ word. Begins plan.now number attempt row.now word self.old self.new) }
    {
        let root = Root {
            txid: u64::from(number) + 1,
            attempt,
        };
        let draw = self.next_draw();
        let mut edges = Edges::new(self.alloc);
        let path = Path::new(self.alloc);
        let below = Below { root, path: &path };
        let row = row.copy()?;
        make_row(
            plan,
            Origin::Spout,
            &below,
            row,
            ids,
            &mut edges,
            &mut self.jobs,
        )?;
        self.drew(&edges);
        let word = word_of(edges.as_slice());
        self.note(number, AckMsg::Init(Init { root, edges, draw }))?;
        Ok(word)
    }

    /// Notes a message behind the others of its record.
    fn note(&mut self, number: u32, message: AckMsg) -> Result<(), Memory>
        requires number { number ≡ number_of (root_of message) }
        requires within { number < length self.old.notes.items }
        ensures notes { OnOk result
            (self.new.notes.items ≡ noted self.old.notes.items message) }
        ensures jobs { self.new.jobs ≡ self.old.jobs }
        ensures acts { self.new.acts ≡ self.old.acts }
        ensures tallies { self.new.tallies ≡ self.old.tallies }
    {
        self.notes[number as usize].push(message)
    }

    /// Adds what came of a tuple.
    fn settle<N: Ids, O: RowOp>(
        &mut self,
        plan: &Plan,
        _custom: &O,
        job: Job,
        ids: &mut N,
    ) -> Result<(), Memory>
        requires safe { IsSafe plan.now (length self.old.notes.items) job.tuple job.found }
        requires found { IsFound plan.now (O.meaning _custom.now) job.tuple job.found }
        requires few { length self.old.notes.items < 2 ^ 32 }
        requires components { length self.old.tallies ≡ length plan.now.components }
        ensures { OnOk result
            (Steps plan.now (O.meaning _custom.now) (job.tuple ∷ []) self.old self.new) }
    {
        let Job { tuple, found } = job;
        match found {
            Found::Waits | Found::NoMemory => Err(AllocError),
            Found::Mute => Ok(()),
            Found::Failed => self.fail(tuple),
            Found::Wrote(write) => self.write(tuple, write),
            Found::Rows(rows) => self.go_on(plan, tuple, rows, ids),
        }
    }

    /// The same in a walk of so many records.
    fn settle_at<N: Ids, O: RowOp>(
        &mut self,
        plan: &Plan,
        custom: &O,
        count: usize,
        job: Job,
        ids: &mut N,
    ) -> Result<(), Memory>
        requires count { count ≡ length self.old.notes.items }
        requires safe { IsSafe plan.now count job.tuple job.found }
        requires found { IsFound plan.now (O.meaning custom.now) job.tuple job.found }
        requires few { length self.old.notes.items < 2 ^ 32 }
        requires components { length self.old.tallies ≡ length plan.now.components }
        ensures { OnOk result
            (Steps plan.now (O.meaning custom.now) (job.tuple ∷ []) self.old self.new) }
    {
        self.settle(plan, custom, job, ids)
    }

    /// Adds what came of all tuples, in order, in a walk of so many records.
    pub(crate) fn settle_all<N: Ids, O: RowOp>(
        &mut self,
        plan: &Plan,
        custom: &O,
        count: usize,
        jobs: Vec<Job>,
        ids: &mut N,
    ) -> Result<(), Memory>
        requires count { count ≡ length self.old.notes.items }
        requires safe { All (λ j. IsSafe plan.now count j.tuple j.found) jobs.items }
        requires found { All (λ j. IsFound plan.now (O.meaning custom.now) j.tuple j.found)
            jobs.items }
        requires few { length self.old.notes.items < 2 ^ 32 }
        requires components { length self.old.tallies ≡ length plan.now.components }
        ensures { OnOk result
            (Steps plan.now (O.meaning custom.now) (tuples_in jobs.items) self.old self.new) }
    {
        for job in jobs {
            self.settle_at(plan, custom, count, job, ids)?;
        }
        Ok(())
    }

    /// A tuple failed.
    fn fail(&mut self, tuple: Tuple) -> Result<(), Memory>
        requires least { 1 ≤ tuple.root.txid }
        requires most { tuple.root.txid ≤ length self.old.notes.items }
        requires few { length self.old.notes.items < 2 ^ 32 }
        ensures { OnOk result ((t : Topology) (custom : Custom)
            → course_at t custom tuple.root.attempt (node_of tuple) ≡ fails
            → Steps t custom (tuple ∷ []) self.old self.new) }
    {
        let Tuple { root, edge, .. } = tuple;
        let number = number_of(root);
        let path = edge.path;
        self.tell(
            number,
            Act::Fail(number),
            AckMsg::Failed(FailNote { root, path }),
        )
    }

    /// A tuple of a state was written.
    fn write(&mut self, tuple: Tuple, write: Write) -> Result<(), Memory>
        requires least { 1 ≤ tuple.root.txid }
        requires most { tuple.root.txid ≤ length self.old.notes.items }
        requires few { length self.old.notes.items < 2 ^ 32 }
        requires state { write.state < length self.old.tallies }
        ensures { OnOk result ((t : Topology) (custom : Custom)
            → course_at t custom tuple.root.attempt (node_of tuple) ≡ goes
            → write_of t (node_of tuple) ≡ Some write → kids_of t custom (node_of tuple) ≡ []
            → Steps t custom (tuple ∷ []) self.old self.new) }
    {
        self.tallies.add(write.state, &write.key, 1)?;
        let produced = Edges::new(self.alloc);
        let writes = Few::one(self.alloc, write);
        let draw = self.next_draw();
        self.done(tuple, produced, draw, writes)
    }

    /// A tuple of a bolt made these rows.
    fn go_on<N: Ids>(
        &mut self,
        plan: &Plan,
        tuple: Tuple,
        rows: Rows,
        ids: &mut N,
    ) -> Result<(), Memory>
        requires least { 1 ≤ tuple.root.txid }
        requires most { tuple.root.txid ≤ length self.old.notes.items }
        requires few { length self.old.notes.items < 2 ^ 32 }
        requires rows { All (IsRow (width_of plan.now (Origin.Component tuple.component))) rows }
        ensures { OnOk result ((custom : Custom)
            → course_at plan.now custom tuple.root.attempt (node_of tuple) ≡ goes
            → write_of plan.now (node_of tuple) ≡ None
            → kids_of plan.now custom (node_of tuple)
            ≡ kids plan.now (Origin.Component tuple.component) rows
            → Steps plan.now custom (tuple ∷ []) self.old self.new) }
    {
        let draw = self.next_draw();
        let mut edges = Edges::new(self.alloc);
        let below = Below {
            root: tuple.root,
            path: &tuple.edge.path,
        };
        let from = Origin::Component(tuple.component);
        make_rows(plan, from, &below, rows, ids, &mut edges, &mut self.jobs)?;
        self.drew(&edges);
        let writes = Few::new(self.alloc);
        self.done(tuple, edges, draw, writes)
    }

    /// A tuple was executed, with these edges of its children and its writes.
    fn done(
        &mut self,
        tuple: Tuple,
        produced: Edges,
        draw: Draw,
        writes: Few<Write>,
    ) -> Result<(), Memory>
        requires least { 1 ≤ tuple.root.txid }
        requires most { tuple.root.txid ≤ length self.old.notes.items }
        requires few { length self.old.notes.items < 2 ^ 32 }
        ensures { OnOk result (Told (msg.Done (record {
          root = tuple.root;
          consumed = tuple.edge;
          produced = produced;
          draw = draw;
          writes = writes;
        })) self.old self.new) }
    {
        let Tuple { root, edge, .. } = tuple;
        let number = number_of(root);
        let word = edge.id ^ word_of(produced.as_slice());
        let done = AckMsg::Done(Done {
            root,
            consumed: edge,
            produced,
            draw,
            writes,
        });
        self.tell(number, Act::Ack(number, word), done)
    }

    /// Notes a message, and adds the call that stands for it.
    fn tell(&mut self, number: u32, act: Act, message: AckMsg) -> Result<(), Memory>
        requires number { number ≡ number_of (root_of message) }
        requires within { number < length self.old.notes.items }
        requires act { call_of_act act ≡ call_of message }
        ensures { OnOk result (Told message self.old self.new) }
    {
        self.acts.push(act)?;
        self.notes[number as usize].push(message)?;
        Ok(())
    }

    /// Where the next ids come from.
    fn next_draw(&self) -> Draw
        ensures { result ≡ draw_from 0 self.now.given }
    {
        draw_from(SOURCE, self.given)
    }

    /// The ids of these edges were drawn.
    fn drew(&mut self, edges: &Edges)
        ensures jobs { self.new.jobs ≡ self.old.jobs }
        ensures notes { self.new.notes ≡ self.old.notes }
        ensures acts { self.new.acts ≡ self.old.acts }
        ensures tallies { self.new.tallies ≡ self.old.tallies }
    {
        self.given = self.given.saturating_add(edges.len() as u64);
    }
}

/// No messages of so many records.
fn no_notes(alloc: Global, count: usize) -> Result<Vec<Notes>, Memory>
    ensures { IfOk result (λ made. made.items ≡ replicate count []) }
{
    let mut notes = Vec::with_capacity(alloc, count)?;
    for _ in 0..count {
        notes.push(Notes::new(alloc))?;
    }
    Ok(notes)
}

/// The draw of a source's next words, where it gave so many.
fn draw_from(source: u32, given: u64) -> Draw
    ensures { result ≡ draw_from source given }
{
    Draw {
        source,
        first: given,
    }
}

/// The place of a root's record.
fn number_of(root: Root) -> u32
    requires least { 1 ≤ root.txid }
    requires fits { root.txid < 2 ^ 32 }
    ensures { result ≡ number_of root }
{
    (root.txid - 1) as u32
}

/// The XOR of the ids of edges.
fn word_of(edges: &[Edge]) -> u64
    ensures { result ≡ xor_ids edges.now }
{
    let mut word = 0;
    for edge in edges {
        word ^= edge.id;
    }
    word
}
