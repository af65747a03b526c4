ghost use Rattle.std.specs.Prelude.{◌≡◌, ◌<◌, [], ◌∷◌, ◌++◌, None, All, IfOk};
ghost use Rattle.std.specs.Option.{option_to_list};
ghost use Rattle.groupings.specs.Allowed.{IsLane};
ghost use Rattle.tuple_account.specs.topology_plan.Topology.{component_of, tasks_in_all};
ghost use Rattle.tuple_account.specs.topology_plan.Valid.{IsValid};
ghost use Rattle.tuple_account.specs.topology_plan.Wired.{IsWired};
ghost use Rattle.tuple_account.specs.tree_model.declared.messages.AckMsg.TheVariants.{Failed};
ghost use Rattle.tuple_account.specs.tree_model.Trees.{exec_at, write_of};
ghost use Rattle.tuple_account.specs.Issued.{node_of};
ghost use Rattle.tuple_account.specs.Histories.{acker_of, to_acker};
ghost use Rattle.tuple_account.specs.message_lists.Packed.{HasKeyText, done_lent};
ghost use Rattle.output_collector.specs.Collectors.{IsStarted, outlet_of};
ghost use Rattle.output_collector.specs.Outlets.{HasItsLanes};
ghost use Rattle.bolt_task.specs.Places.{IsPlaced};

use output_collector::{Collector, Emitted};
use std::alloc::Global;
use storm_ids::Ids;
use tuple_account::acker_core::{Acker, Verdict};
use tuple_account::bolt_ops::{Outcome, RowOp, exec};
use tuple_account::message_lists::LentDone;
use tuple_account::storm_values::{Few, Memory, Root, Rows};
use tuple_account::topology_plan::{Body, Origin, Plan};
use tuple_account::tree_model::{
    AckMsg, Done, Draw, FailNote, LentWrite, Parcel, Parcels, Tuple, Write, write_at,
};

/// What comes of a tuple whose acker may meet at once what it is told.
#[derive(Debug, Drop)]
pub enum AtOnce {
    /// Nothing was done.
    No,
    /// The acker met it, and tells this.
    Met(Option<Verdict>),
}

/// One task of a bolt, or one part of a state.
#[derive(Drop)]
pub struct BoltTask<'p, I: Ids> {
    alloc: Global,
    plan: &'p Plan,
    component: u32,
    task: u32,
    collector: Collector<'p, I>,
    // where the next key is written
    room: String,
    ghost placed: { IsPlaced plan.now component task collector },
}

impl<'p, I: Ids> BoltTask<'p, I> {
    ghost use Rattle.bolt_task.specs.Executing.{Executes, GoesOn, IsFor, IsSameTask, WritesAtOnce, collector_in, component_at, number_of, topology_at};

    /// The task of a number, whose source of ids has the same number. It draws the start words of
    /// its component's subscriptions.
    pub fn new(alloc: Global, plan: &'p Plan, task: u32, ids: I) -> Result<Self, Memory>
        requires { task < tasks_in_all plan.now }
        ensures topology { IfOk result (λ made. topology_at made ≡ plan.now) }
        ensures component { IfOk result (λ made. component_at made ≡ component_of plan.now task) }
        ensures number { IfOk result (λ made. number_of made ≡ task) }
        ensures started { IfOk result (λ made. IsStarted I.tells plan.now
            (Origin.Component (component_of plan.now task)) task ids (collector_in made)) }
    {
        let component = plan.component_of(task);
        let from = Origin::Component(component);
        let collector = Collector::new(alloc, plan, from, task, ids)?;
        Ok(BoltTask {
            alloc,
            plan,
            component,
            task,
            collector,
            room: String::new(alloc),
        })
    }

    /// Executes a tuple: the tuples that it makes, and then what its acker is told. A failed tuple
    /// is told, and of a mute one nothing comes. A state makes no tuples and tells its write. What
    /// the operation costs, and the rows that it makes.
    ///
    /// The parcels come in the memory of `room`, which grows where they need more. What `room`
    /// holds is dropped first.
    pub fn execute<O: RowOp>(
        &mut self,
        tuple: Tuple,
        custom: &O,
        mut room: Vec<Parcel>,
    ) -> Result<Parcels, Memory>
        requires { IsFor self.old tuple }
        ensures executed { IfOk result
            (Executes I.tells (O.meaning custom.now) tuple self.old self.new) }
        ensures same_task { IsSameTask self.new self.old }
    {
        self.collector.facts();
        room.clear();
        match self.attempt(&tuple, custom)? {
            Outcome::Rows(rows) => self.go_on(tuple, rows, room),
            Outcome::Fail => self.fail(tuple, room),
            Outcome::Mute => Ok(Parcels::from_vec(room)),
        }
    }

    /// Executes a tuple at a part of a state, and has its acker meet at once what it is told: no
    /// message is made of it, and none is handed over. A bolt's task does nothing.
    pub fn write_at_once(&mut self, tuple: &Tuple, acker: &mut Acker) -> Result<AtOnce, Memory>
        requires { IsFor self.old tuple.now }
        ensures wrote { IfOk result
            (WritesAtOnce tuple.now self.old self.new acker.old acker.new) }
        ensures same_task { IsSameTask self.new self.old }
    {
        self.collector.facts();
        let Some((number, parent)) = tuple.edge.path.as_slice().split_last() else {
            return Ok(AtOnce::No);
        };
        let Some(write) = self.write(tuple)? else {
            return Ok(AtOnce::No);
        };
        let draw = self.collector.next_draw();
        let done = done_of(tuple, parent, *number, draw, &write);
        let told = acker.step_done(&done)?;
        Ok(AtOnce::Met(told))
    }

    /// What every task keeps. It does nothing.
    pub fn facts(&self)
        ensures placed { IsPlaced (topology_at self.now) (component_at self.now)
            (number_of self.now) (collector_in self.now) }
        ensures valid { IsValid (topology_at self.now) }
        ensures wired { IsWired (topology_at self.now) }
        ensures lanes { HasItsLanes (outlet_of (collector_in self.now)) }
        ensures sound { All IsLane (outlet_of (collector_in self.now)).lanes }
    {
        self.plan.facts();
        self.collector.facts();
    }

    /// What an attempt at a tuple comes to.
    fn attempt<O: RowOp>(&self, tuple: &Tuple, custom: &O) -> Result<Outcome, Memory>
        requires { IsFor self.now tuple.now }
        ensures { IfOk result (λ outcome. outcome ≡ exec_at self.now.plan.now
            (O.meaning custom.now) tuple.now.root.attempt (node_of tuple.now)) }
    {
        match &self.plan.component(self.component).body {
            Body::Bolt(op) => exec(self.alloc, op, &tuple.row, tuple.root.attempt, custom),
            Body::State(_) => Ok(Outcome::Rows(Rows::new(self.alloc))),
        }
    }

    /// Emits the rows of a tuple, and tells that it is done.
    fn go_on(&mut self, tuple: Tuple, rows: Rows, mut room: Vec<Parcel>) -> Result<Parcels, Memory>
        requires for_it { IsFor self.old tuple }
        requires empty { room.items ≡ [] }
        ensures goes_on { IfOk result (GoesOn I.tells tuple rows
            (option_to_list (write_of self.old.plan.now (node_of tuple))) self.old.task
            self.old.collector self.new.collector) }
        ensures same_task { IsSameTask self.new self.old }
    {
        let writes = self.writes(&tuple)?;
        room.reserve(rows.len().saturating_add(1))?;
        let mut parcels = Parcels::from_vec(room);
        let root = tuple.root;
        let path = &tuple.edge.path;
        let Emitted { edges, draw } = self.collector.emit(root, path, rows, &mut parcels)?;
        let done = AckMsg::Done(Done {
            root,
            consumed: tuple.edge,
            produced: edges,
            draw,
            writes,
        });
        parcels.push(Parcel::ToAcker(self.acker_of(root), done))?;
        Ok(parcels)
    }

    /// Tells that a tuple failed.
    fn fail(&self, tuple: Tuple, room: Vec<Parcel>) -> Result<Parcels, Memory>
        requires { room.items ≡ [] }
        ensures { IfOk result (λ parcels. parcels ≡ to_acker self.now.plan.now
            (Failed (record { root = tuple.root; path = tuple.edge.path })) ∷ []) }
    {
        let mut parcels = Parcels::from_vec(room);
        let note = AckMsg::Failed(FailNote {
            root: tuple.root,
            path: tuple.edge.path,
        });
        parcels.push(Parcel::ToAcker(self.acker_of(tuple.root), note))?;
        Ok(parcels)
    }

    /// The write of a tuple, which a state alone makes.
    fn writes(&mut self, tuple: &Tuple) -> Result<Few<Write>, Memory>
        requires { IsFor self.old tuple.now }
        ensures writes { IfOk result (λ writes.
            writes ≡ option_to_list (write_of self.old.plan.now (node_of tuple.now))) }
        ensures collector { self.new.collector ≡ self.old.collector }
        ensures same_task { IsSameTask self.new self.old }
    {
        match self.write(tuple)? {
            Some(write) => Ok(Few::one(self.alloc, write)),
            None => Ok(Few::new(self.alloc)),
        }
    }

    /// The write of a tuple, if the task is a part of a state.
    fn write(&mut self, tuple: &Tuple) -> Result<Option<Write>, Memory>
        requires { IsFor self.old tuple.now }
        ensures write { IfOk result
            (λ write. write ≡ write_of self.old.plan.now (node_of tuple.now)) }
        ensures none { IfOk result (λ write. write ≡ None → self.new ≡ self.old) }
        ensures collector { self.new.collector ≡ self.old.collector }
        ensures same_task { IsSameTask self.new self.old }
    {
        let component = self.plan.component(self.component);
        let Body::State(spec) = &component.body else {
            return Ok(None);
        };
        let write = write_at(
            self.alloc,
            &mut self.room,
            self.component,
            component.tasks,
            spec,
            &tuple.row,
        )?;
        Ok(Some(write))
    }

    /// The acker of a root.
    pub fn acker_of(&self, root: Root) -> u32
        ensures { result ≡ acker_of (topology_at self.now) root }
    {
        self.plan.facts();
        (root.txid % u64::from(self.plan.ackers())) as u32
    }
}

// The done of a tuple of a part of a state, lent, where its path has these parts.
fn done_of<'n>(
    tuple: &'n Tuple,
    parent: &'n [u32],
    number: u32,
    draw: Draw,
    write: &'n Write,
) -> LentDone<'n>
    requires { tuple.now.edge.path ≡ parent.now ++ number ∷ [] }
    ensures is { done_lent result ≡ record {
      root = tuple.now.root;
      consumed = tuple.now.edge;
      produced = [];
      draw = draw;
      writes = write.now ∷ [];
    } }
    ensures text { HasKeyText result.write }
{
    LentDone {
        root: tuple.root,
        parent,
        number,
        id: tuple.edge.id,
        produced: &[],
        draw,
        write: Some(LentWrite {
            state: write.state,
            part: write.part,
            key: write.key.as_str().as_bytes(),
            amount: write.amount,
        }),
    }
}
