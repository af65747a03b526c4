ghost use Rattle.std.specs.Prelude.{◌≡◌, ◌≢◌, ◌<◌, ◌≤◌, ◌-◌, ◌∷◌, ◌++◌, ◌^◌, [], ℕ, false, None, length, map, IfOk, OnOk, OnErr};
ghost use Rattle.std.specs.List.{range_with_len};
ghost use Rattle.event_worlds.specs.attempt_fates.Fates.{IsOnce};
ghost use Rattle.event_worlds.specs.bolt_ops.RowOp.{Custom};
ghost use Rattle.event_worlds.specs.commit_order.Orders.{desk_of};
ghost use Rattle.event_worlds.specs.commit_order.declared.stop.Stop.TheVariants as stop;
ghost use Rattle.event_worlds.specs.commit_turns.Turns.{is_finished};
ghost use Rattle.event_engine.specs.Engines.{Answers, DecidesShort, Goes, Happens, IsIdle, IsReady, IsSeated, IsStill, IsThere, MayDecide, TakesTurn, TurnsShort, cut_in, has_ended, shape, sources, topology_in};
ghost use Rattle.event_engine.specs.Shutting.{shutting, shutting_steps};
ghost use Rattle.event_worlds.specs.Worlds.{acker_step, delivered, of_acker, of_open, of_outcome, of_shut, of_task, of_tick, of_turn, outcomes_of, task_at, task_needs, task_step, tick_step};
ghost use Rattle.event_worlds.specs.topology_plan.Topology.{Topology, tasks_in_all};
ghost use Rattle.event_worlds.specs.taken_records.Cuts.{Cut};

use crate::acker::{AckerSeat, answer_at, put_message};
use crate::shutting::{has_shut, with_open, with_shut};
use crate::task::{TaskSeat, execute_at, hand_over_at, has_parcel_at, put_tuple};
use event_worlds::acker_core::Verdict;
use event_worlds::attempt_fates::Fates;
use event_worlds::bolt_ops::RowOp;
use event_worlds::commit_order::{Coordinator, Orders, Stop};
use event_worlds::commit_turns::{desks_are_kept, orders_are_decided};
use event_worlds::state_parts::{Commit, CommitOutcome};
use event_worlds::storm_ids::Ids;
use event_worlds::storm_values::Memory;
use event_worlds::topology_plan::Plan;
use event_worlds::tree_model::{AckMsg, Parcel};
use std::alloc::AllocError;
use std::collections::VecDeque;

/// Tasks, ackers and the coordinator, with their boxes. Each event is a step of the world; when all
/// is over nothing changes.
#[derive(Drop)]
pub struct Engine<'p, I: Ids> {
    pub(crate) plan: &'p Plan,
    pub(crate) tasks: Vec<TaskSeat<'p, I>>,
    pub(crate) ackers: Vec<AckerSeat>,
    pub(crate) coordinator: Coordinator<'p, I>,
    pub(crate) verdicts: VecDeque<Verdict>,
    pub(crate) orders: VecDeque<Parcel>,
    pub(crate) tick: u64,
    pub(crate) unheard: u32,
    pub(crate) shut: u16,
    pub(crate) fates: Fates,
}

impl<'p, I: Ids> Engine<'p, I> {
    /// Task n's event: it hands over a parcel, or else executes a tuple.
    pub fn task<O: RowOp>(&mut self, n: u32, custom: &O) -> Result<(), Memory>
        requires there { n < tasks_in_all (topology_in self.old) }
        requires ready { IsReady (topology_in self.old) (cut_in self.old) self.old }
        ensures ready { OnOk result
            (IsReady (topology_in self.old) (cut_in self.old) self.new) }
        ensures goes { OnOk result (Goes I.tells (topology_in self.old) (O.meaning custom.now)
            (cut_in self.old) (of_task n ∷ []) self.old self.new) }
        ensures still { IsStill self.old self.new }
        ensures once { OnErr result (IsOnce (cut_in self.old)
            (2 ^ 64 - 1) self.new.fates) }
    {
        if self.is_over() {
            return Ok(());
        }
        self.task_event(n, custom)?;
        Ok(())
    }

    /// Acker n's event: it hands over a verdict, or else rotates and meets a message.
    pub fn acker(&mut self, n: u32) -> Result<(), Memory>
        requires there { n < (topology_in self.old).ackers }
        requires ready { IsReady (topology_in self.old) (cut_in self.old) self.old }
        ensures ready { OnOk result
            (IsReady (topology_in self.old) (cut_in self.old) self.new) }
        ensures goes { (custom : Custom) → OnOk result (Goes I.tells (topology_in self.old) custom
            (cut_in self.old) (of_acker n ∷ []) self.old self.new) }
        ensures still { IsStill self.old self.new }
        ensures once { OnErr result (IsOnce (cut_in self.old)
            (2 ^ 64 - 1) self.new.fates) }
    {
        if self.is_over() {
            return Ok(());
        }
        self.acker_event(n)?;
        Ok(())
    }

    /// An event of each task, in the order of their numbers.
    pub fn all_tasks<O: RowOp>(&mut self, custom: &O) -> Result<(), Memory>
        requires { IsReady (topology_in self.old) (cut_in self.old) self.old }
        ensures ready { OnOk result
            (IsReady (topology_in self.old) (cut_in self.old) self.new) }
        ensures goes { OnOk result (Goes I.tells (topology_in self.old) (O.meaning custom.now)
            (cut_in self.old) (map of_task (range_with_len 0 (tasks_in_all (topology_in self.old))))
            self.old self.new) }
        ensures still { IsStill self.old self.new }
        ensures once { OnErr result (IsOnce (cut_in self.old)
            (2 ^ 64 - 1) self.new.fates) }
    {
        for n in 0..self.plan.tasks() {
            self.task(n, custom)?;
        }
        Ok(())
    }

    /// An event of each acker, in the order of their numbers.
    pub fn all_ackers(&mut self) -> Result<(), Memory>
        requires { IsReady (topology_in self.old) (cut_in self.old) self.old }
        ensures ready { OnOk result
            (IsReady (topology_in self.old) (cut_in self.old) self.new) }
        ensures goes { (custom : Custom) → OnOk result (Goes I.tells (topology_in self.old) custom
            (cut_in self.old) (map of_acker (range_with_len 0 (topology_in self.old).ackers))
            self.old self.new) }
        ensures still { IsStill self.old self.new }
        ensures once { OnErr result (IsOnce (cut_in self.old)
            (2 ^ 64 - 1) self.new.fates) }
    {
        for n in 0..self.plan.ackers() {
            self.acker(n)?;
        }
        Ok(())
    }

    /// The coordinator's event: it hands over a parcel, or else takes a verdict and has a turn. It
    /// answers the commit that the turn orders.
    pub fn turn(&mut self) -> Result<Option<Commit>, Memory>
        requires ready { IsReady (topology_in self.old) (cut_in self.old) self.old }
        requires idle { IsIdle self.old }
        ensures ready { OnOk result
            (IsReady (topology_in self.old) (cut_in self.old) self.new) }
        ensures goes { (custom : Custom) → OnOk result (Goes I.tells (topology_in self.old) custom
            (cut_in self.old) (of_turn ∷ []) self.old self.new) }
        ensures answers { IfOk result (λ commit. Answers commit self.new) }
        ensures once { OnErr result (IsOnce (cut_in self.old)
            (2 ^ 64 - 1) self.new.fates) }
        ensures short { OnErr result (TurnsShort self.old self.new.fates) }
    {
        if self.is_over() {
            return Ok(None);
        }
        match self.orders.pop_front() {
            Some(parcel) => {
                self.deliver(parcel)?;
                Ok(None)
            }
            None => {
                let commit = self.take_turn()?;
                Ok(commit)
            }
        }
    }

    /// What came of the commit that was ordered.
    pub fn decide(&mut self, how: CommitOutcome) -> Result<(), Memory>
        requires ready { IsReady (topology_in self.old) (cut_in self.old) self.old }
        requires out { MayDecide self.old }
        ensures ready { OnOk result
            (IsReady (topology_in self.old) (cut_in self.old) self.new) }
        ensures goes { (custom : Custom) → OnOk result (Goes I.tells (topology_in self.old) custom
            (cut_in self.old) (of_outcome ∷ []) self.old self.new) }
        ensures idle { OnOk result (IsIdle self.new) }
        ensures told { OnOk result
            (outcomes_of self.new.fates ≡ outcomes_of self.old.fates ++ how ∷ []) }
        ensures once { OnErr result (IsOnce (cut_in self.old)
            (2 ^ 64 - 1) self.new.fates) }
        ensures short { OnErr result (DecidesShort how self.old self.new.fates) }
    {
        // a law: what is kept
        desks_are_kept();
        match self.coordinator.committed(&mut self.fates, how) {
            Ok(()) => Ok(()),
            Err(stop) => {
                fail_without_memory(stop)?;
                Ok(())
            }
        }
    }

    /// A tick.
    pub fn tick(&mut self)
        requires { IsReady (topology_in self.old) (cut_in self.old) self.old }
        ensures ready { IsReady (topology_in self.old) (cut_in self.old) self.new }
        ensures goes { (custom : Custom) → Goes I.tells (topology_in self.old) custom
            (cut_in self.old) (of_tick ∷ []) self.old self.new }
        ensures still { IsStill self.old self.new }
    {
        if self.is_over() {
            return;
        }
        self.tick_event();
    }

    /// A partition of the spout is shut: attempts that begin have no record of it until it is
    /// opened.
    pub fn shut(&mut self, partition: u32)
        requires few { partition < 16 }
        requires ready { IsReady (topology_in self.old) (cut_in self.old) self.old }
        ensures ready { IsReady (topology_in self.old) (cut_in self.old) self.new }
        ensures goes { (custom : Custom) → Goes I.tells (topology_in self.old) custom
            (cut_in self.old) (of_shut partition ∷ []) self.old self.new }
        ensures still { IsStill self.old self.new }
    {
        if self.is_over() {
            return;
        }
        self.take_shut(with_shut(self.shut, partition));
    }

    /// A partition of the spout is opened.
    pub fn open(&mut self, partition: u32)
        requires few { partition < 16 }
        requires ready { IsReady (topology_in self.old) (cut_in self.old) self.old }
        ensures ready { IsReady (topology_in self.old) (cut_in self.old) self.new }
        ensures goes { (custom : Custom) → Goes I.tells (topology_in self.old) custom
            (cut_in self.old) (of_open partition ∷ []) self.old self.new }
        ensures still { IsStill self.old self.new }
    {
        if self.is_over() {
            return;
        }
        self.take_shut(with_open(self.shut, partition));
    }

    /// The partitions whose bits are set are shut, and all others are opened. Partition q has bit q,
    /// counted from the lowest bit on.
    pub fn shut_by(&mut self, shut: u16)
        requires { IsReady (topology_in self.old) (cut_in self.old) self.old }
        ensures ready { IsReady (topology_in self.old) (cut_in self.old) self.new }
        ensures goes { (custom : Custom) → Goes I.tells (topology_in self.old) custom
            (cut_in self.old) (shutting_steps (topology_in self.old).partitions shut)
            self.old self.new }
        ensures still { IsStill self.old self.new }
    {
        for partition in 0..self.plan.partitions() {
            self.shut_one(shut, partition);
        }
    }

    // A partition is shut or opened, by its bit.
    fn shut_one(&mut self, shut: u16, partition: u32)
        requires few { partition < 16 }
        requires ready { IsReady (topology_in self.old) (cut_in self.old) self.old }
        ensures ready { IsReady (topology_in self.old) (cut_in self.old) self.new }
        ensures goes { (custom : Custom) → Goes I.tells (topology_in self.old) custom
            (cut_in self.old) (shutting shut partition ∷ []) self.old self.new }
        ensures still { IsStill self.old self.new }
    {
        if has_shut(shut, partition) {
            self.shut(partition);
        } else {
            self.open(partition);
        }
    }

    /// Whether all is over: no record is left uncommitted, or as many attempts of a transaction
    /// aborted as the plan allows.
    pub fn is_over(&self) -> bool
        ensures { result ≡ has_ended self.now }
    {
        if self.coordinator.exhausted().is_some() {
            return true;
        }
        self.coordinator.finished()
    }

    /// Whether no record is left uncommitted.
    pub fn is_finished(&self) -> bool
        ensures { result ≡ is_finished (topology_in self.now) (cut_in self.now)
            (shape self.now).desk }
    {
        self.coordinator.finished()
    }

    /// The transaction whose attempts have run out, where all is over by it.
    pub fn exhausted(&self) -> Option<u64>
        ensures { result ≡ (shape self.now).desk.exhausted }
    {
        self.coordinator.exhausted()
    }

    /// The last transaction that is committed: that of the start, and then of one batch after
    /// another.
    pub fn committed_count(&self) -> u64
        ensures { result ≡ (shape self.now).desk.committed }
    {
        self.coordinator.committed_count()
    }

    /// The attempts that ended, in the order of their ends.
    pub fn into_fates(self) -> Fates
        ensures { result ≡ (shape self.entry).fates }
    {
        self.fates
    }

    // Puts a parcel at the back of the box that it names.
    pub(crate) fn deliver(&mut self, parcel: Parcel) -> Result<(), Memory>
        requires { IsThere (length self.old.tasks.items) (length self.old.ackers.items) parcel }
        ensures done { OnOk result
            (shape self.new ≡ delivered (topology_in self.old) parcel (shape self.old)) }
        ensures sources { OnOk result (sources self.new ≡ sources self.old) }
        ensures seated { (t : Topology) (cut : Cut) → IsSeated t cut self.old
            → OnOk result (IsSeated t cut self.new) }
        ensures still { IsStill self.old self.new }
    {
        match parcel {
            Parcel::ToTask(n, tuple) => put_tuple(&mut self.tasks, n as usize, tuple)?,
            Parcel::ToAcker(n, message) => put_message(&mut self.ackers, n as usize, message)?,
        }
        Ok(())
    }

    // What a task does at its event.
    pub(crate) fn task_event<O: RowOp>(&mut self, n: u32, custom: &O) -> Result<(), Memory>
        requires there { n < tasks_in_all (topology_in self.old) }
        requires ready { IsReady (topology_in self.old) (cut_in self.old) self.old }
        ensures done { OnOk result (Happens I.tells n
            (task_needs (topology_in self.old) (O.meaning custom.now)
            (task_at (topology_in self.old) n (shape self.old)))
            (λ ids w. task_step (topology_in self.old) (O.meaning custom.now) n ids w)
            self.old self.new) }
        ensures seated { OnOk result
            (IsSeated (topology_in self.old) (cut_in self.old) self.new) }
        ensures still { IsStill self.old self.new }
    {
        if has_parcel_at(&self.tasks, n) {
            let parcel = hand_over_at(&mut self.tasks, n);
            self.deliver(parcel)?;
            return Ok(());
        }
        execute_at(&mut self.tasks, n, custom)?;
        Ok(())
    }

    // What an acker does at its event.
    pub(crate) fn acker_event(&mut self, n: u32) -> Result<(), Memory>
        requires there { n < (topology_in self.old).ackers }
        requires ready { IsReady (topology_in self.old) (cut_in self.old) self.old }
        ensures done { OnOk result
            (shape self.new ≡ acker_step (topology_in self.old) n (shape self.old)) }
        ensures sources { OnOk result (sources self.new ≡ sources self.old) }
        ensures seated { OnOk result
            (IsSeated (topology_in self.old) (cut_in self.old) self.new) }
        ensures still { IsStill self.old self.new }
    {
        let buckets = self.plan.buckets();
        match answer_at(&mut self.ackers, n, buckets, self.tick)? {
            Some(verdict) => self.verdicts.push_back(verdict)?,
            None => (),
        }
        Ok(())
    }

    fn tick_event(&mut self)
        ensures done { shape self.new ≡ tick_step (shape self.old) }
        ensures sources { sources self.new ≡ sources self.old }
        ensures seated { (t : Topology) (cut : Cut) → IsSeated t cut self.old
            → IsSeated t cut self.new }
        ensures still { IsStill self.old self.new }
    {
        self.tick = self.tick.saturating_add(1);
        self.unheard = self.unheard.saturating_add(1);
    }

    // These partitions are shut from now on, and no others.
    fn take_shut(&mut self, shut: u16)
        ensures done { shape self.new ≡ record (shape self.old) { shut = shut } }
        ensures sources { sources self.new ≡ sources self.old }
        ensures seated { (t : Topology) (cut : Cut) → IsSeated t cut self.old
            → IsSeated t cut self.new }
        ensures still { IsStill self.old self.new }
    {
        self.shut = shut;
    }

    // The coordinator takes a verdict and has a turn.
    fn take_turn(&mut self) -> Result<Option<Commit>, Memory>
        requires ready { IsReady (topology_in self.old) (cut_in self.old) self.old }
        requires goes_on { has_ended self.old ≡ false }
        requires idle { (desk_of self.old.coordinator).out ≡ false }
        requires empty { self.old.orders.items ≡ [] }
        ensures taken { IfOk result (λ commit. TakesTurn I.tells (topology_in self.old)
            (cut_in self.old) commit self.old self.new) }
        ensures once { OnErr result (IsOnce (cut_in self.old)
            (2 ^ 64 - 1) self.new.fates) }
        ensures short { OnErr result (TurnsShort self.old self.new.fates) }
    {
        // laws: what is kept, and what is out
        desks_are_kept();
        orders_are_decided();
        let verdict = self.verdicts.pop_front();
        let ticks = self.unheard;
        self.unheard = 0;
        match self
            .coordinator
            .turn(&mut self.fates, verdict, ticks, self.shut)
        {
            Ok(orders) => {
                let Orders { parcels, commit } = orders;
                self.orders = VecDeque::from_vec(parcels.into_vec());
                Ok(commit)
            }
            Err(stop) => {
                fail_without_memory(stop)?;
                Ok(None)
            }
        }
    }
}

// Fails where it was want of memory that stopped the coordinator.
fn fail_without_memory(why: Stop) -> Result<(), Memory>
    ensures ok { OnOk result (why ≢ stop.Memory) }
    ensures err { OnErr result (why ≡ stop.Memory) }
{
    match why {
        Stop::Memory => Err(AllocError),
        Stop::Exhausted(_) => Ok(()),
        Stop::BadCell(_) => Ok(()),
        Stop::Follow(_) => Ok(()),
    }
}
