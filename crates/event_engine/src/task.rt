ghost use Rattle.std.specs.Prelude.{◌≡◌, ◌<◌, ◌++◌, true, false, None, Some, [], length, IfOk, IfSome, OnOk};
ghost use Rattle.std.specs.Option.{option_copied};
ghost use Rattle.event_worlds.specs.bolt_ops.RowOp.{Custom};
ghost use Rattle.event_worlds.specs.bolt_task.Executing.{number_of, topology_at};
ghost use Rattle.event_engine.specs.Exchanges.{GivesAllParcels, GivesParcelsAt, next_past};
ghost use Rattle.event_engine.specs.Seats.{Acts, ActsAt, HandedOverAt, HasParcelAt, Puts, Takes, TakesAt, TellsNext, TellsNextAt, Works, Writes, WritesAt};

use crate::acker::AckerSeat;
use event_worlds::bolt_ops::RowOp;
use event_worlds::bolt_task::{AtOnce, BoltTask};
use event_worlds::storm_ids::Ids;
use event_worlds::storm_values::Memory;
use event_worlds::tree_model::{Parcel, Tuple};
use std::alloc::Global;
use std::collections::VecDeque;
use std::mem;

/// A task with its box and its outbox.
#[derive(Drop)]
pub struct TaskSeat<'p, I: Ids> {
    pub task: BoltTask<'p, I>,
    pub inbox: VecDeque<Tuple>,
    pub outbox: VecDeque<Parcel>,
}

impl<'p, I: Ids> TaskSeat<'p, I> {
    /// Whether nothing is in its box, and nothing is to be handed over.
    pub fn rests(&self) -> bool
        ensures { result ≡ true → (self.now.inbox.items ≡ []) × (self.now.outbox.items ≡ []) }
    {
        let has_handed_over = self.outbox.is_empty();
        let has_no_tuple = self.inbox.is_empty();
        has_handed_over & has_no_tuple
    }

    /// Whether it has a parcel to hand over.
    pub fn has_parcel(&self) -> bool
        ensures some { result ≡ true → 0 < length self.now.outbox.items }
        ensures none { result ≡ false → self.now.outbox.items ≡ [] }
    {
        !self.outbox.is_empty()
    }

    /// The tuple that it executes at its next event, if there is one.
    pub fn next_tuple(&self) -> Option<&Tuple>
        ensures { option_copied result
            ≡ next_past self.now.inbox.items self.now.outbox.items }
    {
        if self.has_parcel() {
            return None;
        }
        self.inbox.front()
    }

    /// Hands over the front parcel.
    pub fn hand_over(&mut self) -> Parcel
        requires { 0 < length self.old.outbox.items }
        ensures { (custom : Custom) → Acts I.tells (topology_at self.old.task) custom
            (number_of self.old.task) (Some result) self.old self.new }
    {
        self.outbox.pop_front().unwrap()
    }

    /// The acker of the front tuple, where nothing is to be handed over and a tuple is there.
    pub fn next_acker(&self) -> Option<u32>
        ensures { IfSome result (λ a. TellsNext a self.now) }
    {
        if !self.outbox.is_empty() {
            return None;
        }
        let tuple = self.inbox.front()?;
        Some(self.task.acker_of(tuple.root))
    }

    /// Executes the front tuple of a part of a state, and has its acker meet at once what it is
    /// told. It answers whether it did: a bolt's task does nothing.
    pub fn write_at_once(&mut self, at: &mut AckerSeat) -> Result<bool, Memory>
        requires takes { Takes self.old }
        ensures { IfOk result (Writes self.old self.new at.old at.new) }
    {
        let Some(tuple) = self.inbox.front() else {
            return Ok(false);
        };
        match self.task.write_at_once(tuple, &mut at.acker)? {
            AtOnce::No => Ok(false),
            AtOnce::Met(told) => {
                at.outbox = told;
                let _ = self.inbox.pop_front();
                Ok(true)
            }
        }
    }

    /// Takes the front tuple, if there is one, and executes it. What comes of it is put into the
    /// memory of the empty outbox.
    pub fn execute<O: RowOp>(&mut self, custom: &O) -> Result<(), Memory>
        requires takes { Takes self.old }
        requires empty { self.old.outbox.items ≡ [] }
        ensures { OnOk result (Works I.tells (topology_at self.old.task)
            (O.meaning custom.now) (number_of self.old.task) self.old self.new) }
    {
        match self.inbox.pop_front() {
            Some(tuple) => {
                let room = mem::try_take(&mut self.outbox)?.into_vec();
                let parcels = self.task.execute(tuple, custom, room)?;
                self.outbox = VecDeque::from_vec(parcels.into_vec());
                Ok(())
            }
            None => Ok(()),
        }
    }
}

/// The acker of the front tuple of a task that has handed over all, if a tuple is there.
pub fn acker_at<'p, I: Ids>(tasks: &Vec<TaskSeat<'p, I>>, n: u32) -> Option<u32>
    requires { n < length tasks.now.items }
    ensures { IfSome result (λ a. TellsNextAt n a tasks.now.items) }
{
    tasks[n as usize].next_acker()
}

/// A part of a state executes its front tuple, and its acker meets at once what it is told.
pub fn write_at<'p, I: Ids>(
    tasks: &mut Vec<TaskSeat<'p, I>>,
    n: u32,
    ackers: &mut Vec<AckerSeat>,
    a: u32,
) -> Result<bool, Memory>
    requires within { n < length tasks.old.items }
    requires there { a < length ackers.old.items }
    requires takes { TakesAt n tasks.old.items }
    requires tells { TellsNextAt n a tasks.old.items }
    ensures { IfOk result (WritesAt n a tasks.old.items tasks.new.items
        ackers.old.items ackers.new.items) }
{
    tasks[n as usize].write_at_once(&mut ackers[a as usize])
}

/// Puts a tuple at the back of a task's box.
pub fn put_tuple<'p, I: Ids>(
    tasks: &mut Vec<TaskSeat<'p, I>>,
    n: usize,
    tuple: Tuple,
) -> Result<(), Memory>
    requires { n < length tasks.old.items }
    ensures { OnOk result (Puts tuple n tasks.old.items tasks.new.items) }
{
    tasks[n].inbox.push_back(tuple)?;
    Ok(())
}

/// Whether a task has a parcel to hand over.
pub fn has_parcel_at<'p, I: Ids>(tasks: &Vec<TaskSeat<'p, I>>, n: u32) -> bool
    requires { n < length tasks.now.items }
    ensures some { result ≡ true → HasParcelAt n tasks.now.items }
    ensures none { result ≡ false → HandedOverAt n tasks.now.items }
{
    tasks[n as usize].has_parcel()
}

/// A task hands over its front parcel.
pub fn hand_over_at<'p, I: Ids>(tasks: &mut Vec<TaskSeat<'p, I>>, n: u32) -> Parcel
    requires within { n < length tasks.old.items }
    requires some { HasParcelAt n tasks.old.items }
    ensures { (custom : Custom) → ActsAt I.tells custom n (Some result)
        tasks.old.items tasks.new.items }
{
    tasks[n as usize].hand_over()
}

/// A task that has handed over all executes its front tuple.
pub fn execute_at<'p, I: Ids, O: RowOp>(
    tasks: &mut Vec<TaskSeat<'p, I>>,
    n: u32,
    custom: &O,
) -> Result<(), Memory>
    requires within { n < length tasks.old.items }
    requires takes { TakesAt n tasks.old.items }
    requires empty { HandedOverAt n tasks.old.items }
    ensures { OnOk result (ActsAt I.tells (O.meaning custom.now) n None
        tasks.old.items tasks.new.items) }
{
    tasks[n as usize].execute(custom)?;
    Ok(())
}

/// Puts what a task has to hand over behind what others had.
pub fn give_parcels_at<'p, I: Ids>(
    tasks: &mut Vec<TaskSeat<'p, I>>,
    n: usize,
    given: &mut VecDeque<Parcel>,
) -> Result<(), Memory>
    requires { n < length tasks.old.items }
    ensures { OnOk result (GivesParcelsAt n given.old.items given.new.items
        tasks.old.items tasks.new.items) }
{
    given.append(&mut tasks[n].outbox)?;
    Ok(())
}

/// What all tasks have to hand over, in the order of the tasks.
pub fn give_all_parcels<'p, I: Ids>(
    alloc: Global,
    tasks: &mut Vec<TaskSeat<'p, I>>,
) -> Result<VecDeque<Parcel>, Memory>
    ensures { IfOk result (λ given.
        GivesAllParcels given.items tasks.old.items tasks.new.items) }
{
    let mut given = VecDeque::new(alloc);
    for n in 0..tasks.len() {
        give_parcels_at(tasks, n, &mut given)?;
    }
    Ok(given)
}
