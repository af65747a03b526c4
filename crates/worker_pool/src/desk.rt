ghost use Rattle.std.specs.Prelude.{◌≡◌, ◌<◌, ◌+◌, [], length, map, true, IfOk, OnOk};
ghost use Rattle.std.specs.List.{AllByRecursion};
ghost use Rattle.box_rows.specs.Mails.{IsTrueParcel, last_box};
ghost use Rattle.box_rows.specs.Rows.{ArePasses, numbers_at};
ghost use Rattle.event_worlds.specs.Orderly.{IsForTask};
ghost use Rattle.event_worlds.specs.topology_plan.Topology.{tasks_in_all};
ghost use Rattle.event_worlds.specs.tree_model.declared.messages.Parcel.TheVariants.{ToTask};
ghost use Rattle.worker_pool.specs.Desks.{DeskDid, IsDesk, MovesMail, Receives};
ghost use Rattle.worker_pool.specs.Desks.{RunsTuple, TaskSays};

use crate::outbox::{Outbox, run_in};
use crate::spares::Spares;
use box_rows::{Mail, Posts, Row, take_at};
use event_worlds::bolt_ops::RowOp;
use event_worlds::bolt_task::BoltTask;
use event_worlds::storm_ids::Ids;
use event_worlds::storm_values::Memory;
use event_worlds::topology_plan::Plan;
use event_worlds::tree_model::{Parcel, Parcels, Tuple};
use std::collections::VecDeque;
use std::sync::Wait;
use storm_gates::Gate;

/// A task and its number, the tuples that are left of the message that it took last, and what it
/// has still to hand over.
#[derive(Drop)]
pub struct TaskDesk<'p, I: Ids> {
    pub number: u32,
    pub task: BoltTask<'p, I>,
    pub inbox: VecDeque<Tuple>,
    pub outbox: Outbox,
}

impl<'p, I: Ids> TaskDesk<'p, I> {
    /// One step: it hands over the front run of a filled outbox, or else executes the front tuple,
    /// or else hands over what there is, or else takes a message. It says whether it did anything.
    pub fn step<R: Wait, O: RowOp, G: Gate>(
        &mut self,
        rt: &R,
        posts: &Posts<'_>,
        row: &mut Row,
        spares: &mut Spares,
        custom: &O,
        gate: &G,
    ) -> Result<bool, Memory>
        requires passes { ArePasses posts.now.plan.now posts.now.boxes.items row.old.items }
        requires boxes { length posts.now.boxes.items ≡ last_box posts.now.plan.now + 1 }
        requires desk { IsDesk posts.now.plan.now self.old }
        ensures passes { ArePasses posts.now.plan.now posts.now.boxes.items row.new.items }
        ensures numbers { map numbers_at row.new.items ≡ map numbers_at row.old.items }
        ensures desk { OnOk result (IsDesk posts.now.plan.now self.new) }
        ensures did { OnOk result (DeskDid I.tells posts.now.plan.now (O.meaning custom.now)
            self.old self.new row.old.items row.new.items) }
        ensures says { IfOk result (λ did.
            TaskSays did self.old self.new row.old.items row.new.items) }
    {
        if self.outbox.is_filled() {
            return self.outbox.hand_over(rt, posts, row);
        }
        match self.inbox.pop_front() {
            Some(tuple) => self.execute(rt, posts, spares, custom, gate, tuple),
            None => self.go_on(rt, posts, row, spares),
        }
    }

    // Executes a tuple behind the gate.
    fn execute<R: Wait, O: RowOp, G: Gate>(
        &mut self,
        rt: &R,
        posts: &Posts<'_>,
        spares: &mut Spares,
        custom: &O,
        gate: &G,
        tuple: Tuple,
    ) -> Result<bool, Memory>
        requires desk { IsDesk posts.now.plan.now self.old }
        requires for_it { IsForTask posts.now.plan.now self.old.number tuple }
        ensures desk { OnOk result (IsDesk posts.now.plan.now self.new) }
        ensures runs { OnOk result (RunsTuple I.tells posts.now.plan.now (O.meaning custom.now)
            tuple self.old self.new) }
        ensures did { IfOk result (λ did. did ≡ true) }
    {
        posts.plan.facts();
        gate.pass(rt, self.number, tuple.root, &tuple.edge.path);
        let parcels = self.task.execute(tuple, custom, spares.take_room())?;
        self.outbox.add_all(posts.plan, spares, parcels)?;
        Ok(true)
    }

    // Hands over the front run, or with an empty outbox takes a message.
    fn go_on<R: Wait>(
        &mut self,
        rt: &R,
        posts: &Posts<'_>,
        row: &mut Row,
        spares: &mut Spares,
    ) -> Result<bool, Memory>
        requires passes { ArePasses posts.now.plan.now posts.now.boxes.items row.old.items }
        requires boxes { length posts.now.boxes.items ≡ last_box posts.now.plan.now + 1 }
        requires desk { IsDesk posts.now.plan.now self.old }
        requires no_tuple { self.old.inbox.items ≡ [] }
        ensures passes { ArePasses posts.now.plan.now posts.now.boxes.items row.new.items }
        ensures numbers { map numbers_at row.new.items ≡ map numbers_at row.old.items }
        ensures desk { OnOk result (IsDesk posts.now.plan.now self.new) }
        ensures moves { OnOk result (MovesMail self.old self.new row.old.items row.new.items) }
        ensures says { IfOk result (λ did.
            TaskSays did self.old self.new row.old.items row.new.items) }
    {
        if self.outbox.is_empty() {
            return self.take(rt, posts, row, spares);
        }
        self.outbox.hand_over(rt, posts, row)
    }

    // Takes a message, if there is one.
    fn take<R: Wait>(
        &mut self,
        rt: &R,
        posts: &Posts<'_>,
        row: &mut Row,
        spares: &mut Spares,
    ) -> Result<bool, Memory>
        requires passes { ArePasses posts.now.plan.now posts.now.boxes.items row.old.items }
        requires boxes { length posts.now.boxes.items ≡ last_box posts.now.plan.now + 1 }
        requires desk { IsDesk posts.now.plan.now self.old }
        requires no_tuple { self.old.inbox.items ≡ [] }
        requires no_run { self.old.outbox ≡ [] }
        ensures passes { ArePasses posts.now.plan.now posts.now.boxes.items row.new.items }
        ensures numbers { map numbers_at row.new.items ≡ map numbers_at row.old.items }
        ensures desk { OnOk result (IsDesk posts.now.plan.now self.new) }
        ensures moves { OnOk result (MovesMail self.old self.new row.old.items row.new.items) }
        ensures says { IfOk result (λ did.
            TaskSays did self.old self.new row.old.items row.new.items) }
    {
        match take_at(rt, posts, row, self.number as usize) {
            Some(mail) => {
                self.receive(posts.plan, spares, run_in(mail))?;
                Ok(true)
            }
            None => Ok(false),
        }
    }

    // The tuples of a run come to the back of the inbox.
    fn receive(&mut self, plan: &Plan, spares: &mut Spares, run: Parcels) -> Result<(), Memory>
        requires desk { IsDesk plan.now self.old }
        requires run { AllByRecursion (IsTrueParcel plan.now self.old.number) run }
        ensures desk { OnOk result (IsDesk plan.now self.new) }
        ensures receives { OnOk result (Receives run self.old self.new) }
    {
        let mut rest = VecDeque::from_vec(run.into_vec());
        while let Some(parcel) = rest.pop_front() {
            self.inbox.push_back(tuple_in(plan, self.number, parcel))?;
        }
        spares.put(rest.into_vec());
        Ok(())
    }
}

// The tuple that a parcel in a task's box is.
fn tuple_in(plan: &Plan, at: u32, parcel: Parcel) -> Tuple
    requires there { at < tasks_in_all plan.now }
    requires is_true { IsTrueParcel plan.now at parcel }
    ensures is { parcel ≡ ToTask at result }
    ensures for_it { IsForTask plan.now at result }
{
    let _ = plan;
    match parcel {
        Parcel::ToTask(_, tuple) => tuple,
        Parcel::ToAcker(_, _) => unreachable!(),
    }
}
