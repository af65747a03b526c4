//! What a task has still to hand over, as runs for one box each.
ghost use Rattle.std.specs.Prelude.{◌≡◌, ◌≢◌, ◌↔◌, [], ◌∷◌, ◌+◌, length, map};
ghost use Rattle.std.specs.Prelude.{IfOk, IfSome, IsTrue, OnOk};
ghost use Rattle.std.specs.List.{AllByRecursion, flat_map};
ghost use Rattle.box_rows.specs.Mails.{IsRunFor, IsTrueParcel, box_of, last_box};
ghost use Rattle.box_rows.specs.Rows.{ArePasses, numbers_at};
ghost use Rattle.event_worlds.specs.Orderly.{FitsParcel};
ghost use Rattle.worker_pool.specs.declared.outbox.Run.{Run};
ghost use Rattle.worker_pool.specs.Outboxes.{AddsAll, HandsOver, HasRoom, IsOutbox, IsRun};
ghost use Rattle.box_rows.specs.declared.mail.Mail.TheVariants as mails;

use crate::spares::Spares;
use box_rows::{Mail, Posts, Row, send_at};
use event_worlds::storm_values::Memory;
use event_worlds::topology_plan::Plan;
use event_worlds::tree_model::{Parcel, Parcels};
use std::alloc::Global;
use std::collections::VecDeque;
use std::marker::Model;
use std::sync::Wait;

// How many parcels a run has at most.
const MOST_IN_RUN: usize = 64;

// Among how many of the last runs a parcel looks for its box.
const LOOK_BACK: usize = 8;

// With so many parcels an outbox is full enough to be handed over.
const ENOUGH: usize = 128;

/// Parcels that go to one box together, by its number.
#[derive(Drop)]
pub struct Run {
    pub at: u32,
    pub parcels: Parcels,
}

/// The runs that a task has still to hand over, the oldest first. For each box its parcels stand in
/// the order in which they were added.
#[derive(Drop)]
pub struct Outbox {
    runs: VecDeque<Run>,
    // how many parcels there are
    count: usize,
}

impl Model for Outbox {
    ghost use Rattle.std.specs.Prelude.{List};
    ghost use Rattle.worker_pool.specs.declared.outbox.Run.{Run};

    ghost Value = { List Run };

    ghost view = { λ o. o.runs.items };
}

impl Outbox {
    /// None, which takes no memory.
    pub fn new(alloc: Global) -> Self
        ensures { result ≡ [] }
    {
        Outbox {
            runs: VecDeque::new(alloc),
            count: 0,
        }
    }

    pub(crate) fn is_empty(&self) -> bool
        ensures { IsTrue result ↔ (self.now ≡ []) }
    {
        self.runs.is_empty()
    }

    /// Whether it is better handed over than filled.
    pub(crate) fn is_filled(&self) -> bool
        ensures { IsTrue result → self.now ≢ [] }
    {
        let has_enough = ENOUGH <= self.count;
        let has_none = self.runs.is_empty();
        has_enough & !has_none
    }

    /// Adds parcels, each to the newest of the last runs for its box, or else to a new one.
    pub fn add_all(
        &mut self,
        plan: &Plan,
        spares: &mut Spares,
        parcels: Parcels,
    ) -> Result<(), Memory>
        requires outbox { IsOutbox plan.now self.old }
        requires fit { AllByRecursion (FitsParcel plan.now) parcels }
        ensures outbox { OnOk result (IsOutbox plan.now self.new) }
        ensures adds { OnOk result (AddsAll parcels self.old self.new) }
    {
        let mut rest = VecDeque::from_vec(parcels.into_vec());
        while let Some(parcel) = rest.pop_front() {
            self.add(plan, spares, parcel)?;
        }
        spares.give_room(rest.into_vec());
        Ok(())
    }

    /// All parcels, run by run.
    pub fn into_parcels(self, alloc: Global) -> Result<VecDeque<Parcel>, Memory>
        ensures { IfOk result (λ parcels.
            parcels.items ≡ flat_map (λ (r : Run). r.parcels) self) }
    {
        let mut rest = self.runs;
        let mut all = VecDeque::new(alloc);
        while let Some(run) = rest.pop_front() {
            let mut parcels = VecDeque::from_vec(run.parcels.into_vec());
            all.append(&mut parcels)?;
        }
        Ok(all)
    }

    // Adds a parcel.
    fn add(&mut self, plan: &Plan, spares: &mut Spares, parcel: Parcel) -> Result<(), Memory>
        requires outbox { IsOutbox plan.now self.old }
        requires fits { FitsParcel plan.now parcel }
        ensures outbox { OnOk result (IsOutbox plan.now self.new) }
        ensures adds { OnOk result (AddsAll (parcel ∷ []) self.old self.new) }
    {
        self.count = self.count.saturating_add(1);
        let at = box_number(plan, &parcel);
        match self.place_for(at) {
            Some(n) => self.put_in(plan, at, n, parcel),
            None => self.begin(plan, at, spares, parcel),
        }
    }

    // The newest of the last runs that is for a box, if it has room.
    fn place_for(&self, at: u32) -> Option<usize>
        ensures { IfSome result (λ n. HasRoom at n self.now) }
    {
        let count = self.runs.len();
        for back in 0..count.min(LOOK_BACK) {
            let n = count - 1 - back;
            let run = &self.runs[n];
            if run.at == at {
                return if run.parcels.len() < MOST_IN_RUN {
                    Some(n)
                } else {
                    None
                };
            }
        }
        None
    }

    // Adds a parcel to a run.
    fn put_in(&mut self, plan: &Plan, at: u32, n: usize, parcel: Parcel) -> Result<(), Memory>
        requires outbox { IsOutbox plan.now self.old }
        requires room { HasRoom at n self.old }
        requires is_true { IsTrueParcel plan.now at parcel }
        ensures outbox { OnOk result (IsOutbox plan.now self.new) }
        ensures adds { OnOk result (AddsAll (parcel ∷ []) self.old self.new) }
    {
        let _ = plan;
        let _ = at;
        self.runs[n].parcels.push(parcel)?;
        Ok(())
    }

    // A new run begins.
    fn begin(
        &mut self,
        plan: &Plan,
        at: u32,
        spares: &mut Spares,
        parcel: Parcel,
    ) -> Result<(), Memory>
        requires outbox { IsOutbox plan.now self.old }
        requires is_true { IsTrueParcel plan.now at parcel }
        ensures outbox { OnOk result (IsOutbox plan.now self.new) }
        ensures adds { OnOk result (AddsAll (parcel ∷ []) self.old self.new) }
    {
        let _ = plan;
        let mut parcels = spares.list();
        parcels.push(parcel)?;
        self.runs.push_back(Run {
            at,
            parcels: Parcels::from_vec(parcels),
        })?;
        Ok(())
    }

    /// Hands over the front run, if there is one. It comes back where there is no room. It says
    /// whether it was taken.
    pub(crate) fn hand_over<R: Wait>(
        &mut self,
        rt: &R,
        posts: &Posts<'_>,
        row: &mut Row,
    ) -> Result<bool, Memory>
        requires passes { ArePasses posts.now.plan.now posts.now.boxes.items row.old.items }
        requires boxes { length posts.now.boxes.items ≡ last_box posts.now.plan.now + 1 }
        requires outbox { IsOutbox posts.now.plan.now self.old }
        ensures passes { ArePasses posts.now.plan.now posts.now.boxes.items row.new.items }
        ensures numbers { map numbers_at row.new.items ≡ map numbers_at row.old.items }
        ensures outbox { OnOk result (IsOutbox posts.now.plan.now self.new) }
        ensures handed { IfOk result (λ did.
            HandsOver did self.old self.new row.old.items row.new.items) }
    {
        match self.runs.pop_front() {
            Some(run) => self.send(rt, posts, row, run),
            None => Ok(false),
        }
    }

    // Hands over a run, which comes back to the front.
    fn send<R: Wait>(
        &mut self,
        rt: &R,
        posts: &Posts<'_>,
        row: &mut Row,
        run: Run,
    ) -> Result<bool, Memory>
        requires passes { ArePasses posts.now.plan.now posts.now.boxes.items row.old.items }
        requires boxes { length posts.now.boxes.items ≡ last_box posts.now.plan.now + 1 }
        requires outbox { IsOutbox posts.now.plan.now self.old }
        requires run { IsRunFor posts.now.plan.now run.at run.parcels }
        ensures passes { ArePasses posts.now.plan.now posts.now.boxes.items row.new.items }
        ensures numbers { map numbers_at row.new.items ≡ map numbers_at row.old.items }
        ensures outbox { OnOk result (IsOutbox posts.now.plan.now self.new) }
        ensures handed { IfOk result (λ did.
            HandsOver did (run ∷ self.old) self.new row.old.items row.new.items) }
    {
        let at = run.at;
        let count = run.parcels.len();
        match send_at(rt, posts, row, at as usize, Mail::Run(run.parcels)) {
            Ok(()) => {
                self.count = self.count.saturating_sub(count);
                Ok(true)
            }
            Err(mail) => {
                self.runs.push_front(Run {
                    at,
                    parcels: run_in(mail),
                })?;
                Ok(false)
            }
        }
    }
}

// The number of the box that a parcel goes to.
fn box_number(plan: &Plan, parcel: &Parcel) -> u32
    requires { FitsParcel plan.now parcel.now }
    ensures { result ≡ box_of plan.now parcel.now }
{
    plan.facts();
    match parcel {
        Parcel::ToTask(n, _) => *n,
        Parcel::ToAcker(n, _) => plan.tasks() + *n,
    }
}

// The run that the mail is.
pub(crate) fn run_in(mail: Mail) -> Parcels
    requires { IsRun mail }
    ensures { mail ≡ mails.Run result }
{
    match mail {
        Mail::Run(parcels) => parcels,
        Mail::Verdict(_) => unreachable!(),
    }
}
