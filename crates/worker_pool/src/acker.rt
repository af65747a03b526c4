ghost use Rattle.std.specs.Prelude.{◌≡◌, ◌<◌, ◌+◌, max, ◌∷◌, [], length, map, None, IfOk, OnOk};
ghost use Rattle.std.specs.List.{AllByRecursion};
ghost use Rattle.box_rows.specs.Mails.{IsTrueParcel, last_box};
ghost use Rattle.box_rows.specs.Rows.{ArePasses, numbers_at};
ghost use Rattle.box_rows.specs.declared.mail.Mail.TheVariants as mails;
ghost use Rattle.event_worlds.specs.topology_plan.Topology.{tasks_in_all};
ghost use Rattle.event_worlds.specs.tree_model.declared.messages.Parcel.TheVariants.{ToAcker};
ghost use Rattle.worker_pool.specs.Ackers.{AckerDid, AckerSays, CountsUp, HandsVerdict};
ghost use Rattle.worker_pool.specs.Ackers.{IsAcker, IsVerdict, ReceivesNotes};

use crate::outbox::run_in;
use crate::spares::Spares;
use box_rows::{Mail, Posts, Row, send_at, take_at};
use event_worlds::acker_core::{Acker, Verdict};
use event_worlds::storm_values::Memory;
use event_worlds::topology_plan::Plan;
use event_worlds::tree_model::{AckMsg, Parcel, Parcels};
use std::collections::VecDeque;
use std::sync::Wait;

/// An acker and its number, the messages that are left of the message that it took last, the
/// verdict that it has still to hand over, and the number of the tick up to which its entries have
/// aged.
#[derive(Drop)]
pub struct AckerDesk {
    pub number: u32,
    pub acker: Acker,
    pub inbox: VecDeque<AckMsg>,
    pub outbox: Option<Verdict>,
    pub counted: u64,
}

impl AckerDesk {
    /// Rotates for each tick since the last time, as often as there are buckets at most. An earlier
    /// tick than the last time changes nothing.
    pub fn count_up(&mut self, buckets: u32, tick: u64)
        requires { self.old.acker.buckets ≡ buckets }
        ensures counts { CountsUp self.old self.new }
        ensures counted { self.new.counted ≡ max self.old.counted tick }
    {
        let ticks = tick.saturating_sub(self.counted).min(u64::from(buckets));
        for _done in 0..ticks {
            self.acker.tick();
        }
        self.counted = self.counted.max(tick);
    }

    /// One step: it hands over the verdict that is left, or else meets the front message, or else
    /// takes a run of them. It says whether it did anything.
    pub fn step<R: Wait>(
        &mut self,
        rt: &R,
        posts: &Posts<'_>,
        row: &mut Row,
        spares: &mut Spares,
    ) -> Result<bool, Memory>
        requires passes { ArePasses posts.now.plan.now posts.now.boxes.items row.old.items }
        requires boxes { length posts.now.boxes.items ≡ last_box posts.now.plan.now + 1 }
        requires desk { IsAcker posts.now.plan.now self.old }
        ensures passes { ArePasses posts.now.plan.now posts.now.boxes.items row.new.items }
        ensures numbers { map numbers_at row.new.items ≡ map numbers_at row.old.items }
        ensures desk { OnOk result (IsAcker posts.now.plan.now self.new) }
        ensures counted { OnOk result (self.new.counted ≡ self.old.counted) }
        ensures did { OnOk result (AckerDid posts.now.plan.now self.old self.new row.old.items
            row.new.items) }
        ensures says { IfOk result (λ did.
            AckerSays posts.now.plan.now did self.old self.new row.old.items row.new.items) }
    {
        match self.outbox.take() {
            Some(verdict) => Ok(self.hand_over(rt, posts, row, verdict)),
            None => self.go_on(rt, posts, row, spares),
        }
    }

    // Hands over a verdict, which comes back where there is no room.
    fn hand_over<R: Wait>(
        &mut self,
        rt: &R,
        posts: &Posts<'_>,
        row: &mut Row,
        verdict: Verdict,
    ) -> bool
        requires passes { ArePasses posts.now.plan.now posts.now.boxes.items row.old.items }
        requires boxes { length posts.now.boxes.items ≡ last_box posts.now.plan.now + 1 }
        requires no_verdict { self.old.outbox ≡ None }
        ensures passes { ArePasses posts.now.plan.now posts.now.boxes.items row.new.items }
        ensures numbers { map numbers_at row.new.items ≡ map numbers_at row.old.items }
        ensures handed { HandsVerdict posts.now.plan.now verdict result self.old self.new
            row.old.items row.new.items }
    {
        let last = posts.plan.tasks() as usize + posts.plan.ackers() as usize;
        match send_at(rt, posts, row, last, Mail::Verdict(verdict)) {
            Ok(()) => true,
            Err(mail) => {
                self.outbox = Some(verdict_in(mail));
                false
            }
        }
    }

    // Meets the front message, or else takes a run.
    fn go_on<R: Wait>(
        &mut self,
        rt: &R,
        posts: &Posts<'_>,
        row: &mut Row,
        spares: &mut Spares,
    ) -> Result<bool, Memory>
        requires passes { ArePasses posts.now.plan.now posts.now.boxes.items row.old.items }
        requires boxes { length posts.now.boxes.items ≡ last_box posts.now.plan.now + 1 }
        requires desk { IsAcker posts.now.plan.now self.old }
        requires no_verdict { self.old.outbox ≡ None }
        ensures passes { ArePasses posts.now.plan.now posts.now.boxes.items row.new.items }
        ensures numbers { map numbers_at row.new.items ≡ map numbers_at row.old.items }
        ensures desk { OnOk result (IsAcker posts.now.plan.now self.new) }
        ensures counted { OnOk result (self.new.counted ≡ self.old.counted) }
        ensures did { OnOk result (AckerDid posts.now.plan.now self.old self.new row.old.items
            row.new.items) }
        ensures says { IfOk result (λ did.
            AckerSays posts.now.plan.now did self.old self.new row.old.items row.new.items) }
    {
        match self.inbox.pop_front() {
            Some(message) => {
                self.outbox = self.acker.step(message)?;
                Ok(true)
            }
            None => self.take(rt, posts, row, spares),
        }
    }

    // Takes a run of messages, if there is one.
    fn take<R: Wait>(
        &mut self,
        rt: &R,
        posts: &Posts<'_>,
        row: &mut Row,
        spares: &mut Spares,
    ) -> Result<bool, Memory>
        requires passes { ArePasses posts.now.plan.now posts.now.boxes.items row.old.items }
        requires boxes { length posts.now.boxes.items ≡ last_box posts.now.plan.now + 1 }
        requires desk { IsAcker posts.now.plan.now self.old }
        requires no_message { self.old.inbox.items ≡ [] }
        requires no_verdict { self.old.outbox ≡ None }
        ensures passes { ArePasses posts.now.plan.now posts.now.boxes.items row.new.items }
        ensures numbers { map numbers_at row.new.items ≡ map numbers_at row.old.items }
        ensures desk { OnOk result (IsAcker posts.now.plan.now self.new) }
        ensures counted { OnOk result (self.new.counted ≡ self.old.counted) }
        ensures did { OnOk result (AckerDid posts.now.plan.now self.old self.new row.old.items
            row.new.items) }
        ensures says { IfOk result (λ did.
            AckerSays posts.now.plan.now did self.old self.new row.old.items row.new.items) }
    {
        let at = posts.plan.tasks() as usize + self.number as usize;
        match take_at(rt, posts, row, at) {
            Some(mail) => {
                self.receive(posts.plan, spares, run_in(mail))?;
                Ok(true)
            }
            None => Ok(false),
        }
    }

    // The messages of a run come to the back of the inbox.
    fn receive(&mut self, plan: &Plan, spares: &mut Spares, run: Parcels) -> Result<(), Memory>
        requires there { self.old.number < plan.now.ackers }
        requires run { AllByRecursion
            (IsTrueParcel plan.now (tasks_in_all plan.now + self.old.number)) run }
        ensures receives { OnOk result (ReceivesNotes run self.old self.new) }
    {
        let mut rest = VecDeque::from_vec(run.into_vec());
        while let Some(parcel) = rest.pop_front() {
            self.inbox.push_back(message_in(plan, self.number, parcel))?;
        }
        spares.put(rest.into_vec());
        Ok(())
    }
}

// The verdict that the mail is.
fn verdict_in(mail: Mail) -> Verdict
    requires { IsVerdict mail }
    ensures { mail ≡ mails.Verdict result }
{
    match mail {
        Mail::Run(_) => unreachable!(),
        Mail::Verdict(verdict) => verdict,
    }
}

// The message that a parcel in an acker's box is.
fn message_in(plan: &Plan, number: u32, parcel: Parcel) -> AckMsg
    requires there { number < plan.now.ackers }
    requires is_true { IsTrueParcel plan.now (tasks_in_all plan.now + number) parcel }
    ensures { parcel ≡ ToAcker number result }
{
    let _ = plan;
    match parcel {
        Parcel::ToTask(_, _) => unreachable!(),
        Parcel::ToAcker(_, message) => message,
    }
}
