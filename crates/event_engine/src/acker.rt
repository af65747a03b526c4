ghost use Rattle.std.specs.Prelude.{◌≡◌, ◌≤◌, ◌<◌, ◌++◌, true, [], None, length, map, slice_index_or, IfOk, OnOk};
ghost use Rattle.std.specs.List.{AllByRecursion};
ghost use Rattle.event_engine.specs.Exchanges.{GivesAllVerdicts, GivesVerdictAt, without_verdicts};
ghost use Rattle.event_engine.specs.Seats.{AnswersAt, HasBuckets, IsIdleAt, PutsMessage, acker_side, buckets_in};
ghost use Rattle.event_worlds.specs.Worlds.{answered, counted_up, gets_message, meets, no_acker};

use event_worlds::acker_core::{Acker, Verdict};
use event_worlds::storm_values::Memory;
use event_worlds::tree_model::AckMsg;
use std::alloc::Global;
use std::collections::VecDeque;

/// An acker with its box, the verdict that it has still to hand over, and the number of the tick up
/// to which its entries have aged.
#[derive(Drop)]
pub struct AckerSeat {
    pub acker: Acker,
    pub inbox: VecDeque<AckMsg>,
    pub outbox: Option<Verdict>,
    pub counted: u64,
}

impl AckerSeat {
    /// No entries, in so many buckets, and nothing to hand over.
    pub fn new(alloc: Global, buckets: u32) -> Result<Self, Memory>
        requires least { 2 ≤ buckets }
        requires most { buckets ≤ 16 }
        ensures side { IfOk result (λ made. acker_side made ≡ no_acker) }
        ensures buckets { IfOk result (λ made. buckets_in made ≡ buckets) }
    {
        Ok(AckerSeat {
            acker: Acker::new(alloc, buckets)?,
            inbox: VecDeque::new(alloc),
            outbox: None,
            counted: 0,
        })
    }

    /// Whether nothing is in its box, and nothing is to be handed over.
    pub fn rests(&self) -> bool
        ensures { result ≡ true → (self.now.inbox.items ≡ []) × (self.now.outbox ≡ None) }
    {
        let has_handed_over = self.outbox.is_none();
        let has_no_message = self.inbox.is_empty();
        has_handed_over & has_no_message
    }

    /// Whether a message that came now would be met at the next event, with nothing before it: it
    /// rests, and no tick is still to be counted.
    pub fn is_idle(&self, tick: u64) -> bool
        ensures { result ≡ true → IsIdleAt tick (acker_side self.now) }
    {
        let has_counted = self.counted == tick;
        self.rests() & has_counted
    }

    /// Puts a message at the back of the box.
    pub fn put(&mut self, message: AckMsg) -> Result<(), Memory>
        ensures side { OnOk result
            (acker_side self.new ≡ gets_message message (acker_side self.old)) }
        ensures buckets { buckets_in self.new ≡ buckets_in self.old }
    {
        self.inbox.push_back(message)?;
        Ok(())
    }

    /// Puts the verdict that is left, if there is one, behind others.
    pub fn give(&mut self, given: &mut VecDeque<Verdict>) -> Result<(), Memory>
        ensures given { OnOk result
            (given.new.items ≡ given.old.items ++ (acker_side self.old).outbox) }
        ensures side { acker_side self.new ≡ without_verdicts (acker_side self.old) }
        ensures buckets { buckets_in self.new ≡ buckets_in self.old }
    {
        match self.outbox.take() {
            Some(verdict) => given.push_back(verdict)?,
            None => (),
        }
        Ok(())
    }

    /// Hands over the verdict that is left, or else rotates and meets the front message. It answers
    /// what it hands over.
    pub fn answer(&mut self, buckets: u32, tick: u64) -> Result<Option<Verdict>, Memory>
        requires own { buckets_in self.old ≡ buckets }
        requires some { 1 ≤ buckets }
        ensures side { OnOk result
            (acker_side self.new ≡ (answered buckets tick (acker_side self.old)).side) }
        ensures verdict { IfOk result
            (λ verdict. verdict ≡ (answered buckets tick (acker_side self.old)).verdict) }
        ensures buckets { buckets_in self.new ≡ buckets_in self.old }
    {
        match self.outbox.take() {
            Some(verdict) => Ok(Some(verdict)),
            None => {
                self.count_up(buckets, tick);
                self.meet()?;
                Ok(None)
            }
        }
    }

    // Rotates for each tick since the last time. After as many rotations as there are buckets
    // nothing is left.
    fn count_up(&mut self, buckets: u32, tick: u64)
        requires own { buckets_in self.old ≡ buckets }
        requires some { 1 ≤ buckets }
        ensures side { acker_side self.new ≡ counted_up buckets tick (acker_side self.old) }
        ensures buckets { buckets_in self.new ≡ buckets_in self.old }
    {
        let ticks = tick.saturating_sub(self.counted).min(u64::from(buckets));
        for _ in 0..ticks {
            self.acker.tick();
        }
        self.counted = tick;
    }

    // Meets the front message, if there is one.
    fn meet(&mut self) -> Result<(), Memory>
        requires empty { self.old.outbox ≡ None }
        ensures side { OnOk result
            (acker_side self.new ≡ meets (acker_side self.old) (acker_side self.old).inbox) }
        ensures buckets { buckets_in self.new ≡ buckets_in self.old }
    {
        match self.inbox.pop_front() {
            Some(message) => {
                self.outbox = self.acker.step(message)?;
                Ok(())
            }
            None => Ok(()),
        }
    }
}

/// Puts a message at the back of an acker's box.
pub fn put_message(ackers: &mut Vec<AckerSeat>, n: usize, message: AckMsg) -> Result<(), Memory>
    requires { n < length ackers.old.items }
    ensures { OnOk result (PutsMessage message n ackers.old.items ackers.new.items) }
{
    ackers[n].put(message)?;
    Ok(())
}

/// Whether an acker would meet a message that came now at its next event.
pub fn is_idle_at(ackers: &Vec<AckerSeat>, n: u32, tick: u64) -> bool
    requires { n < length ackers.now.items }
    ensures { result ≡ true
        → IsIdleAt tick (slice_index_or (map acker_side ackers.now.items) n no_acker) }
{
    ackers[n as usize].is_idle(tick)
}

/// An acker hands over its verdict, or else rotates and meets its front message.
pub fn answer_at(
    ackers: &mut Vec<AckerSeat>,
    n: u32,
    buckets: u32,
    tick: u64,
) -> Result<Option<Verdict>, Memory>
    requires within { n < length ackers.old.items }
    requires own { AllByRecursion (HasBuckets buckets) ackers.old.items }
    requires some { 1 ≤ buckets }
    ensures { IfOk result (λ verdict. AnswersAt buckets tick n verdict
        ackers.old.items ackers.new.items) }
{
    let verdict = ackers[n as usize].answer(buckets, tick)?;
    Ok(verdict)
}

/// Puts the verdict that an acker has to hand over behind what others had.
pub fn give_verdict_at(
    ackers: &mut Vec<AckerSeat>,
    n: usize,
    given: &mut VecDeque<Verdict>,
) -> Result<(), Memory>
    requires { n < length ackers.old.items }
    ensures { OnOk result (GivesVerdictAt n given.old.items given.new.items
        ackers.old.items ackers.new.items) }
{
    ackers[n].give(given)?;
    Ok(())
}

/// What all ackers have to hand over, in the order of the ackers.
pub fn give_all_verdicts(
    alloc: Global,
    ackers: &mut Vec<AckerSeat>,
) -> Result<VecDeque<Verdict>, Memory>
    ensures { IfOk result (λ given.
        GivesAllVerdicts given.items ackers.old.items ackers.new.items) }
{
    let mut given = VecDeque::new(alloc);
    for n in 0..ackers.len() {
        give_verdict_at(ackers, n, &mut given)?;
    }
    Ok(given)
}
