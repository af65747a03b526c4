//! The calls of a box. Each is one step on its queue.
ghost use Rattle.std.specs.Prelude.{◌≡◌, ◌==◌, ◌<◌, ◌≤◌, ◌+◌, ◌↔◌, ◌++◌, ◌∷◌, [], ◌≢◌, false, vec_capacity, List, length};
ghost use Rattle.std.specs.Prelude.{IfOk, IsOk, IsErr, IfErr, OnOk, OnErr, IsNone, IfSome, OnSome, IsTrue};
ghost use Rattle.std.specs.Option.{IfNone};
ghost use Rattle.crossbeam_queue.specs.Passes.{view, IsSamePass, ruled_capacity};
ghost use Rattle.counted_items.specs.Weights.{Same};
ghost use Rattle.pass_numbers.specs.Numbers.{IsWhole, Numbered};
ghost use Rattle.task_queues.specs.declared.rule.Stamped.{Stamped};
ghost use Rattle.task_queues.specs.declared.rule.View.{View};
ghost use Rattle.task_queues.specs.Books.{blank, first_view, sent_to, took, kept_of, cut_of, both_of};
ghost use Rattle.task_queues.specs.Books.{numbers_of, sent_of, taken_of};
ghost use Rattle.task_queues.specs.Books.{all_shares, given_share, left_share};
ghost use Rattle.task_queues.specs.Passes.{IsPassOf, HeldAt, view_of};
ghost use Rattle.task_queues.specs.Steps.{IsNext};
ghost use Rattle.task_queues.specs.Whole.{HoldsRest, IsLeft};
ghost use Rattle.std.specs.List.{AllByRecursion};

use crate::pass::{Mailbox, Pass, Rest};
use crate::rule::{Books, Cut, Joined, Named, Sends, Takes, Terms, Truth, View};
use crossbeam_queue::RuledArrayQueue;
use std::alloc::Global;
use std::marker::Brand;
use std::sync::Wait;
use storm_values::Memory;
use topology_plan::Plan;

impl<M: Truth + Drop> Mailbox<M> {
    /// An empty box of a capacity, and its one pass. It makes the room for all that can be left at
    /// the end, so that no later call takes memory.
    pub fn new(
        alloc: Global,
        plan: &Plan,
        owner: u32,
        capacity: u32,
    ) -> Result<(Mailbox<M>, Pass<M>), Memory>
        requires { (1 ≤ capacity) × (capacity ≤ 65536) }
        ensures pass { IfOk result (λ made. IsPassOf made.0 made.1) }
        ensures view { IfOk result (λ made. view_of made.1 ≡ first_view plan.now owner capacity) }
        ensures whole { IfOk result (λ made. IsWhole (numbers_of (view_of made.1))) }
    {
        let room = Vec::with_capacity(alloc, capacity as usize)?;
        let (queue, mut inner) = RuledArrayQueue::ruled(alloc, capacity as usize)?;
        name::<M, Brand>(&queue, &mut inner, plan, owner, capacity);
        Ok((Mailbox { queue, room }, Pass { inner, share: ALL }))
    }

    /// Puts a message at the end of the box, and notes it. The message comes back only if the box
    /// was full at a moment of this call, which the contract shows of a pass with all numbers
    /// alone. It may wait for a step of another thread.
    pub fn send<R: Wait>(&self, rt: &R, pass: &mut Pass<M>, m: M) -> Result<(), M>
        requires pass { IsPassOf self.now pass.old }
        requires is_true { M.is_true (view_of pass.old).plan (view_of pass.old).owner m }
        ensures pass { IsPassOf self.now pass.new }
        ensures sent { OnOk result (view_of pass.new ≡ sent_to (view_of pass.old) m) }
        ensures numbers { numbers_of (view_of pass.new) ≡ numbers_of (view_of pass.old) }
        ensures back { IfErr result (λ message. message ≡ m) }
        ensures same { OnErr result (view_of pass.new ≡ view_of pass.old) }
        ensures full { OnErr result (HeldAt M.is_true pass.old (view_of pass.old).capacity) }

        // A pass with all numbers knows: it comes back exactly where so many as the capacity are
        // not taken.
        ensures whole { IsWhole (numbers_of (view_of pass.old)) →
            IsErr result ↔ (length (sent_of (view_of pass.old).books)
            ≡ length (taken_of (view_of pass.old).books) + (view_of pass.old).capacity) }
    {
        self.queue.push_as::<Sends<M>, R>(rt, &mut pass.inner, m)
    }

    /// Takes the oldest message, and notes it. `None` comes only if the box was empty at a moment
    /// of this call, which the contract shows of a pass with all numbers alone. It may wait for a
    /// step of another thread.
    pub fn take<R: Wait>(&self, rt: &R, pass: &mut Pass<M>) -> Option<M>
        requires { IsPassOf self.now pass.old }
        ensures pass { IsPassOf self.now pass.new }
        ensures is_true { IfSome result
            (M.is_true (view_of pass.old).plan (view_of pass.old).owner) }
        ensures taken { IfSome result (λ m. (s : Stamped M)
            × (s.item ≡ m) × (view_of pass.new ≡ took (view_of pass.old) s)
            × IsNext M.is_true (view_of pass.old) s) }
        ensures numbers { numbers_of (view_of pass.new) ≡ numbers_of (view_of pass.old) }
        ensures same { IfNone result (view_of pass.new ≡ view_of pass.old) }
        ensures empty { IfNone result (HeldAt M.is_true pass.old 0) }

        // To a pass with all numbers there is none exactly where every sent stamp was taken.
        ensures whole { IsWhole (numbers_of (view_of pass.old)) →
            IsNone result
            ↔ Same (sent_of (view_of pass.old).books) (taken_of (view_of pass.old).books) }
    {
        self.queue.pop_as::<Takes<M>, R>(rt, &mut pass.inner)
    }

    /// A second pass, with the next number and some of the share. It takes no memory today. Where
    /// the share is below 2 it is lost: no pass is told to be whole by `is_whole` after that.
    pub fn split(&self, pass: &mut Pass<M>) -> Result<Pass<M>, Memory>
        requires { IsPassOf self.now pass.old }
        ensures ok { IsOk result }
        ensures pass { IsPassOf self.now pass.new }
        ensures new_pass { IfOk result (IsPassOf self.now) }
        ensures view { view_of pass.new ≡ kept_of (view_of pass.old) }
        ensures new_view { IfOk result (λ made. view_of made ≡ cut_of (view_of pass.old)) }

        // Passes that had all numbers, each once, have them with the new one.
        ensures numbered { IfOk result (λ made. (others : List (View M)) →
            Numbered numbers_of (view_of pass.old ∷ others) →
            Numbered numbers_of (view_of pass.new ∷ view_of made ∷ others)) }
    {
        let inner = self.queue.another::<Cut>(&mut pass.inner);
        let share = given_share(pass.share);
        pass.share = left_share(pass.share);
        Ok(Pass { inner, share })
    }

    /// Puts the other's books behind those of `into`, and adds its share. The other's view is empty
    /// after that.
    pub fn join(&self, into: &mut Pass<M>, other: Pass<M>)
        requires pass { IsPassOf self.now into.old }
        requires other { IsPassOf self.now other }
        ensures pass { IsPassOf self.now into.new }
        ensures view { view_of into.new ≡ both_of (view_of into.old) (view_of other) }

        // A pass that has all numbers then knows what the box holds.
        ensures whole { IsWhole (numbers_of (view_of into.new)) →
            HoldsRest M.is_true (view_of into.new) }

        // Passes that had all numbers, each once, have them without the other.
        ensures numbered { (others : List (View M)) →
            Numbered numbers_of (view_of into.old ∷ view_of other ∷ others) →
            Numbered numbers_of (view_of into.new ∷ others) }
    {
        let share = other.share;
        self.queue.absorb::<Joined>(&mut into.inner, other.inner);
        self.queue.learn_as::<Takes<M>>(&mut into.inner);
        into.share += share;
    }

    /// What a pass with all numbers knows of its box: what was sent was taken or is held, and what
    /// is held is true. It is no step of the box, and never waits.
    pub fn look(&self, pass: &mut Pass<M>)
        requires { IsPassOf self.now pass.old }
        ensures pass { IsPassOf self.now pass.new }
        ensures view { view_of pass.new ≡ view_of pass.old }
        ensures holds { IsWhole (numbers_of (view_of pass.old)) →
            HoldsRest M.is_true (view_of pass.old) }
    {
        self.queue.learn_as::<Takes<M>>(&mut pass.inner);
    }
}

impl<M: Truth + Drop> Mailbox<M> {
    /// The end of a box: what is left in it, oldest first, taken one by one into the room that
    /// `new` made.
    pub fn drain_end<R: Wait>(self, rt: &R, pass: Pass<M>) -> Rest<M>
        requires pass { IsPassOf self pass }
        requires whole { IsWhole (numbers_of (view_of pass)) }
        ensures left { IsLeft (view_of pass).books result }
        ensures is_true { AllByRecursion
            (M.is_true (view_of pass).plan (view_of pass).owner) result }
    {
        let Mailbox { queue, room } = self;
        Rest::from_vec(drain(rt, &queue, pass.inner, room))
    }
}

impl<M> Pass<M> {
    /// Whether this pass has all of the share that the first one had. It has all numbers then, so
    /// that it may be used as a whole one where no contract says that it is.
    pub fn is_whole(&self) -> bool
        ensures share { result ≡ ((view_of self.now).share == all_shares) }
        ensures whole { IsTrue result → IsWhole (numbers_of (view_of self.now)) }
    {
        self.share == ALL
    }
}

// The share of a box's first pass.
const ALL: u16 = 65535;

// What a split gives the new pass of a share.
fn given_share(share: u16) -> u16
    ensures { result ≡ given_share share }
{
    if share < 2 { 0 } else { (share / 256).max(1) }
}

// What it leaves.
fn left_share(share: u16) -> u16
    ensures { result ≡ left_share share }
{
    if share < 2 {
        0
    } else {
        share - (share / 256).max(1)
    }
}

// Takes all that is left.
fn drain<M: Truth + Drop, R: Wait>(
    rt: &R,
    queue: &RuledArrayQueue<M, View<M>, Books<M>>,
    mut pass: crossbeam_queue::Pass<M, View<M>>,
    mut room: Vec<M>,
) -> Vec<M>
    requires queue { Rattle.crossbeam_queue.specs.Passes.IsPassOf queue.now pass }
    requires named { (view pass).fresh ≡ false }
    requires some_book { (view pass).books ≢ [] }
    requires capacity { (view pass).capacity ≡ ruled_capacity queue.now }
    requires whole { IsWhole (numbers_of (view pass)) }
    requires room { ruled_capacity queue.now ≤ vec_capacity room }
    requires empty { room.items ≡ [] }
    ensures left { IsLeft (view pass).books result.items }
    ensures is_true { AllByRecursion (M.is_true (view pass).plan (view pass).owner) result.items }
{
    queue.learn_as::<Takes<M>>(&mut pass);
    while let Some(message) = queue.pop_as::<Takes<M>, R>(rt, &mut pass) {
        room.push_reserved(message);
    }
    room
}

// Gives a box that is being made its terms.
fn name<M: Truth, N: Terms>(
    queue: &RuledArrayQueue<M, View<M>, Books<M>>,
    pass: &mut crossbeam_queue::Pass<M, View<M>>,
    _plan: &Plan,
    _owner: u32,
    _capacity: u32,
)
    requires terms { (_plan.now ≡ N.plan) × (_owner ≡ N.owner) × (_capacity ≡ N.capacity) }
    requires queue { Rattle.crossbeam_queue.specs.Passes.IsPassOf queue.now pass.old }
    requires blank { view pass.old ≡ blank }
    ensures queue { IsSamePass pass.old pass.new }
    ensures view { view pass.new ≡ first_view _plan.now _owner _capacity }
{
    let _ = queue.another::<Named<N>>(pass);
}
