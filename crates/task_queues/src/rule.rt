//! What each pass knows of a box, and what each kind of step tells it.
ghost use Rattle.std.specs.Prelude.{ℕ};
ghost use Rattle.topology_plan.specs.Topology.{Topology};

use crossbeam_queue::protocol::{Join, Lesson, Outcome, Protocol, Split};
use pass_numbers::Number;
use std::collections::LinkedList;
use std::marker::{Brand, PhantomData};
use topology_plan::Plan;

/// A message of which something is true under a plan and the number of a box's owner.
pub trait Truth {
    /// What is true of the message.
    ghost is_true: { Topology → ℕ → Self → Type 0 };
}

/// A message as it was sent: under which number, and at which place of that number's sent messages.
/// No value of it is made.
pub struct Stamped<M> {
    pub digits: LinkedList<u64>,
    pub place: u64,
    pub item: M,
}

/// What was sent and taken under a number. No value of it is made.
pub struct Book<M> {
    pub number: Number,
    pub sent: LinkedList<M>,
    pub taken: LinkedList<Stamped<M>>,
}

/// What a pass knows. No value of it is made: it stands in contracts.
pub struct View<M> {
    /// The box is being made, and names no plan yet.
    pub fresh: bool,
    pub plan: Plan,
    pub owner: u64,
    pub capacity: u64,
    /// What the pass has of the share that the first pass had.
    pub share: u64,
    /// A book for each number of the pass. It sends and takes under the first.
    pub books: LinkedList<Book<M>>,
}

/// The rule of what the box holds and of all views.
pub struct Books<M> {
    of: PhantomData<M>,
}

impl<M: Truth> Protocol<M, View<M>> for Books<M> {
    ghost use Rattle.task_queues.specs.Books.{blank};
    ghost use Rattle.task_queues.specs.Rule.{Ruled};

    ghost holds = { Ruled M.is_true };

    ghost first = { blank };
}

/// The plan, the owner and the capacity of a box that is being made.
pub trait Terms {
    ghost plan: { Topology };

    ghost owner: { ℕ };

    ghost capacity: { ℕ };
}

impl Terms for Brand {
    ghost use Rattle.task_queues.specs.Books.{no_plan};

    ghost plan = { no_plan };

    ghost owner = { 0 };

    ghost capacity = { 0 };
}

/// The first pass gets the terms and the first number.
pub struct Named<N> {
    of: PhantomData<N>,
}

impl<M, N: Terms> Split<View<M>> for Named<N> {
    ghost use Rattle.task_queues.specs.Books.{first_view, no_view};

    ghost left = { λ _. first_view N.plan N.owner N.capacity };

    ghost right = { λ _. no_view };
}

/// A pass is split in two.
pub struct Cut;

impl<M> Split<View<M>> for Cut {
    ghost use Rattle.task_queues.specs.Books.{kept_of, cut_of};

    ghost left = { kept_of };

    ghost right = { cut_of };
}

/// Two passes are made one.
pub struct Joined;

impl<M> Join<View<M>> for Joined {
    ghost use Rattle.task_queues.specs.Books.{both_of, no_view};

    ghost both = { both_of };

    ghost spent = { no_view };
}

/// A message is sent.
pub struct Sends<M> {
    of: PhantomData<M>,
}

impl<M: Truth> Outcome<M, View<M>> for Sends<M> {
    ghost use Rattle.task_queues.specs.Steps.{SendsOne};

    ghost then = { SendsOne };
}

impl<M: Truth> Lesson<M, View<M>> for Sends<M> {
    ghost use Rattle.task_queues.specs.Rule.{Stood};

    ghost fact = { Stood M.is_true };
}

/// A message is taken.
pub struct Takes<M> {
    of: PhantomData<M>,
}

impl<M: Truth> Outcome<M, View<M>> for Takes<M> {
    ghost use Rattle.task_queues.specs.Steps.{TakesOne};

    ghost then = { TakesOne M.is_true };
}

impl<M: Truth> Lesson<M, View<M>> for Takes<M> {
    ghost use Rattle.task_queues.specs.Rule.{Stood};

    ghost fact = { Stood M.is_true };
}
