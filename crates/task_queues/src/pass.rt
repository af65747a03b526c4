//! A box, and a pass to it.
ghost use Rattle.std.specs.Prelude.{◌≡◌, ◌≢◌, ◌≤◌, [], false, vec_len, vec_capacity, length};
ghost use Rattle.crossbeam_queue.specs.Passes.{view, ruled_capacity};
ghost use Rattle.pass_numbers.specs.Numbers.{IsWhole};
ghost use Rattle.task_queues.specs.Books.{all_shares, numbers_of};

use crate::rule::{Books, Truth, View};
use crossbeam_queue::RuledArrayQueue;
use storm_values::Seq;

/// What is left in a box, seen by contracts as the list of its messages.
pub type Rest<M> = Seq<M>;

/// A box for the messages to one owner, which threads share.
#[derive(Drop)]
pub struct Mailbox<M: Truth + Drop> {
    pub(crate) queue: RuledArrayQueue<M, View<M>, Books<M>>,
    // room for all that can be left at the end
    pub(crate) room: Vec<M>,
    ghost enough_room: { ruled_capacity queue ≤ vec_capacity room },
    ghost no_message: { vec_len room ≡ 0 },
}

/// The right to use a box, with what it knows: the plan, the owner, the capacity, its share, and
/// the books of what it sent and took. At run time it is its share, two bytes.
#[derive(Drop)]
pub struct Pass<M> {
    pub(crate) inner: crossbeam_queue::Pass<M, View<M>>,
    pub(crate) share: u16,
    ghost no_slot: { length inner.me.1 ≡ 0 },
    ghost named: { (view inner).fresh ≡ false },
    ghost some_book: { (view inner).books ≢ [] },
    ghost share_is: { share ≡ (view inner).share },
    ghost all_is_whole: { (view inner).share ≡ all_shares → IsWhole (numbers_of (view inner)) },
}
