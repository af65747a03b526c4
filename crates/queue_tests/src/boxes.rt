// A box of numbered messages, and calls of it that hand on little.
ghost use Rattle.std.specs.Prelude.{◌≡◌, ◌≤◌, ◌<◌, IfOk};
ghost use Rattle.pass_numbers.specs.Numbers.{IsWhole};
ghost use Rattle.task_queues.specs.Books.{numbers_of};
ghost use Rattle.task_queues.specs.Passes.{IsPassOf, view_of};

use std::alloc::Global;
use std::sync::Wait;
use task_queues::{Mailbox, Pass, Truth};
use topology_reader::{TopoFault, read_topology};

// Any valid topology.
const TOPOLOGY: &str = r#"{"version":1,
 "spout":{"name":"pairs","kind":"transactional","fields":["k","v"],"batch":1},
 "bolts":[],
 "states":[{"name":"last","kind":"transactional","parts":1,"key":["k"],
   "fold":"last","amount":"v","inputs":["pairs"]}]}"#;

/// Who sent a message.
#[derive(Clone, Copy)]
pub enum Sender {
    First,
    Second,
}

/// A message of the tests. What is true of it is that its number is small.
#[derive(Clone, Copy)]
pub struct Message {
    pub sender: Sender,
    pub number: u32,
}

impl Truth for Message {
    ghost is_true = { λ plan owner message. message.number < 1000 };
}

/// An empty box, and its one pass.
pub fn new_box(alloc: Global, capacity: u32) -> Result<(Mailbox<Message>, Pass<Message>), TopoFault>
    requires { (1 ≤ capacity) × (capacity ≤ 65536) }
    ensures pass { IfOk result (λ made. IsPassOf made.0 made.1) }
    ensures whole { IfOk result (λ made. IsWhole (numbers_of (view_of made.1))) }
{
    let plan = read_topology(alloc, TOPOLOGY.as_bytes())?;
    Ok(Mailbox::new(alloc, &plan, 0, capacity)?)
}

/// Whether a message was sent, and not handed back.
pub fn sent<R: Wait>(
    rt: &R,
    mailbox: &Mailbox<Message>,
    pass: &mut Pass<Message>,
    sender: Sender,
    number: u32,
) -> bool
    requires pass { IsPassOf mailbox.now pass.old }
    requires small { number < 1000 }
    ensures pass { IsPassOf mailbox.now pass.new }
    ensures numbers { numbers_of (view_of pass.new) ≡ numbers_of (view_of pass.old) }
{
    mailbox.send(rt, pass, Message { sender, number }).is_ok()
}

/// The number of the message that was taken.
pub fn taken<R: Wait>(rt: &R, mailbox: &Mailbox<Message>, pass: &mut Pass<Message>) -> Option<u32>
    requires { IsPassOf mailbox.now pass.old }
    ensures pass { IsPassOf mailbox.now pass.new }
    ensures numbers { numbers_of (view_of pass.new) ≡ numbers_of (view_of pass.old) }
{
    Some(mailbox.take(rt, pass)?.number)
}

/// Whether these are the numbers of what is left, in this order.
pub fn is_left<R: Wait>(
    rt: &R,
    mailbox: Mailbox<Message>,
    pass: Pass<Message>,
    numbers: &[u32],
) -> bool
    requires pass { IsPassOf mailbox pass }
    requires whole { IsWhole (numbers_of (view_of pass)) }
{
    let left = mailbox.drain_end(rt, pass);
    left.as_slice()
        .iter()
        .map(|message| message.number)
        .eq(numbers.iter().copied())
}
