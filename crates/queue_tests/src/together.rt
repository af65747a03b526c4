// A box that threads share.
ghost use Rattle.std.specs.Prelude.{◌≡◌, ◌<◌, IfOk};
ghost use Rattle.task_queues.specs.Books.{numbers_of};
ghost use Rattle.task_queues.specs.Passes.{IsPassOf, view_of};
ghost use Rattle.queue_tests.specs.Keeping.{KeepsNumbers};

use crate::boxes::{Message, Sender, is_left, new_box, sent};
use std::sync::Wait;
use std::test::Fail;
use std::thread;
use std::thread::{Threads, join};
use storm_values::Memory;
use task_queues::{Mailbox, Pass};

// How many messages each sender sends.
const COUNT: u32 = 1000;

// How often a thread tries, until it gives up and the test fails.
const TRIES: u32 = 100_000_000;

// Sends a message as soon as there is room.
fn send_soon<R: Wait>(
    rt: &R,
    mailbox: &Mailbox<Message>,
    pass: &mut Pass<Message>,
    sender: Sender,
    number: u32,
)
    requires pass { IsPassOf mailbox.now pass.old }
    requires small { number < 1000 }
    ensures pass { IsPassOf mailbox.now pass.new }
    ensures numbers { numbers_of (view_of pass.new) ≡ numbers_of (view_of pass.old) }
{
    for _ in 0..TRIES {
        if sent(rt, mailbox, pass, sender, number) {
            return;
        }
        thread::yield_now();
    }
}

// Sends the numbers in order.
fn send_all<R: Wait>(
    rt: &R,
    mailbox: &Mailbox<Message>,
    mut pass: Pass<Message>,
    sender: Sender,
) -> Pass<Message>
    requires { IsPassOf mailbox.now pass }
    ensures pass { IsPassOf mailbox.now result }
    ensures numbers { numbers_of (view_of result) ≡ numbers_of (view_of pass) }
{
    for number in 0..COUNT {
        send_soon(rt, mailbox, &mut pass, sender, number);
    }
    pass
}

// The next message, as soon as there is one.
fn take_soon<R: Wait>(
    rt: &R,
    mailbox: &Mailbox<Message>,
    pass: &mut Pass<Message>,
) -> Option<Message>
    requires { IsPassOf mailbox.now pass.old }
    ensures pass { IsPassOf mailbox.now pass.new }
    ensures numbers { numbers_of (view_of pass.new) ≡ numbers_of (view_of pass.old) }
{
    for _ in 0..TRIES {
        if let Some(message) = mailbox.take(rt, pass) {
            return Some(message);
        }
        thread::yield_now();
    }
    None
}

// A message for each place.
fn take_all<R: Wait>(
    rt: &R,
    mailbox: &Mailbox<Message>,
    mut pass: Pass<Message>,
    mut messages: Vec<Message>,
) -> (Pass<Message>, Vec<Message>)
    requires { IsPassOf mailbox.now pass }
    ensures pass { IsPassOf mailbox.now result.0 }
    ensures numbers { numbers_of (view_of result.0) ≡ numbers_of (view_of pass) }
{
    for place in messages.iter_mut() {
        match take_soon(rt, mailbox, &mut pass) {
            Some(message) => *place = message,
            None => break,
        }
    }
    (pass, messages)
}

// Two senders, each in a thread of its own.
fn send_both<R: Threads + Wait + Sync>(
    rt: &R,
    mailbox: &Mailbox<Message>,
    first: Pass<Message>,
    second: Pass<Message>,
) -> (Pass<Message>, Pass<Message>)
    requires first { IsPassOf mailbox.now first }
    requires second { IsPassOf mailbox.now second }
    ensures first { IsPassOf mailbox.now result.0 }
    ensures second { IsPassOf mailbox.now result.1 }
    ensures numbers { numbers_of (view_of result.0) ≡ numbers_of (view_of first) }
    ensures others { numbers_of (view_of result.1) ≡ numbers_of (view_of second) }
{
    join(
        rt,
        || -> Pass<Message>
            requires { IsPassOf mailbox.now first }
            ensures pass { IsPassOf mailbox.entry.now result }
            ensures numbers { numbers_of (view_of result) ≡ numbers_of (view_of first) }
        { send_all(rt, mailbox, first, Sender::First) },
        || -> Pass<Message>
            requires { IsPassOf mailbox.now second }
            ensures pass { IsPassOf mailbox.entry.now result }
            ensures numbers { numbers_of (view_of result) ≡ numbers_of (view_of second) }
        { send_all(rt, mailbox, second, Sender::Second) },
    )
}

// Whether the messages of each sender stand in its order, all of them, each once.
fn are_in_order(messages: &[Message]) -> bool {
    let mut first = 0u32;
    let mut second = 0u32;
    for message in messages {
        let next = match message.sender {
            Sender::First => &mut first,
            Sender::Second => &mut second,
        };
        if message.number != *next {
            return false;
        }
        *next = next.wrapping_add(1);
    }
    first == COUNT && second == COUNT
}

// Two threads send and this one takes, each under a pass of its own, a message for each place.
fn exchange<R: Threads + Wait + Sync>(
    rt: &R,
    mailbox: &Mailbox<Message>,
    mut pass: Pass<Message>,
    places: Vec<Message>,
) -> Result<(Pass<Message>, Vec<Message>), Memory>
    requires { IsPassOf mailbox.now pass }
    ensures pass { IfOk result (λ back. IsPassOf mailbox.now back.0) }
    ensures numbers { IfOk result (λ back. KeepsNumbers (view_of pass) (view_of back.0)) }
{
    let first = mailbox.split(&mut pass)?;
    let second = mailbox.split(&mut pass)?;
    let ((first, second), (mut pass, messages)) = join(
        rt,
        || -> (Pass<Message>, Pass<Message>)
            requires first { IsPassOf mailbox.now first }
            requires second { IsPassOf mailbox.now second }
            ensures first { IsPassOf mailbox.entry.now result.0 }
            ensures second { IsPassOf mailbox.entry.now result.1 }
            ensures numbers { numbers_of (view_of result.0) ≡ numbers_of (view_of first) }
            ensures others { numbers_of (view_of result.1) ≡ numbers_of (view_of second) }
        { send_both(rt, mailbox, first, second) },
        || -> (Pass<Message>, Vec<Message>)
            requires { IsPassOf mailbox.now pass }
            ensures pass { IsPassOf mailbox.entry.now result.0 }
            ensures numbers { numbers_of (view_of result.0) ≡ numbers_of (view_of pass) }
        { take_all(rt, mailbox, pass, places) },
    );
    mailbox.join(&mut pass, second);
    mailbox.join(&mut pass, first);
    Ok((pass, messages))
}

#[test]
fn two_senders_and_a_taker(rt: HostRuntime) -> Result<(), Fail> {
    let (mailbox, pass) = new_box(rt.alloc(), 4)?;
    let blank = Message {
        sender: Sender::First,
        number: 0,
    };
    let places = vec![in rt.alloc(); blank; 2000]?;
    let (pass, messages) = exchange(&rt, &mailbox, pass, places)?;
    assert!(rt; are_in_order(messages.as_slice()));
    assert!(rt; is_left(&rt, mailbox, pass, &[]));
    Ok(())
}
