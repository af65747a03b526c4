// A box that one thread uses.
ghost use Rattle.std.specs.Prelude.{◌≡◌, ◌<◌, IfOk};
ghost use Rattle.task_queues.specs.Books.{numbers_of};
ghost use Rattle.task_queues.specs.Passes.{IsPassOf, view_of};
ghost use Rattle.queue_tests.specs.Keeping.{KeepsNumbers};

use crate::boxes::{Message, Sender, is_left, new_box, sent, taken};
use std::sync::Wait;
use std::test::Fail;
use storm_values::Memory;
use task_queues::{Mailbox, Pass};

// Whether the message of a number was sent under a pass.
fn send<R: Wait>(rt: &R, mailbox: &Mailbox<Message>, pass: &mut Pass<Message>, number: u32) -> bool
    requires pass { IsPassOf mailbox.now pass.old }
    requires small { number < 1000 }
    ensures pass { IsPassOf mailbox.now pass.new }
    ensures numbers { numbers_of (view_of pass.new) ≡ numbers_of (view_of pass.old) }
{
    sent(rt, mailbox, pass, Sender::First, number)
}

#[test]
fn a_box_of_two_is_full_and_then_empty(rt: HostRuntime) -> Result<(), Fail> {
    let (mailbox, mut pass) = new_box(rt.alloc(), 2)?;
    assert!(rt; send(&rt, &mailbox, &mut pass, 1));
    assert!(rt; send(&rt, &mailbox, &mut pass, 2));
    assert!(rt; !send(&rt, &mailbox, &mut pass, 3));
    assert!(rt; taken(&rt, &mailbox, &mut pass) == Some(1));
    assert!(rt; taken(&rt, &mailbox, &mut pass) == Some(2));
    assert!(rt; taken(&rt, &mailbox, &mut pass).is_none());
    Ok(())
}

#[test]
fn what_is_left_stands_in_order(rt: HostRuntime) -> Result<(), Fail> {
    let (mailbox, mut pass) = new_box(rt.alloc(), 3)?;
    assert!(rt; send(&rt, &mailbox, &mut pass, 1));
    assert!(rt; send(&rt, &mailbox, &mut pass, 2));
    assert!(rt; send(&rt, &mailbox, &mut pass, 3));
    assert!(rt; taken(&rt, &mailbox, &mut pass) == Some(1));
    assert!(rt; is_left(&rt, mailbox, pass, &[2, 3]));
    Ok(())
}

// Splits a third pass from the second, sends under it, and takes under the second. Whether the
// message came.
fn use_third<R: Wait>(
    rt: &R,
    mailbox: &Mailbox<Message>,
    second: &mut Pass<Message>,
) -> Result<bool, Memory>
    requires { IsPassOf mailbox.now second.old }
    ensures pass { IsPassOf mailbox.now second.new }
    ensures numbers { IfOk result (λ _. KeepsNumbers (view_of second.old) (view_of second.new)) }
{
    let mut third = mailbox.split(second)?;
    let sent = send(rt, mailbox, &mut third, 1);
    let came = taken(rt, mailbox, second) == Some(1);
    mailbox.join(second, third);
    Ok(sent & came)
}

// Splits a second pass from the first, uses a third of it, and sends under both. Whether all went
// well.
fn use_second<R: Wait>(
    rt: &R,
    mailbox: &Mailbox<Message>,
    first: &mut Pass<Message>,
) -> Result<bool, Memory>
    requires { IsPassOf mailbox.now first.old }
    ensures pass { IsPassOf mailbox.now first.new }
    ensures numbers { IfOk result (λ _. KeepsNumbers (view_of first.old) (view_of first.new)) }
{
    let mut second = mailbox.split(first)?;
    let came = use_third(rt, mailbox, &mut second)?;
    let sent = send(rt, mailbox, first, 2);
    let also = send(rt, mailbox, &mut second, 3);
    mailbox.join(first, second);
    Ok(came & sent & also)
}

#[test]
fn passes_are_split_and_joined_again(rt: HostRuntime) -> Result<(), Fail> {
    let (mailbox, mut pass) = new_box(rt.alloc(), 4)?;
    assert!(rt; use_second(&rt, &mailbox, &mut pass)?);
    assert!(rt; is_left(&rt, mailbox, pass, &[2, 3]));
    Ok(())
}

// Whether a pass tells that it is not whole while others are out that were split from it, and whole
// when they are back.
fn tells_whether_whole(mailbox: &Mailbox<Message>, pass: &mut Pass<Message>) -> Result<bool, Memory>
    requires { IsPassOf mailbox.now pass.old }
    ensures { IsPassOf mailbox.now pass.new }
{
    let at_first = pass.is_whole();
    let mut second = mailbox.split(pass)?;
    let third = mailbox.split(&mut second)?;
    let in_part = pass.is_whole() | second.is_whole() | third.is_whole();
    mailbox.join(pass, third);
    let in_two = pass.is_whole();
    mailbox.join(pass, second);
    Ok(at_first & !in_part & !in_two & pass.is_whole())
}

// Looks into a box whose pass tells that it is whole, and ends it. Whether these are left.
fn look_at_last<R: Wait>(
    rt: &R,
    mailbox: Mailbox<Message>,
    mut pass: Pass<Message>,
    numbers: &[u32],
) -> bool
    requires { IsPassOf mailbox pass }
{
    mailbox.look(&mut pass);
    if pass.is_whole() {
        return is_left(rt, mailbox, pass, numbers);
    }
    false
}

#[test]
fn a_pass_tells_whether_it_is_whole(rt: HostRuntime) -> Result<(), Fail> {
    let (mailbox, mut pass) = new_box(rt.alloc(), 4)?;
    assert!(rt; tells_whether_whole(&mailbox, &mut pass)?);
    assert!(rt; send(&rt, &mailbox, &mut pass, 1));
    assert!(rt; look_at_last(&rt, mailbox, pass, &[1]));
    Ok(())
}
