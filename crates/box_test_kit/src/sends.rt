//! First tuples, sent to the tasks of the first bolt.
ghost use Rattle.box_rows.specs.FitRows.{IsFitRow};

use crate::plans::{first_mail, wrong};
use box_rows::{Posts, Row, send_fit};
use std::alloc::Global;
use std::sync::Wait;
use test_kit::Mismatch;

/// Sends the first tuple of a number, at a place, to a task. Whether there was room.
pub fn send_first<R: Wait>(
    rt: &R,
    alloc: Global,
    posts: &Posts<'_>,
    row: &mut Row,
    task: u32,
    number: u32,
    place: u32,
) -> Result<bool, Mismatch>
    requires { IsFitRow posts.now.plan.now posts.now.boxes.items row.old.items }
    ensures { IsFitRow posts.now.plan.now posts.now.boxes.items row.new.items }
{
    if posts.plan.tasks() <= task {
        return Err(wrong(alloc, "tasks"));
    }
    let mail = first_mail(alloc, posts.plan, task, number, place)?;
    Ok(send_fit(rt, posts, row, task as usize, mail).is_ok())
}

/// Sends first tuples from a number on, the odd ones to the second task, as long as there is room.
/// The number of the first one that was not sent.
pub fn send_firsts<R: Wait>(
    rt: &R,
    alloc: Global,
    posts: &Posts<'_>,
    row: &mut Row,
    from: u32,
    to: u32,
) -> Result<u32, Mismatch>
    requires { IsFitRow posts.now.plan.now posts.now.boxes.items row.old.items }
    ensures { IsFitRow posts.now.plan.now posts.now.boxes.items row.new.items }
{
    for number in from..to {
        let sent = send_first(rt, alloc, posts, row, number % 2, number, 0)?;
        if !sent {
            return Ok(number);
        }
    }
    Ok(to)
}
