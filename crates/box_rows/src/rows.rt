//! Rows of passes that are split for workers and joined again.
ghost use Rattle.std.specs.Prelude.{◌≡◌, ◌<◌, length, map, IfOk, IsOk, OnErr, OnOk, vec_capacity};
ghost use Rattle.box_rows.specs.Rows.{ArePasses};
ghost use Rattle.box_rows.specs.Splitting.{IsPassAt, JoinsAt, SplitsAt, joined_views};
ghost use Rattle.task_queues.specs.Books.{cut_of, kept_of};
ghost use Rattle.task_queues.specs.Passes.{view_of};

use crate::boxes::{Posts, Row};
use crate::mail::Mail;
use event_worlds::storm_values::Memory;
use std::alloc::Global;
use task_queues::Pass;

// A second pass of the box of a number.
fn split_at(posts: &Posts<'_>, row: &mut Row, at: usize) -> Result<Pass<Mail>, Memory>
    requires passes { ArePasses posts.now.plan.now posts.now.boxes.items row.old.items }
    requires there { at < length posts.now.boxes.items }
    ensures passes { ArePasses posts.now.plan.now posts.now.boxes.items row.new.items }
    ensures ok { IsOk result }
    ensures split { IfOk result (SplitsAt posts.now.plan.now posts.now.boxes.items at
        row.old.items row.new.items) }
{
    let made = posts.boxes[at].split(&mut row[at])?;
    Ok(made)
}

/// A second row: each of its passes has the next number of its box. Without memory nothing is
/// split.
pub fn split_row(alloc: Global, posts: &Posts<'_>, row: &mut Row) -> Result<Row, Memory>
    requires { ArePasses posts.now.plan.now posts.now.boxes.items row.old.items }
    ensures passes { ArePasses posts.now.plan.now posts.now.boxes.items row.new.items }
    ensures made { IfOk result (λ made.
        ArePasses posts.now.plan.now posts.now.boxes.items made.items) }
    ensures same { OnErr result (row.new ≡ row.old) }
    ensures kept { OnOk result
        (map view_of row.new.items ≡ map kept_of (map view_of row.old.items)) }
    ensures cut { IfOk result (λ made.
        map view_of made.items ≡ map cut_of (map view_of row.old.items)) }
{
    let mut made = Vec::with_capacity(alloc, posts.boxes.len())?;
    for n in 0..posts.boxes.len() {
        let pass = split_at(posts, row, n)?;
        made.push_reserved(pass);
    }
    Ok(made)
}

// Puts the books of a pass behind those of the row's pass to the same box.
fn join_at(posts: &Posts<'_>, into: &mut Row, at: usize, other: Pass<Mail>)
    requires passes { ArePasses posts.now.plan.now posts.now.boxes.items into.old.items }
    requires there { at < length posts.now.boxes.items }
    requires other { IsPassAt posts.now.plan.now posts.now.boxes.items at other }
    ensures passes { ArePasses posts.now.plan.now posts.now.boxes.items into.new.items }
    ensures joined { JoinsAt at other into.old.items into.new.items }
{
    posts.boxes[at].join(&mut into[at], other);
}

/// Puts the books of a row behind those of another.
pub fn join_row(posts: &Posts<'_>, into: &mut Row, other: Row)
    requires passes { ArePasses posts.now.plan.now posts.now.boxes.items into.old.items }
    requires other { ArePasses posts.now.plan.now posts.now.boxes.items other.items }
    ensures passes { ArePasses posts.now.plan.now posts.now.boxes.items into.new.items }
    ensures joined { map view_of into.new.items
        ≡ joined_views (map view_of into.old.items) (map view_of other.items) }
{
    let mut rest = other;
    while let Some(pass) = rest.pop() {
        join_at(posts, into, rest.len(), pass);
    }
}
