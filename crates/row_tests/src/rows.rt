// Rows of one thread, split, used and joined.
ghost use Rattle.std.specs.Prelude.{◌≡◌, ◌<◌, ◌+◌, length};
ghost use Rattle.box_rows.specs.FitRows.{IsFitRow};
ghost use Rattle.box_rows.specs.Mails.{last_box};
ghost use Rattle.box_rows.specs.Rows.{ArePasses};

use crate::mails::{id_of, note, plan, verdict};
use box_rows::{
    Boxes, Posts, Row, join_row, join_rows, look_row, one_row_is_whole, send_at, send_fit,
    split_row, split_rows, take_at, take_fit,
};
use std::alloc::Global;
use std::sync::Wait;
use std::test::Fail;
use tree_model::storm_values::Memory;

// Whether each pass of a row is whole, or else none is.
fn are_whole(row: &Row, whole: bool) -> bool {
    row.iter().all(|pass| pass.is_whole() == whole)
}

// Splits a row for so many others and joins them again. Whether it was whole at first and at last,
// and no row was whole between.
fn is_whole_again(
    alloc: Global,
    posts: &Posts<'_>,
    row: &mut Row,
    others: usize,
) -> Result<bool, Memory>
    requires { ArePasses posts.now.plan.now posts.now.boxes.items row.old.items }
{
    let at_first = are_whole(row, true);
    let rows = split_rows(alloc, posts, row, others)?;
    let between = are_whole(row, false) & rows.iter().all(|other| are_whole(other, false));
    let many = rows.len() == others;
    join_rows(posts, row, rows);
    Ok(at_first & between & many & are_whole(row, true))
}

#[test]
fn a_row_split_for_64_workers_is_whole_again(rt: HostRuntime) -> Result<(), Fail> {
    let plan = plan(rt.alloc())?;
    let mut made = Boxes::new(rt.alloc(), &plan)?;
    let boxes = &mut made;
    assert!(rt; boxes.row.len() == 7);
    assert!(rt; is_whole_again(rt.alloc(), &boxes.posts, &mut boxes.row, 63)?);
    Ok(())
}

// The transaction id of what is taken at a box.
fn taken<R: Wait>(rt: &R, posts: &Posts<'_>, row: &mut Row, at: usize) -> Option<u64>
    requires passes { ArePasses posts.now.plan.now posts.now.boxes.items row.old.items }
    requires there { at < length posts.now.boxes.items }
    ensures { ArePasses posts.now.plan.now posts.now.boxes.items row.new.items }
{
    Some(id_of(&take_at(rt, posts, row, at)?))
}

// Sends two notes and a verdict under two rows, takes under both, joins the rows and takes the
// rest.
fn is_as_sent<R: Wait>(
    rt: &R,
    alloc: Global,
    posts: &Posts<'_>,
    row: &mut Row,
) -> Result<bool, Memory>
    requires passes { ArePasses posts.now.plan.now posts.now.boxes.items row.old.items }
    requires boxes { length posts.now.boxes.items ≡ last_box posts.now.plan.now + 1 }
{
    posts.plan.facts();
    let acker = posts.plan.tasks() as usize;
    let last = acker + posts.plan.ackers() as usize;
    let mut other = split_row(alloc, posts, row)?;
    let first = note(alloc, posts.plan, 7)?;
    let second = note(alloc, posts.plan, 8)?;
    let sent = send_at(rt, posts, row, acker, first).is_ok();
    let also = send_at(rt, posts, &mut other, acker, second).is_ok();
    let told = send_at(rt, posts, &mut other, last, verdict(alloc, posts.plan, 9)).is_ok();
    let came = taken(rt, posts, &mut other, acker) == Some(7);
    let none = taken(rt, posts, row, acker + 1).is_none();
    join_row(posts, row, other);
    let then = taken(rt, posts, row, acker) == Some(8);
    let heard = taken(rt, posts, row, last) == Some(9);
    let empty = taken(rt, posts, row, last).is_none();
    Ok(sent & also & told & came & none & then & heard & empty & are_whole(row, true))
}

#[test]
fn mail_comes_at_the_box_that_it_is_for(rt: HostRuntime) -> Result<(), Fail> {
    let plan = plan(rt.alloc())?;
    let mut made = Boxes::new(rt.alloc(), &plan)?;
    let boxes = &mut made;
    assert!(rt; is_as_sent(&rt, rt.alloc(), &boxes.posts, &mut boxes.row)?);
    Ok(())
}

// How many verdicts with one transaction id go into the last box.
fn fill<R: Wait>(rt: &R, alloc: Global, posts: &Posts<'_>, row: &mut Row) -> u32
    requires { IsFitRow posts.now.plan.now posts.now.boxes.items row.old.items }
    ensures { IsFitRow posts.now.plan.now posts.now.boxes.items row.new.items }
{
    let last = posts.boxes.len() - 1;
    for count in 0..1000 {
        if send_fit(rt, posts, row, last, verdict(alloc, posts.plan, 5)).is_err() {
            return count;
        }
    }
    1000
}

// Whether a verdict comes out of the last box, and none out of the first.
fn comes_last<R: Wait>(rt: &R, posts: &Posts<'_>, row: &mut Row) -> bool
    requires { IsFitRow posts.now.plan.now posts.now.boxes.items row.old.items }
{
    let last = posts.boxes.len() - 1;
    one_row_is_whole();
    look_row(posts, row);
    let found = take_fit(rt, posts, row, last);
    let none = take_fit(rt, posts, row, 0).is_none();
    none & found.is_some_and(|mail| id_of(&mail) == 5)
}

#[test]
fn a_box_is_full_at_256(rt: HostRuntime) -> Result<(), Fail> {
    let plan = plan(rt.alloc())?;
    let mut made = Boxes::new(rt.alloc(), &plan)?;
    let boxes = &mut made;
    assert!(rt; fill(&rt, rt.alloc(), &boxes.posts, &mut boxes.row) == 256);
    assert!(rt; comes_last(&rt, &boxes.posts, &mut boxes.row));
    Ok(())
}
