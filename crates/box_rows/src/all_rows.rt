//! Rows for all workers.
ghost use Rattle.std.specs.Prelude.{◌≡◌, ◌<◌, ℕ, [], ◌∷◌, IfOk, OnErr, length};
ghost use Rattle.std.specs.List.{AllByRecursion};
ghost use Rattle.box_rows.specs.AllRows.{ArePassesIn, HasComeBack, HasJoined, HasSplit};
ghost use Rattle.box_rows.specs.Rows.{ArePasses};

use crate::boxes::{Posts, Row};
use crate::rows::{join_row, split_row};
use event_worlds::storm_values::Memory;
use std::alloc::Global;

/// So many more rows. Without memory they are joined again.
pub fn split_rows(
    alloc: Global,
    posts: &Posts<'_>,
    row: &mut Row,
    count: usize,
) -> Result<Vec<Row>, Memory>
    requires { ArePasses posts.now.plan.now posts.now.boxes.items row.old.items }
    ensures passes { ArePasses posts.now.plan.now posts.now.boxes.items row.new.items }
    ensures count { IfOk result (λ rows. length rows.items ≡ count) }
    ensures split { IfOk result (λ rows. HasSplit posts.now.plan.now posts.now.boxes.items
        row.old.items row.new.items rows.items) }
    ensures back { OnErr result (HasComeBack (length posts.now.boxes.items)
        row.old.items row.new.items) }
{
    let mut rows = Vec::with_capacity(alloc, count)?;
    for _next in 0..count {
        let made = match split_row(alloc, posts, row) {
            Ok(made) => made,
            Err(memory) => {
                join_rows(posts, row, rows);
                return Err(memory);
            }
        };
        rows.push_reserved(made);
    }
    Ok(rows)
}

/// All rows become one.
pub fn join_rows(posts: &Posts<'_>, row: &mut Row, rows: Vec<Row>)
    requires passes { ArePasses posts.now.plan.now posts.now.boxes.items row.old.items }
    requires others { AllByRecursion (ArePassesIn posts.now.plan.now posts.now.boxes.items)
        rows.items }
    ensures passes { ArePasses posts.now.plan.now posts.now.boxes.items row.new.items }
    ensures joined { HasJoined row.old.items rows.items row.new.items [] }
{
    let mut rest = rows;
    while let Some(other) = rest.pop() {
        join_row(posts, row, other);
    }
}
