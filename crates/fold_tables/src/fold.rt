ghost use Rattle.std.specs.Prelude.{◌≤◌, ◌<◌, ◌++◌, All, IfOk};
ghost use Rattle.std.specs.Thread.{IsSync};
ghost use Rattle.tree_model.specs.storm_values.Rows.{IsRow};
ghost use Rattle.tree_model.specs.topology_plan.Wired.{width_of};
ghost use Rattle.tree_model.specs.Tables.{AreTables};
ghost use Rattle.tree_model.specs.Trees.{writes};
ghost use Rattle.fold_tables.specs.Pieces.{IsPiece};

use crate::piece::Piece;
use std::alloc::Global;
use std::slice::from_ref;
use std::thread::{Threads, join};
use tree_model::bolt_ops::RowOp;
use tree_model::storm_values::{Memory, Row, Rows};
use tree_model::topology_plan::{Origin, Plan};
use tree_model::{Tables, plain_tables, writes_of};

/// With so many writes, which no run comes to, sums might come to an end of 128 bits.
const MANY: u64 = 1 << 63;

/// The tables that the rows' tuple tree leaves, as `plain_tables` makes them.
///
/// The records are cut into so many consecutive pieces at most. Each has a thread, which makes its
/// tables, and neighbours are merged. With one worker, or one record, `plain_tables` does it all.
/// Time is proportional to the tuples of the longest piece, to the keys, and to n log n for n keys
/// of a state. Each piece holds its keys.
pub fn fold_tables<R: Threads + Sync, O: RowOp>(
    rt: &R,
    alloc: Global,
    plan: &Plan,
    rows: &Rows,
    workers: u32,
    custom: &O,
) -> Result<Tables, Memory>
    requires rows { All (IsRow (width_of plan.now Origin.Spout)) rows.now }
    requires workers { (1 ≤ workers) × (workers ≤ 64) }
    ensures { IfOk result
        (AreTables plan.now (O.meaning custom.now)
        (writes plan.now (O.meaning custom.now) rows.now)) }
{
    if workers < 2 || rows.len() < 2 {
        return plain_tables(alloc, plan, rows, custom);
    }
    let piece = fold_rows(rt, alloc, plan, rows.as_slice(), workers, custom)?;
    if piece.writes < MANY {
        piece.tables(alloc, plan)
    } else {
        plain_tables(alloc, plan, rows, custom)
    }
}

/// What records leave, cut into so many pieces at most.
#[cycle(pieces)]
fn fold_rows<R: Threads + Sync, O: RowOp>(
    rt: &R,
    alloc: Global,
    plan: &Plan,
    rows: &[Row],
    workers: u32,
    custom: &O,
) -> Result<Piece, Memory>
    requires { All (IsRow (width_of plan.now Origin.Spout)) rows.now }
    ensures { IfOk result (IsPiece plan.now (O.meaning custom.now)
        (writes plan.now (O.meaning custom.now) rows.now)) }
{
    if workers < 2 || rows.len() < 2 {
        return fold_each(alloc, plan, rows, custom);
    }
    let few = workers / 2;
    let (first, rest) = rows.split_at(rows.len() / workers as usize * few as usize);
    both_halves(rt, alloc, plan, custom, first, few, rest, workers - few)
}

/// What records leave in two halves, the first on a thread of its own.
#[cycle(pieces)]
fn both_halves<R: Threads + Sync, O: RowOp>(
    rt: &R,
    alloc: Global,
    plan: &Plan,
    custom: &O,
    first: &[Row],
    few: u32,
    rest: &[Row],
    others: u32,
) -> Result<Piece, Memory>
    requires few { 0 < few }
    requires others { 0 < others }
    requires first { All (IsRow (width_of plan.now Origin.Spout)) first.now }
    requires rest { All (IsRow (width_of plan.now Origin.Spout)) rest.now }
    ensures { IfOk result (IsPiece plan.now (O.meaning custom.now)
        (writes plan.now (O.meaning custom.now) (first.now ++ rest.now))) }
{
    let ahead = || -> Result<Piece, Memory>
        requires { IsSync R.row × All (IsRow (width_of plan.now Origin.Spout)) first.now }
        ensures { IfOk result (IsPiece plan.entry.now (O.meaning custom.entry.now)
            (writes plan.entry.now (O.meaning custom.entry.now) first.entry.now)) }
    { fold_rows(rt, alloc, plan, first, few, custom) };
    let behind = || -> Result<Piece, Memory>
        requires { IsSync R.row × All (IsRow (width_of plan.now Origin.Spout)) rest.now }
        ensures { IfOk result (IsPiece plan.entry.now (O.meaning custom.entry.now)
            (writes plan.entry.now (O.meaning custom.entry.now) rest.entry.now)) }
    { fold_rows(rt, alloc, plan, rest, others, custom) };
    let (earlier, later) = join(rt, ahead, behind);
    let mut piece = earlier?;
    piece.merge(alloc, plan, custom, later?)?;
    Ok(piece)
}

/// What records leave, one after another.
fn fold_each<O: RowOp>(
    alloc: Global,
    plan: &Plan,
    rows: &[Row],
    custom: &O,
) -> Result<Piece, Memory>
    requires { All (IsRow (width_of plan.now Origin.Spout)) rows.now }
    ensures { IfOk result (IsPiece plan.now (O.meaning custom.now)
        (writes plan.now (O.meaning custom.now) rows.now)) }
{
    let mut piece = Piece::new(alloc, plan)?;
    for row in rows {
        piece.add_all(plan, custom, writes_of(alloc, plan, from_ref(row), custom)?)?;
    }
    Ok(piece)
}
