ghost use Rattle.std.specs.Prelude.{◌≤◌, All, IfOk, string_bytes};
ghost use Rattle.tree_model.specs.storm_values.Rows.{IsRow};
ghost use Rattle.tree_model.specs.topology_plan.Wired.{width_of};
ghost use Rattle.track_runs.specs.Tracked.{IsTrackText};

use crate::records::track_records;
use std::alloc::Global;
use std::thread::Threads;
use storm_ids::IdMaker;
use track_report::track_text;
use tree_model::bolt_ops::RowOp;
use tree_model::storm_values::{Memory, Rows};
use tree_model::topology_plan::{Origin, Plan};

/// Tracks all records, and makes the text that tells how each ended and what all of them reached.
///
/// Ids come of one source, that of the spout, whose number is the one after those of the tasks. It
/// costs what `track_records` does, and besides the length of the text.
pub fn tracked_text<R: Threads + Sync, N: IdMaker, O: RowOp>(
    rt: &R,
    alloc: Global,
    plan: &Plan,
    rows: Rows,
    workers: u32,
    ids: &mut N,
    custom: &O,
) -> Result<String, Memory>
    requires rows { All (IsRow (width_of plan.now Origin.Spout)) rows }
    requires workers { (1 ≤ workers) × (workers ≤ 64) }
    ensures { IfOk result
        (λ text. IsTrackText plan.now (O.meaning custom.now) rows (string_bytes text)) }
{
    let mut source = ids.make(plan.tasks())?;
    let tracked = track_records(rt, alloc, plan, rows, workers, &mut source, custom)?;
    track_text(
        alloc,
        plan,
        tracked.ends.as_slice(),
        tracked.tallies.as_slice(),
    )
}
