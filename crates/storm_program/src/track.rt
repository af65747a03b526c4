ghost use Rattle.std.specs.Prelude.{◌≤◌, length, All, IfOk, IfErr, string_bytes};
ghost use Rattle.event_worlds.specs.storm_values.Limits.{most_workers};
ghost use Rattle.event_worlds.specs.storm_values.Rows.{IsRow};
ghost use Rattle.storm_resume.specs.storm_answers.declared.status.Status.{Status};
ghost use Rattle.storm_resume.specs.storm_answers.Outside.{shelf_use};
ghost use Rattle.storm_program.specs.Track.{TrackComes};
ghost use Rattle.storm_resume.specs.storm_answers.steps.Stops.{Stops};
ghost use Rattle.track_runs.specs.Tracked.{IsTrackText};

use event_worlds::bolt_ops::RowOp;
use event_worlds::storm_ids::IdMaker;
use event_worlds::storm_values::Memory;
use std::alloc::Global;
use std::thread::Threads;
use storm_outside::Shelf;
use storm_resume::storm_answers::{Accepted, EarlyEnd, read_files};
use track_runs::tracked_text;

/// Reads a topology and an input, and tracks the records one by one.
pub fn track_files<R: Threads + Sync, H: Shelf, N: IdMaker, O: RowOp>(
    rt: &R,
    alloc: Global,
    topology: &str,
    input: &str,
    workers: u32,
    shelf: &mut H,
    ids: &mut N,
    custom: &O,
) -> Result<String, EarlyEnd>
    requires some { 1 ≤ workers }
    requires few { workers ≤ most_workers }
    ensures done { IfOk result (λ text. TrackComes (O.meaning custom.now)
        (shelf_use H.holds H.ready H.fetches H.faults shelf.old shelf.new) topology.now input.now
        Status.Done (string_bytes text)) }
    ensures stop { IfErr result (Stops (TrackComes (O.meaning custom.now)
        (shelf_use H.holds H.ready H.fetches H.faults shelf.old shelf.new)
        topology.now input.now)) }
    ensures never_falls { H.faults shelf.old ≤ H.faults shelf.new }
{
    let files = read_files(alloc, topology, input, shelf)?;
    let text = tracked(rt, alloc, files, workers, ids, custom)?;
    Ok(text)
}

/// The text of a tracking of the records of an input by a plan.
fn tracked<R: Threads + Sync, N: IdMaker, O: RowOp>(
    rt: &R,
    alloc: Global,
    files: Accepted,
    workers: u32,
    ids: &mut N,
    custom: &O,
) -> Result<String, Memory>
    requires some { 1 ≤ workers }
    requires few { workers ≤ most_workers }
    requires rows { All (IsRow (length files.plan.spout_fields)) files.rows }
    ensures { IfOk result (λ text.
        IsTrackText files.plan (O.meaning custom.now) files.rows (string_bytes text)) }
{
    let Accepted { plan, rows } = files;
    tracked_text(rt, alloc, &plan, rows, workers, ids, custom)
}
