ghost use Rattle.std.specs.Prelude.{◌≤◌, length, All, IfOk, IfErr, string_bytes};
ghost use Rattle.event_worlds.specs.storm_values.Limits.{most_workers};
ghost use Rattle.event_worlds.specs.storm_values.Rows.{IsRow};
ghost use Rattle.storm_resume.specs.storm_answers.declared.status.Status.{Status};
ghost use Rattle.storm_resume.specs.storm_answers.Ends.{Ends, IsAnswered, FilesCounts};
ghost use Rattle.storm_resume.specs.storm_answers.Outside.{shelf_use, sink_use};
ghost use Rattle.storm_program.specs.Plain.{IsPlainReport, PlainCalls, PlainComes};
ghost use Rattle.storm_resume.specs.storm_answers.steps.Stops.{Stops};

use crate::plain::report_of_tables;
use event_worlds::bolt_ops::RowOp;
use event_worlds::storm_values::Memory;
use fold_tables::fold_tables;
use std::alloc::Global;
use std::thread::Threads;
use storm_outside::{Shelf, Sink};
use storm_resume::storm_answers::{Accepted, EarlyEnd, Status, read_files, write_answer};

/// Makes the tables of a topology file and the records of another file as `storm_plain` does, by so
/// many workers, and writes the same report.
///
/// Each worker has a consecutive piece of the records, and the tables of neighbours are merged. It
/// takes every valid topology, and no bolt fails or stays mute. It reads both files before it
/// begins, and builds the whole text before it writes. Memory is proportional to the input and to
/// the keys of all pieces. Time is proportional to the number of tuples of the longest piece, and
/// to n log n for n keys of a state. It uses neither stores nor ids nor ticks, and always returns.
pub fn storm_fold<R: Threads + Sync, H: Shelf, K: Sink, O: RowOp>(
    rt: &R,
    alloc: Global,
    topology: &str,
    input: &str,
    workers: u32,
    shelf: &mut H,
    out: &mut K,
    custom: &O,
) -> Status
    requires workers { (1 ≤ workers) × (workers ≤ most_workers) }

    // The clauses are those of `storm_plain`: with status 0 the output took exactly the report
    // without attempt lines, whatever the number of workers. Its tables are those of one machine
    // that takes all records in order, whatever fails or stays mute.
    ensures ends { Ends
        (PlainComes (O.meaning custom.now)
        (shelf_use H.holds H.ready H.fetches H.faults shelf.old shelf.new)
        topology.now input.now)
        (sink_use K.taken K.faults out.old out.new) result }
    ensures answered { IsAnswered (PlainCalls (H.holds shelf.old) topology.now input.now)
        (shelf_use H.holds H.ready H.fetches H.faults shelf.old shelf.new)
        (sink_use K.taken K.faults out.old out.new) result }
    ensures counts { FilesCounts
        (shelf_use H.holds H.ready H.fetches H.faults shelf.old shelf.new)
        (sink_use K.taken K.faults out.old out.new) }
{
    let came = fold_files(rt, alloc, topology, input, workers, shelf, custom);
    write_answer(came, out)
}

/// Reads a topology and an input, and makes the tables by pieces.
fn fold_files<R: Threads + Sync, H: Shelf, O: RowOp>(
    rt: &R,
    alloc: Global,
    topology: &str,
    input: &str,
    workers: u32,
    shelf: &mut H,
    custom: &O,
) -> Result<String, EarlyEnd>
    requires workers { (1 ≤ workers) × (workers ≤ most_workers) }
    ensures done { IfOk result (λ text. PlainComes (O.meaning custom.now)
        (shelf_use H.holds H.ready H.fetches H.faults shelf.old shelf.new) topology.now input.now
        Status.Done (string_bytes text)) }
    ensures stop { IfErr result (Stops (PlainComes (O.meaning custom.now)
        (shelf_use H.holds H.ready H.fetches H.faults shelf.old shelf.new)
        topology.now input.now)) }
    ensures never_falls { H.faults shelf.old ≤ H.faults shelf.new }
{
    let files = read_files(alloc, topology, input, shelf)?;
    let report = folded_report(rt, alloc, files, workers, custom)?;
    Ok(report)
}

/// The report of a plan and the records of its input, by pieces of the records.
fn folded_report<R: Threads + Sync, O: RowOp>(
    rt: &R,
    alloc: Global,
    files: Accepted,
    workers: u32,
    custom: &O,
) -> Result<String, Memory>
    requires workers { (1 ≤ workers) × (workers ≤ most_workers) }
    requires rows { All (IsRow (length files.plan.spout_fields)) files.rows }
    ensures { IfOk result (λ text. IsPlainReport (O.meaning custom.now)
        files.plan files.rows (string_bytes text)) }
{
    let Accepted { plan, rows } = files;
    let tables = fold_tables(rt, alloc, &plan, &rows, workers, custom)?;
    report_of_tables(alloc, &plan, &rows, &tables)
}
