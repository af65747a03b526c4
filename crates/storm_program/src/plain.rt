ghost use Rattle.std.specs.Prelude.{◌≡◌, ◌≤◌, length, All, IfOk, IfErr, string_bytes};
ghost use Rattle.event_worlds.specs.bolt_ops.RowOp.{Custom};
ghost use Rattle.event_worlds.specs.storm_values.Rows.{IsRow};
ghost use Rattle.event_worlds.specs.tree_model.Tables.{AreTables};
ghost use Rattle.event_worlds.specs.tree_model.Trees.{writes};
ghost use Rattle.storm_resume.specs.storm_answers.declared.status.Status.{Status};
ghost use Rattle.storm_resume.specs.storm_answers.Outside.{shelf_use};
ghost use Rattle.storm_program.specs.Plain.{IsPlainReport, PlainComes};
ghost use Rattle.storm_resume.specs.storm_answers.steps.Stops.{Stops};

use event_worlds::bolt_ops::RowOp;
use event_worlds::storm_values::{Memory, Rows};
use event_worlds::topology_plan::Plan;
use event_worlds::tree_model::{Tables, plain_tables};
use run_report::{Tail, report_text};
use std::alloc::Global;
use storm_outside::Shelf;
use storm_resume::storm_answers::{Accepted, EarlyEnd, read_files};

/// Reads a topology and an input, and makes the tables by definition.
pub fn plain_files<H: Shelf, O: RowOp>(
    alloc: Global,
    topology: &str,
    input: &str,
    shelf: &mut H,
    custom: &O,
) -> Result<String, EarlyEnd>
    ensures done { IfOk result (λ text. PlainComes (O.meaning custom.now)
        (shelf_use H.holds H.ready H.fetches H.faults shelf.old shelf.new) topology.now input.now
        Status.Done (string_bytes text)) }
    ensures stop { IfErr result (Stops (PlainComes (O.meaning custom.now)
        (shelf_use H.holds H.ready H.fetches H.faults shelf.old shelf.new)
        topology.now input.now)) }
    ensures never_falls { H.faults shelf.old ≤ H.faults shelf.new }
{
    let files = read_files(alloc, topology, input, shelf)?;
    let report = plain_report(alloc, files, custom)?;
    Ok(report)
}

/// The report of a plan and the records of its input, without attempt lines.
fn plain_report<O: RowOp>(alloc: Global, files: Accepted, custom: &O) -> Result<String, Memory>
    requires rows { All (IsRow (length files.plan.spout_fields)) files.rows }
    ensures { IfOk result (λ text. IsPlainReport (O.meaning custom.now)
        files.plan files.rows (string_bytes text)) }
{
    let Accepted { plan, rows } = files;
    let tables = plain_tables(alloc, &plan, &rows, custom)?;
    report_of_tables(alloc, &plan, &rows, &tables)
}

/// The report of the tables of all records of an input.
pub fn report_of_tables(
    alloc: Global,
    plan: &Plan,
    rows: &Rows,
    tables: &Tables,
) -> Result<String, Memory>
    ensures { IfOk result (λ text. (custom : Custom)
        → AreTables plan.now custom (writes plan.now custom rows.now) tables.now
        → IsPlainReport custom plan.now rows.now (string_bytes text)) }
{
    let records = rows.len() as u64;
    let tail = Tail::Ok {
        records,
        batches: records.div_ceil(u64::from(plan.batch())),
    };
    report_text(alloc, plan, &[], tables.as_slice(), tail)
}
