// A report as a value.
ghost use Rattle.std.specs.Prelude.{◌≡◌, ◌++◌, IfOk, OnOk, map};
ghost use Rattle.report_grammar.specs.Report.{report_text};
ghost use Rattle.report_lines.specs.Told.{attempt_told, cell_told, edge_told, end_told, told};
ghost use Rattle.run_report.specs.Cells.{cell_of, cells_of};
ghost use Rattle.run_report.specs.Fated.{AreLinesOf, AreOpenOf, IsEndOf, IsLineOf, IsReportText};

use crate::attempts::name_of;
use acker_core::{Check, check_list};
use attempt_fates::{Attempt, End};
use message_lists::Notes;
use report_lines::{AttemptLine, AttemptLines, CellLine, CellLines, EndLine, Report, Tail};
use std::alloc::Global;
use tree_model::storm_values::{Duplicate, Memory, Txt};
use tree_model::topology_plan::Plan;
use tree_model::tuple_tickets::Edges;
use tree_model::{Pair, Table};

/// The report whose text `report_text` makes. It copies the spans, names and keys of all lines, and
/// takes time in proportion to them, and besides to n log n for the n edges of each attempt that
/// coincided.
pub fn report_of(
    alloc: Global,
    plan: &Plan,
    fates: &[Attempt],
    tables: &[Table],
    tail: Tail,
) -> Result<Report, Memory>
    ensures { IfOk result (λ report.
        IsReportText plan.now fates.now tables.now tail (report_text (told report))) }
{
    let lines = lines_of(alloc, plan, fates)?;
    let cells = cells_in(alloc, tables)?;
    Ok(Report { lines, cells, tail })
}

// The ends of attempts, in their order.
fn lines_of(alloc: Global, plan: &Plan, fates: &[Attempt]) -> Result<AttemptLines, Memory>
    ensures { IfOk result (λ lines. AreLinesOf plan.now fates.now (map attempt_told lines)) }
{
    let mut lines = AttemptLines::new(alloc);
    for attempt in fates {
        lines.push(line_of(alloc, plan, attempt)?)?;
    }
    Ok(lines)
}

fn line_of(alloc: Global, plan: &Plan, attempt: &Attempt) -> Result<AttemptLine, Memory>
    ensures { IfOk result (λ line. IsLineOf plan.now attempt.now (attempt_told line)) }
{
    let end = end_of(alloc, plan, &attempt.end)?;
    Ok(AttemptLine {
        root: attempt.root,
        spans: attempt.spans.copy()?,
        start: attempt.start,
        finish: attempt.finish,
        end,
    })
}

fn end_of(alloc: Global, plan: &Plan, end: &End) -> Result<EndLine, Memory>
    ensures { IfOk result (λ made. IsEndOf plan.now end.now (end_told made)) }
{
    match end {
        End::Committed(_) => Ok(EndLine::Committed),
        End::Failed(path) => Ok(EndLine::Failed(path.copy()?)),
        End::TimedOut => Ok(EndLine::TimedOut),
        End::Coincided(list) => Ok(EndLine::Coincided(open_edges(alloc, list)?)),
        End::CommitFailed {
            component,
            part,
            ..
        } => {
            let state = Txt::from_str(alloc, name_of(plan, *component))?;
            Ok(EndLine::CommitFailed(state, *part))
        }
        End::Dropped(by) => Ok(EndLine::Dropped(*by)),
    }
}

// The edges that a list leaves open.
fn open_edges(alloc: Global, list: &Notes) -> Result<Edges, Memory>
    ensures { IfOk result (λ edges. AreOpenOf list.now (map edge_told edges)) }
{
    match check_list(alloc, list)? {
        Check::Closed(_) => Ok(Edges::new(alloc)),
        Check::Left(edges) => Ok(edges),
    }
}

// The cells of tables, in their order.
fn cells_in(alloc: Global, tables: &[Table]) -> Result<CellLines, Memory>
    ensures { IfOk result (λ cells. map cell_told cells ≡ cells_of tables.now) }
{
    let mut cells = CellLines::new(alloc);
    for table in tables {
        add_cells(&mut cells, &table.name, table.pairs.as_slice())?;
    }
    Ok(cells)
}

// Adds the cells of a state.
fn add_cells(into: &mut CellLines, name: &Txt, pairs: &[Pair]) -> Result<(), Memory>
    ensures { OnOk result
        (map cell_told into.new ≡ map cell_told into.old ++ map (cell_of name.now) pairs.now) }
{
    for pair in pairs {
        into.push(CellLine {
            state: name.copy()?,
            key: pair.key.copy()?,
            value: pair.value,
        })?;
    }
    Ok(())
}
