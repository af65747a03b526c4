// The text of a report.
ghost use Rattle.std.specs.Prelude.{◌≡◌, ◌++◌, map, IfOk, OnOk, string_bytes};
ghost use Rattle.std.specs.List.{flat_map};
ghost use Rattle.report_grammar.specs.Lines.{line_text};
ghost use Rattle.report_grammar.specs.Report.{attempt_text, cell_text, coincided, commit_failed, dropped, end_text, failed, report_text, tail_text};
ghost use Rattle.report_lines.specs.Told.{attempt_told, cell_told, edge_told, end_told, line_told, tail_told, told};
ghost use Rattle.report_lines.specs.steps.Printed.{heading_text};

use crate::report::{AttemptLine, CellLine, EndLine, Line, Report, Tail};
use crate::texts::{push_edges, push_path, push_root, push_spans};
use std::alloc::Global;
use std::fmt::Write;
use storm_values::{Memory, Path, Root};
use tuple_tickets::Edge;

/// The one text of a report, in time linear in its length.
#[tactic(auto, unfolding(report_grammar::specs::Report::report_text))]
pub fn print_report(alloc: Global, report: &Report) -> Result<String, Memory>
    ensures { IfOk result (λ text. string_bytes text ≡ report_text (told report.now)) }
{
    let mut text = String::new(alloc);
    push_attempts(alloc, &mut text, report.lines.as_slice())?;
    push_cells(&mut text, report.cells.as_slice())?;
    push_tail(&mut text, report.tail)?;
    Ok(text)
}

pub fn push_line(alloc: Global, text: &mut String, line: &Line) -> Result<(), Memory>
    ensures { OnOk result
        (string_bytes text.new ≡ string_bytes text.old ++ line_text (line_told line.now)) }
{
    match line {
        Line::Attempt(attempt) => push_attempt(alloc, text, attempt),
        Line::Cell(cell) => push_cell(text, cell),
        Line::Tail(tail) => push_tail(text, *tail),
    }
}

fn push_attempts(alloc: Global, text: &mut String, lines: &[AttemptLine]) -> Result<(), Memory>
    ensures { OnOk result (string_bytes text.new
        ≡ string_bytes text.old ++ flat_map attempt_text (map attempt_told lines.now)) }
{
    for line in lines {
        push_attempt(alloc, text, line)?;
    }
    Ok(())
}

fn push_attempt(alloc: Global, text: &mut String, line: &AttemptLine) -> Result<(), Memory>
    ensures { OnOk result
        (string_bytes text.new ≡ string_bytes text.old ++ attempt_text (attempt_told line.now)) }
{
    push_heading(text, line)?;
    push_end(alloc, text, &line.end)?;
    writeln!(text)?;
    Ok(())
}

#[tactic(auto, unfolding(crate::specs::steps::Printed::heading_text))]
fn push_heading(text: &mut String, line: &AttemptLine) -> Result<(), Memory>
    ensures { OnOk result
        (string_bytes text.new ≡ string_bytes text.old ++ heading_text (attempt_told line.now)) }
{
    let (txid, attempt) = (line.root.txid, line.root.attempt);
    write!(text, "attempt {txid}.{attempt} records ")?;
    push_spans(text, line.spans.as_slice())?;
    let (start, finish) = (line.start, line.finish);
    write!(text, " ticks {start}-{finish} ")?;
    Ok(())
}

fn push_end(alloc: Global, text: &mut String, end: &EndLine) -> Result<(), Memory>
    ensures { OnOk result
        (string_bytes text.new ≡ string_bytes text.old ++ end_text (end_told end.now)) }
{
    match end {
        EndLine::Committed => text.push_str("committed"),
        EndLine::Failed(path) => push_failed(text, path),
        EndLine::TimedOut => text.push_str("timed out"),
        EndLine::Coincided(edges) => push_coincided(alloc, text, edges.as_slice()),
        EndLine::CommitFailed(state, part) => push_commit_failed(text, state.as_str(), *part),
        EndLine::Dropped(by) => push_dropped(text, *by),
    }
}

fn push_failed(text: &mut String, path: &Path) -> Result<(), Memory>
    ensures { OnOk result
        (string_bytes text.new ≡ string_bytes text.old ++ end_text (failed path.now)) }
{
    text.push_str("failed ")?;
    push_path(text, path)
}

fn push_coincided(alloc: Global, text: &mut String, edges: &[Edge]) -> Result<(), Memory>
    ensures { OnOk result (string_bytes text.new
        ≡ string_bytes text.old ++ end_text (coincided (map edge_told edges.now))) }
{
    text.push_str("coincided ")?;
    push_edges(alloc, text, edges)
}

fn push_commit_failed(text: &mut String, state: &str, part: u32) -> Result<(), Memory>
    ensures { OnOk result (string_bytes text.new
        ≡ string_bytes text.old ++ end_text (commit_failed state.now part)) }
{
    write!(text, "commit failed {state} {part}")?;
    Ok(())
}

fn push_dropped(text: &mut String, by: Root) -> Result<(), Memory>
    ensures { OnOk result
        (string_bytes text.new ≡ string_bytes text.old ++ end_text (dropped by)) }
{
    text.push_str("dropped ")?;
    push_root(text, by)
}

fn push_cells(text: &mut String, cells: &[CellLine]) -> Result<(), Memory>
    ensures { OnOk result (string_bytes text.new
        ≡ string_bytes text.old ++ flat_map cell_text (map cell_told cells.now)) }
{
    for cell in cells {
        push_cell(text, cell)?;
    }
    Ok(())
}

fn push_cell(text: &mut String, cell: &CellLine) -> Result<(), Memory>
    ensures { OnOk result
        (string_bytes text.new ≡ string_bytes text.old ++ cell_text (cell_told cell.now)) }
{
    let state = cell.state.as_str();
    let key = cell.key.as_str();
    let value = cell.value;
    writeln!(text, "cell {state} {key} {value}")?;
    Ok(())
}

fn push_tail(text: &mut String, tail: Tail) -> Result<(), Memory>
    ensures { OnOk result
        (string_bytes text.new ≡ string_bytes text.old ++ tail_text (tail_told tail)) }
{
    match tail {
        Tail::Ok { records, batches } => {
            writeln!(text, "ok {records} records {batches} batches")?;
        }
        Tail::Exhausted(txid) => writeln!(text, "exhausted {txid}")?,
        Tail::Unfinished(committed) => writeln!(text, "unfinished {committed}")?,
    }
    Ok(())
}
