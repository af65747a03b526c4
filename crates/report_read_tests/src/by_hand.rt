// A report that is put together, printed, and read back.
use crate::read::check_reports;
use record_spans::{Span, Spans};
use report_lines::{
    AttemptLine, AttemptLines, CellLine, CellLines, EndLine, Report, Tail, print_report,
};
use std::alloc::Global;
use storm_values::{Memory, Path, Root, Txt};
use test_kit::{Mismatch, compare};
use tuple_tickets::{Edge, Edges};

const TEXT: &str = "attempt 7.1 records 3-4 ticks 0-1 failed 0.2
attempt 7.2 records 3-4 ticks 1-2 coincided 5:00000000000000ff
attempt 7.3 records 3-4 ticks 2-2 commit failed sold 1
attempt 7.4 records 3-4 ticks 2-9 timed out
attempt 7.5 records 3-4 ticks 9-9 dropped 6.2
attempt 7.6 records 3-3,5-6,8-8 ticks 9-9 committed
cell sold [\"glass\"] -3
ok 4 records 2 batches
";

fn spans_of(alloc: Global, spans: &[(u64, u64)]) -> Result<Spans, Memory> {
    let mut made = Spans::new(alloc);
    for (first, last) in spans {
        made.push(Span {
            first: *first,
            last: *last,
        })?;
    }
    Ok(made)
}

fn line_of(attempt: u32, spans: Spans, start: u64, finish: u64, end: EndLine) -> AttemptLine {
    AttemptLine {
        root: Root { txid: 7, attempt },
        spans,
        start,
        finish,
        end,
    }
}

fn edges_of(alloc: Global) -> Result<Edges, Memory> {
    let mut edges = Edges::new(alloc);
    let path = Path::from_slice(alloc, &[5])?;
    edges.push(Edge { path, id: 255 })?;
    Ok(edges)
}

fn lines_of(alloc: Global) -> Result<AttemptLines, Memory> {
    let mut lines = AttemptLines::new(alloc);
    let path = Path::from_slice(alloc, &[0, 2])?;
    let spans = spans_of(alloc, &[(3, 4)])?;
    lines.push(line_of(1, spans.copy()?, 0, 1, EndLine::Failed(path)))?;
    let edges = edges_of(alloc)?;
    lines.push(line_of(2, spans.copy()?, 1, 2, EndLine::Coincided(edges)))?;
    let state = Txt::from_str(alloc, "sold")?;
    let refused = EndLine::CommitFailed(state, 1);
    lines.push(line_of(3, spans.copy()?, 2, 2, refused))?;
    lines.push(line_of(4, spans.copy()?, 2, 9, EndLine::TimedOut))?;
    let by = Root {
        txid: 6,
        attempt: 2,
    };
    lines.push(line_of(5, spans, 9, 9, EndLine::Dropped(by)))?;
    let apart = spans_of(alloc, &[(3, 3), (5, 6), (8, 8)])?;
    lines.push(line_of(6, apart, 9, 9, EndLine::Committed))?;
    Ok(lines)
}

fn cells_of(alloc: Global) -> Result<CellLines, Memory> {
    let mut cells = CellLines::new(alloc);
    cells.push(CellLine {
        state: Txt::from_str(alloc, "sold")?,
        key: Txt::from_str(alloc, "[\"glass\"]")?,
        value: -3,
    })?;
    Ok(cells)
}

#[test]
fn a_report_that_is_put_together(rt: HostRuntime) -> Result<(), Mismatch> {
    let alloc = rt.alloc();
    let report = Report {
        lines: lines_of(alloc)?,
        cells: cells_of(alloc)?,
        tail: Tail::Ok {
            records: 4,
            batches: 2,
        },
    };
    let text = print_report(alloc, &report)?;
    compare(alloc, "a report", text.as_str(), TEXT)?;
    check_reports(alloc, &[TEXT])
}
