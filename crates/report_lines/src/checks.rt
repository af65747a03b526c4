// Whether a line that was read is well formed. The ranges of its numbers are those of their types.
ghost use Rattle.std.specs.Prelude.{◌≡◌, ◌<◌, ◌↔◌, IsTrue, IfOk, length, map};
ghost use Rattle.std.specs.List.{AllByRecursion, list_all};
ghost use Rattle.topology_plan.specs.Texts.{IsName, is_name, is_name_byte};
ghost use Rattle.report_grammar.specs.Lines.{IsLine};
ghost use Rattle.report_lines.specs.Told.{attempt_told, cell_told, edge_told, end_told, line_told, tail_told};
ghost use Rattle.report_grammar.specs.WellFormed.{AreSpans, IsAttempt, IsCell, IsEdge, IsEnd, IsPath, IsRoot, IsSpan, IsTail};

use crate::report::{AttemptLine, CellLine, EndLine, Line, Tail};
use key_texts::is_key_text;
use record_spans::Span;
use std::alloc::Global;
use storm_values::{MOST_NAME_BYTES, Memory, Path, Root};
use tuple_tickets::Edge;

pub fn is_line(alloc: Global, line: &Line) -> Result<bool, Memory>
    ensures { IfOk result (λ is. IsTrue is ↔ IsLine (line_told line.now)) }
{
    match line {
        Line::Attempt(attempt) => Ok(is_attempt(attempt)),
        Line::Cell(cell) => is_cell(alloc, cell),
        Line::Tail(tail) => Ok(is_tail(*tail)),
    }
}

fn is_attempt(line: &AttemptLine) -> bool
    ensures { IsTrue result ↔ IsAttempt (attempt_told line.now) }
{
    let _txid = line.root.txid;
    let _attempt = line.root.attempt;
    let _start = line.start;
    let _finish = line.finish;
    are_some_spans(line.spans.as_slice()) && is_end(&line.end)
}

/// Whether they are spans, and not none.
fn are_some_spans(spans: &[Span]) -> bool
    ensures { IsTrue result ↔ AreSpans spans.now }
{
    if spans.is_empty() {
        return false;
    }
    are_spans(spans)
}

fn are_spans(spans: &[Span]) -> bool
    ensures { IsTrue result ↔ AllByRecursion IsSpan spans.now }
{
    for span in spans {
        if !is_span(span) {
            return false;
        }
    }
    true
}

fn is_span(span: &Span) -> bool
    ensures { IsTrue result ↔ IsSpan span.now }
{
    let _first = span.first;
    let _last = span.last;
    true
}

fn is_end(end: &EndLine) -> bool
    ensures { IsTrue result ↔ IsEnd (end_told end.now) }
{
    match end {
        EndLine::Committed | EndLine::TimedOut => true,
        EndLine::Failed(path) => is_path(path),
        EndLine::Coincided(edges) => are_some_edges(edges.as_slice()),
        EndLine::CommitFailed(state, part) => {
            let _part = *part;
            is_name(state.as_bytes())
        }
        EndLine::Dropped(by) => is_root(*by),
    }
}

fn is_root(root: Root) -> bool
    ensures { IsTrue result ↔ IsRoot root }
{
    let _txid = root.txid;
    let _attempt = root.attempt;
    true
}

fn is_path(path: &Path) -> bool
    ensures { IsTrue result ↔ IsPath path.now }
{
    let numbers = path.as_slice();
    !numbers.is_empty()
}

/// Whether they are edges, and not none.
fn are_some_edges(edges: &[Edge]) -> bool
    ensures { IsTrue result ↔ ((0 < length (map edge_told edges.now))
        × AllByRecursion IsEdge (map edge_told edges.now)) }
{
    if edges.is_empty() {
        return false;
    }
    are_edges(edges)
}

fn are_edges(edges: &[Edge]) -> bool
    ensures { IsTrue result ↔ AllByRecursion IsEdge (map edge_told edges.now) }
{
    for edge in edges {
        if !is_edge(edge) {
            return false;
        }
    }
    true
}

fn is_edge(edge: &Edge) -> bool
    ensures { IsTrue result ↔ IsEdge (edge_told edge.now) }
{
    let _id = edge.id;
    is_path(&edge.path)
}

fn is_cell(alloc: Global, cell: &CellLine) -> Result<bool, Memory>
    ensures { IfOk result (λ is. IsTrue is ↔ IsCell (cell_told cell.now)) }
{
    let _value = cell.value;
    if !is_name(cell.state.as_bytes()) {
        return Ok(false);
    }
    is_key_text(alloc, cell.key.as_bytes())
}

fn is_tail(tail: Tail) -> bool
    ensures { IsTrue result ↔ IsTail (tail_told tail) }
{
    match tail {
        Tail::Ok { .. } | Tail::Exhausted(_) | Tail::Unfinished(_) => true,
    }
}

/// Whether it is 1 to 32 bytes of `a` to `z`, `0` to `9`, `_` and `-` that begin with a letter.
#[tactic(auto, unfolding(topology_plan::specs::Texts::IsName))]
fn is_name(bytes: &[u8]) -> bool
    ensures { IsTrue result ↔ IsName bytes.now }
{
    is_of_name(bytes)
}

fn is_of_name(bytes: &[u8]) -> bool
    ensures { result ≡ is_name bytes.now }
{
    (1..=MOST_NAME_BYTES).contains(&bytes.len())
        && matches!(bytes.first(), Some(b'a'..=b'z'))
        && all_name_bytes(bytes)
}

fn all_name_bytes(bytes: &[u8]) -> bool
    ensures { result ≡ list_all is_name_byte bytes.now }
{
    bytes.iter().all(|byte| is_name_byte(*byte))
}

fn is_name_byte(byte: u8) -> bool
    ensures { result ≡ is_name_byte byte }
{
    matches!(byte, b'a'..=b'z' | b'0'..=b'9' | b'_' | b'-')
}
