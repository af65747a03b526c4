// Texts of paths, of edges, of spans and of roots.
ghost use Rattle.std.specs.Prelude.{◌≡◌, ◌++◌, map, IfOk, OnOk, string_bytes};
ghost use Rattle.report_grammar.specs.Report.{edge_text, edges_text, hex_text, path_text, root_text, span_text, spans_text};
ghost use Rattle.report_lines.specs.Told.{edge_told};

use record_spans::Span;
use std::alloc::Global;
use std::fmt::Write;
use storm_values::{Memory, Path, Root};
use tuple_tickets::Edge;

/// Adds the numbers of a path, joined by full stops.
pub fn push_path(text: &mut String, path: &Path) -> Result<(), Memory>
    ensures { OnOk result (string_bytes text.new ≡ string_bytes text.old ++ path_text path.now) }
{
    let Some((first, others)) = path.as_slice().split_first() else {
        return Ok(());
    };
    write!(text, "{first}")?;
    for number in others {
        write!(text, ".{number}")?;
    }
    Ok(())
}

/// Adds edges, joined by spaces.
pub fn push_edges(alloc: Global, text: &mut String, edges: &[Edge]) -> Result<(), Memory>
    ensures { OnOk result (string_bytes text.new
        ≡ string_bytes text.old ++ edges_text (map edge_told edges.now)) }
{
    let Some((first, others)) = edges.split_first() else {
        return Ok(());
    };
    push_edge(alloc, text, first)?;
    for edge in others {
        text.push_str(" ")?;
        push_edge(alloc, text, edge)?;
    }
    Ok(())
}

fn push_edge(alloc: Global, text: &mut String, edge: &Edge) -> Result<(), Memory>
    ensures { OnOk result (string_bytes text.new
        ≡ string_bytes text.old ++ edge_text (edge_told edge.now)) }
{
    push_path(text, &edge.path)?;
    let id = hex_of(alloc, edge.id)?;
    write!(text, ":{id}")?;
    Ok(())
}

/// The sixteen digits of an id.
fn hex_of(alloc: Global, id: u64) -> Result<String, Memory>
    ensures { IfOk result (λ text. string_bytes text ≡ hex_text 16 id) }
{
    hex::encode(alloc, id.to_be_bytes())
}

/// Adds spans, joined by commas.
pub fn push_spans(text: &mut String, spans: &[Span]) -> Result<(), Memory>
    ensures { OnOk result
        (string_bytes text.new ≡ string_bytes text.old ++ spans_text spans.now) }
{
    let Some((first, others)) = spans.split_first() else {
        return Ok(());
    };
    push_span(text, first)?;
    for span in others {
        text.push_str(",")?;
        push_span(text, span)?;
    }
    Ok(())
}

fn push_span(text: &mut String, span: &Span) -> Result<(), Memory>
    ensures { OnOk result
        (string_bytes text.new ≡ string_bytes text.old ++ span_text span.now) }
{
    let (first, last) = (span.first, span.last);
    write!(text, "{first}-{last}")?;
    Ok(())
}

/// Adds the numbers of a transaction and of an attempt, joined by a full stop.
pub fn push_root(text: &mut String, root: Root) -> Result<(), Memory>
    ensures { OnOk result
        (string_bytes text.new ≡ string_bytes text.old ++ root_text root) }
{
    let (txid, attempt) = (root.txid, root.attempt);
    write!(text, "{txid}.{attempt}")?;
    Ok(())
}
