// Paths, ids, edges, spans and roots, as they are read.
ghost use Rattle.std.specs.Prelude.{◌≡◌, ◌∷◌, ◌≤◌, ◌+◌, IfOk, IfSome, length, map, option_map};
ghost use Rattle.report_lines.specs.Told.{edge_told};
ghost use Rattle.report_grammar.specs.steps.Lists.{edge_of, edges_of, front_of, id_of, last_of, number_of, path_of, pieces, pieces_left, rest_of, root_of, span_of, spans_of, wide_number_of};

use crate::cursor::{are_digits, number_in, split_before};
use hex::FromHex;
use record_spans::{Span, Spans};
use std::alloc::Global;
use storm_values::{Memory, Path, Root};
use tuple_tickets::{Edge, Edges};

/// The numbers of a path, if the text is one.
#[tactic(auto, using(crate::proofs::Pieces::one_more, crate::proofs::Pieces::none_there), unfolding(report_grammar::specs::steps::Lists::path_of))]
pub fn path_of(alloc: Global, text: &[u8]) -> Result<Option<Path>, Memory>
    ensures { IfOk result (λ read. read ≡ path_of text.now) }
{
    let mut path = Path::new(alloc);
    let mut rest = Some(text);
    while let Some(left) = rest {
        let (piece, others) = cut(left, b'.');
        let Some(number) = number_of(piece, u32::MAX) else {
            return Ok(None);
        };
        path.push(number)?;
        rest = others;
    }
    Ok(Some(path))
}

/// The first piece up to a byte, and what follows the byte.
#[tactic(auto, using(crate::proofs::Pieces::one_piece))]
fn cut(text: &[u8], byte: u8) -> (&[u8], Option<&[u8]>)
    ensures pieces { pieces byte text.now
        ≡ result.0.now ∷ pieces_left byte (option_map (λ s. s.now) result.1) }
    ensures shorter { IfSome result.1 (λ rest. length rest.now + 1 ≤ length text.now) }
{
    halves(text, byte)
}

/// The text up to a byte, and what follows the byte.
pub fn halves(text: &[u8], byte: u8) -> (&[u8], Option<&[u8]>)
    ensures front { result.0.now ≡ front_of byte text.now }
    ensures rest { option_map (λ s. s.now) result.1 ≡ rest_of byte text.now }
    ensures shorter { IfSome result.1 (λ rest. length rest.now + 1 ≤ length text.now) }
{
    let (piece, rest) = split_before(text, byte);
    match rest.split_first() {
        Some((_, others)) => (piece, Some(others)),
        None => (piece, None),
    }
}

/// What follows the last byte that is this one.
pub fn last_piece(text: &[u8], byte: u8) -> &[u8]
    ensures { result.now ≡ last_of (pieces byte text.now) }
{
    let (mut piece, mut rest) = cut(text, byte);
    while let Some(left) = rest {
        let (next, others) = cut(left, byte);
        piece = next;
        rest = others;
    }
    piece
}

pub fn number_of(text: &[u8], most: u32) -> Option<u32>
    ensures { result ≡ number_of most text.now }
{
    if !are_digits(text) {
        return None;
    }
    let number = number_in(text, u64::from(most))?;
    Some(number as u32)
}

/// The number of 64 bits that a text is.
fn wide_number_of(text: &[u8]) -> Option<u64>
    ensures { result ≡ wide_number_of text.now }
{
    if !are_digits(text) {
        return None;
    }
    number_in(text, u64::MAX)
}

/// The edges of a text, if it is some joined by spaces.
#[tactic(auto, using(crate::proofs::Pieces::one_more, crate::proofs::Pieces::none_there), unfolding(report_grammar::specs::steps::Lists::edges_of))]
pub fn edges_of(alloc: Global, text: &[u8]) -> Result<Option<Edges>, Memory>
    ensures { IfOk result (λ read. option_map (map edge_told) read ≡ edges_of text.now) }
{
    let mut edges = Edges::new(alloc);
    let mut rest = Some(text);
    while let Some(left) = rest {
        let (piece, others) = cut(left, b' ');
        let Some(edge) = edge_of(alloc, piece)? else {
            return Ok(None);
        };
        edges.push(edge)?;
        rest = others;
    }
    Ok(Some(edges))
}

#[tactic(auto, unfolding(report_grammar::specs::steps::Lists::edge_of))]
fn edge_of(alloc: Global, text: &[u8]) -> Result<Option<Edge>, Memory>
    ensures { IfOk result (λ read. option_map edge_told read ≡ edge_of text.now) }
{
    let (path, digits) = halves(text, b':');
    let Some(digits) = digits else {
        return Ok(None);
    };
    let Some(id) = id_of(digits) else {
        return Ok(None);
    };
    let Some(path) = path_of(alloc, path)? else {
        return Ok(None);
    };
    Ok(Some(Edge { path, id }))
}

/// The id that sixteen digits say.
#[tactic(auto, unfolding(report_grammar::specs::steps::Lists::id_of))]
fn id_of(text: &[u8]) -> Option<u64>
    ensures { result ≡ id_of text.now }
{
    let bytes = <[u8; 8] as FromHex>::from_hex(text).ok()?;
    Some(u64::from_be_bytes(bytes))
}

/// The spans of a text, if it is some joined by commas.
#[tactic(auto, using(crate::proofs::Pieces::one_more, crate::proofs::Pieces::none_there), unfolding(report_grammar::specs::steps::Lists::spans_of))]
pub fn spans_of(alloc: Global, text: &[u8]) -> Result<Option<Spans>, Memory>
    ensures { IfOk result (λ read. read ≡ spans_of text.now) }
{
    let mut spans = Spans::new(alloc);
    let mut rest = Some(text);
    while let Some(left) = rest {
        let (piece, others) = cut(left, b',');
        let Some(span) = span_of(piece) else {
            return Ok(None);
        };
        spans.push(span)?;
        rest = others;
    }
    Ok(Some(spans))
}

#[tactic(auto, unfolding(report_grammar::specs::steps::Lists::span_of))]
fn span_of(text: &[u8]) -> Option<Span>
    ensures { result ≡ span_of text.now }
{
    let (first, last) = halves(text, b'-');
    let last = wide_number_of(last?)?;
    let first = wide_number_of(first)?;
    Some(Span { first, last })
}

/// The transaction and the attempt of a text, if it is two numbers joined by a full stop.
#[tactic(auto, unfolding(report_grammar::specs::steps::Lists::root_of))]
pub fn root_of(text: &[u8]) -> Option<Root>
    ensures { result ≡ root_of text.now }
{
    let (txid, attempt) = halves(text, b'.');
    let attempt = number_of(attempt?, u32::MAX)?;
    let txid = wide_number_of(txid)?;
    Some(Root { txid, attempt })
}
