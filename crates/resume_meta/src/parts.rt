// The parts of a meta text, as they are read.
ghost use Rattle.std.specs.Prelude.{◌≡◌, ◌+◌, ◌<◌, ◌≤◌, ◌^◌, ℕ, List, Some, IfOk, IfSome, decimal, length, option_map};
ghost use Rattle.std.specs.List.{AllByRecursion};
ghost use Rattle.record_spans.specs.declared.span.Span.{Span};
ghost use Rattle.report_grammar.specs.Report.{span_text, spans_text};
ghost use Rattle.report_grammar.specs.WellFormed.{AreSpans, IsSpan};
ghost use Rattle.report_grammar.specs.steps.Lists.{front_of, rest_of};
ghost use Rattle.resume_meta.specs.Meta.{kept_spans};
ghost use Rattle.resume_meta.specs.steps.Parts.{parts_told};
ghost use Rattle.resume_meta.specs.steps.Reading.{parts_in, records_in, spans_in};

use record_spans::{Span, Spans};
use std::alloc::Global;
use std::str::from_utf8;
use storm_values::{Memory, find_byte};

/// What stands in a text where a meta text has its numbers and its spans.
#[derive(Clone, Copy)]
pub struct Parts<'a> {
    pub txid: &'a [u8],
    pub records: &'a [u8],
    pub spans: &'a [u8],
}

#[tactic(auto, unfolding(crate::specs::steps::Reading::parts_in))]
pub fn parts_of(text: &[u8]) -> Option<Parts<'_>>
    ensures { option_map parts_told result ≡ parts_in text.now }
{
    let (txid, rest) = halves(text.strip_prefix(b"meta 1 txid ")?, b' ');
    records_of(txid, rest?)
}

#[tactic(auto, unfolding(crate::specs::steps::Reading::records_in))]
fn records_of<'a>(txid: &'a [u8], text: &'a [u8]) -> Option<Parts<'a>>
    ensures { option_map parts_told result ≡ records_in txid.now text.now }
{
    let (records, rest) = halves(text.strip_prefix(b"records ")?, b' ');
    spans_behind(txid, records, rest?)
}

#[tactic(auto, unfolding(crate::specs::steps::Reading::spans_in))]
fn spans_behind<'a>(txid: &'a [u8], records: &'a [u8], text: &'a [u8]) -> Option<Parts<'a>>
    ensures { option_map parts_told result ≡ spans_in txid.now records.now text.now }
{
    let (spans, _) = halves(text.strip_prefix(b"spans ")?, b'\n');
    Some(Parts {
        txid,
        records,
        spans,
    })
}

/// The text up to a byte, and what follows the byte.
fn halves(text: &[u8], byte: u8) -> (&[u8], Option<&[u8]>)
    ensures front { result.0.now ≡ front_of byte text.now }
    ensures rest { option_map (λ rest. rest.now) result.1 ≡ rest_of byte text.now }
    ensures shorter { IfSome result.1 (λ rest. length rest.now + 1 ≤ length text.now) }
{
    match find_byte(text, byte) {
        Some(at) => (&text[..at], Some(&text[at + 1..])),
        None => (text, None),
    }
}

/// The number that a text says.
pub fn number_of(text: &[u8]) -> Option<u64>
    ensures { (n : ℕ) → n < 2 ^ 64 → text.now ≡ decimal n → result ≡ Some n }
{
    match from_utf8(text) {
        Ok(text) => text.parse::<u64>().ok(),
        Err(_) => None,
    }
}

/// The spans that a text says.
pub fn kept_spans_of(alloc: Global, text: &[u8]) -> Result<Option<Spans>, Memory>
    ensures only { IfOk result (λ read. (spans : List Span) → AllByRecursion IsSpan spans
        → text.now ≡ kept_spans spans → read ≡ Some spans) }
    ensures fit { IfOk result (λ read. IfSome read (AllByRecursion IsSpan)) }
{
    if text == b"none".as_slice() {
        return Ok(Some(Spans::new(alloc)));
    }
    spans_of(alloc, text)
}

/// The spans of a text, if it is some joined by commas.
fn spans_of(alloc: Global, text: &[u8]) -> Result<Option<Spans>, Memory>
    ensures only { IfOk result (λ read. (spans : List Span) → AreSpans spans
        → text.now ≡ spans_text spans → read ≡ Some spans) }
    ensures fit { IfOk result (λ read. IfSome read (AllByRecursion IsSpan)) }
{
    let mut spans = Spans::new(alloc);
    let mut rest = Some(text);
    while let Some(left) = rest {
        let (piece, others) = halves(left, b',');
        let Some(span) = span_of(piece) else {
            return Ok(None);
        };
        spans.push(span)?;
        rest = others;
    }
    Ok(Some(spans))
}

fn span_of(text: &[u8]) -> Option<Span>
    ensures only { (span : Span) → IsSpan span → text.now ≡ span_text span → result ≡ Some span }
    ensures fit { IfSome result IsSpan }
{
    let (first, last) = halves(text, b'-');
    let last = number_of(last?)?;
    let first = number_of(first)?;
    Some(Span { first, last })
}
