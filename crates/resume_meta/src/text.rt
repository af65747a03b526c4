// The text of a meta, and the meta that a text is.
ghost use Rattle.std.specs.Prelude.{◌≡◌, ◌+◌, ◌++◌, ◌↔◌, IfOk, IfSome, IfNone, IsTrue, OnOk, Some, string_bytes};
ghost use Rattle.std.specs.List.{AllByRecursion};
ghost use Rattle.record_spans.specs.Spans.{AreApart};
ghost use Rattle.report_grammar.specs.WellFormed.{IsSpan};
ghost use Rattle.resume_meta.specs.Meta.{AreSeparate, IsNoText, IsTextOf, kept_spans, meta_text};
ghost use Rattle.resume_meta.specs.declared.meta.Meta.{Meta};

use crate::meta::Meta;
use crate::parts::{kept_spans_of, number_of, parts_of};
use record_spans::{Span, are_apart};
use report_lines::push_spans;
use std::alloc::Global;
use std::fmt::Write;
use storm_values::Memory;

/// The one text of a meta, in time linear in its length.
#[tactic(auto, unfolding(crate::specs::Meta::meta_text))]
pub fn meta_text(alloc: Global, meta: &Meta) -> Result<String, Memory>
    ensures { IfOk result (λ text. string_bytes text ≡ meta_text meta.now) }
{
    let (txid, records) = (meta.txid, meta.records);
    let mut text = String::new(alloc);
    write!(text, "meta 1 txid {txid} records {records} spans ")?;
    push_kept_spans(&mut text, meta.spans.as_slice())?;
    text.push_str("\n")?;
    Ok(text)
}

/// Adds spans, joined by commas, or a word where there are none.
fn push_kept_spans(text: &mut String, spans: &[Span]) -> Result<(), Memory>
    ensures { OnOk result (string_bytes text.new ≡ string_bytes text.old ++ kept_spans spans.now) }
{
    if spans.is_empty() {
        return text.push_str("none");
    }
    push_spans(text, spans)
}

/// The meta that a text is, in time linear in its length, and `None` where it is the text of none.
pub fn read_meta(alloc: Global, bytes: &[u8]) -> Result<Option<Meta>, Memory>
    ensures some { IfOk result (λ read. IfSome read (IsTextOf bytes.now)) }
    ensures none { IfOk result (λ read. IfNone read (IsNoText bytes.now)) }
    ensures only { (meta : Meta) → IsTextOf bytes.now meta →
        IfOk result (λ read. read ≡ Some meta) }
{
    let Some(meta) = meta_in(alloc, bytes)? else {
        return Ok(None);
    };
    if !are_separate(meta.spans.as_slice()) {
        return Ok(None);
    }
    let text = meta_text(alloc, &meta)?;
    if text.as_bytes() == bytes {
        Ok(Some(meta))
    } else {
        Ok(None)
    }
}

/// The meta that a text may be. Whether it is that meta's text is not looked at here.
fn meta_in(alloc: Global, bytes: &[u8]) -> Result<Option<Meta>, Memory>
    ensures only { IfOk result (λ read. (meta : Meta) → IsTextOf bytes.now meta →
        read ≡ Some meta) }
    ensures fit { IfOk result (λ read. IfSome read (λ meta. AllByRecursion IsSpan meta.spans)) }
{
    let Some(parts) = parts_of(bytes) else {
        return Ok(None);
    };
    let Some(txid) = number_of(parts.txid) else {
        return Ok(None);
    };
    let Some(records) = number_of(parts.records) else {
        return Ok(None);
    };
    let Some(spans) = kept_spans_of(alloc, parts.spans)? else {
        return Ok(None);
    };
    Ok(Some(Meta {
        txid,
        records,
        spans,
    }))
}

/// Whether each span has its first number at most its last, they rise and none touches another.
fn are_separate(spans: &[Span]) -> bool
    ensures { IsTrue result ↔ AreSeparate spans.now }
{
    match spans.split_first() {
        Some((first, others)) => first.first <= first.last && are_behind(first.last, others),
        None => true,
    }
}

/// Whether spans are apart, and the first of them lies above a number and does not touch it.
fn are_behind(number: u64, spans: &[Span]) -> bool
    ensures { IsTrue result ↔ AreApart (number + 1) spans.now }
{
    match spans.first() {
        Some(next) => next.first.saturating_sub(number) > 1 && are_apart(spans),
        None => true,
    }
}
