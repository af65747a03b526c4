ghost use Rattle.std.specs.Prelude.{◌≡◌, ◌+◌, ◌<◌, ◌≤◌, ◌++◌, ◌↔◌, [], ◌∷◌, IsTrue, OnOk, OnErr, false, length};
ghost use Rattle.record_spans.specs.Spans.{AreApart, end_of, records_of};

use storm_values::{Duplicate, Memory, Seq};

/// The records from one number to another, both included.
#[derive(Clone, Copy, Debug, PartialEq, Eq)]
pub struct Span {
    pub first: u64,
    pub last: u64,
}

/// A list of spans.
pub type Spans = Seq<Span>;

impl Duplicate for Span {
    fn copy(&self) -> Result<Span, Memory> {
        Ok(*self)
    }
}

/// Adds a record above all records of some spans. It makes the last span longer where it follows
/// that one, which takes no memory, and else is a span of its own.
pub fn push_record(spans: &mut Vec<Span>, number: u64) -> Result<(), Memory>
    requires some { 1 ≤ number }
    requires apart { AreApart 0 spans.old.items }
    requires behind { end_of 0 spans.old.items ≤ number }
    ensures apart { OnOk result (AreApart 0 spans.new.items) }
    ensures records { OnOk result
        (records_of spans.new.items ≡ records_of spans.old.items ++ number ∷ []) }
    ensures end { OnOk result (end_of 0 spans.new.items ≡ number + 1) }
    ensures err { OnErr result (spans.new.items ≡ spans.old.items) }
{
    if is_next(spans, number) {
        let end = spans.len() - 1;
        spans[end].last = number;
        return Ok(());
    }
    spans.push(Span {
        first: number,
        last: number,
    })?;
    Ok(())
}

/// Whether a number follows the last of some spans.
fn is_next(spans: &[Span], number: u64) -> bool
    requires some { 1 ≤ number }
    ensures some { IsTrue result → 0 < length spans.now }
    ensures next { IsTrue result → end_of 0 spans.now ≡ number }
    ensures other { result ≡ false → end_of 0 spans.now ≤ number → end_of 0 spans.now < number }
{
    match spans.last() {
        Some(run) => run.last == number - 1,
        None => false,
    }
}

/// Whether each span has a record, the first begins above 0, the spans rise and none touches
/// another.
pub fn are_apart(spans: &[Span]) -> bool
    ensures { IsTrue result ↔ AreApart 0 spans.now }
{
    // 128 bits, since the number after the last of a span may lie past those of 64
    let mut low = 0;
    for span in spans {
        if u128::from(span.first) <= low || span.last < span.first {
            return false;
        }
        low = u128::from(span.last) + 1;
    }
    true
}

/// Whether the last of some spans ends at or below a number, or there is none.
pub fn are_within(spans: &[Span], most: u64) -> bool
    ensures { IsTrue result ↔ (end_of 0 spans.now ≤ most + 1) }
{
    match spans.last() {
        Some(span) => span.last <= most,
        None => true,
    }
}

/// How many records some spans have. The time is in proportion to the spans.
pub fn record_count(spans: &[Span]) -> u64
    requires apart { AreApart 0 spans.now }
    ensures { result ≡ length (records_of spans.now) }
{
    let mut count = 0;
    for span in spans {
        count += span.last - span.first + 1;
    }
    count
}
