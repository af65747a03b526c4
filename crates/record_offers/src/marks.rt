ghost use Rattle.std.specs.Prelude.{◌≡◌, ◌≤◌, ◌<◌, ◌+◌, ◌-◌, ◌%◌, ℕ, length, true, false, IfOk, slice_index, slice_index_or};
ghost use Rattle.std.specs.List.{count_by};
ghost use Rattle.record_spans.specs.Spans.{AreApart, AreRunsOf, end_of, is_within, stands_in};
ghost use Rattle.record_offers.specs.Marks.{AreBounds, is_mark};
ghost use Rattle.record_offers.specs.Offers.{AreMarked, gone_records, is_gone, left_in};

use record_spans::{Span, push_record};
use std::alloc::Global;
use storm_values::Memory;

/// Makes the records of some spans gone, and says how many were not. The bounds rise past the
/// records that are gone, so that an offer does not come to them again.
pub fn take(gone: &mut [bool], low: &mut [usize], spans: &[Span]) -> u64
    requires apart { AreApart 0 spans.now }
    requires within { end_of 0 spans.now ≤ length gone.old + 1 }
    requires few { length low.old ≤ 16 }
    requires bounds { AreBounds low.old gone.old }
    ensures marks { AreMarked (stands_in spans.now) true gone.old gone.new }
    ensures left { left_in gone.new + result ≡ left_in gone.old }
    ensures partitions { length low.new ≡ length low.old }
    ensures bounds { AreBounds low.new gone.new }
{
    let taken = mark(gone, spans, true);
    raise(gone, low);
    taken
}

/// Takes the records of some spans back, and says how many were gone.
pub fn put_back(gone: &mut [bool], low: &mut [usize], spans: &[Span]) -> u64
    requires apart { AreApart 0 spans.now }
    requires within { end_of 0 spans.now ≤ length gone.old + 1 }
    requires few { length low.old ≤ 16 }
    requires bounds { AreBounds low.old gone.old }
    ensures marks { AreMarked (stands_in spans.now) false gone.old gone.new }
    ensures left { left_in gone.new ≡ left_in gone.old + result }
    ensures partitions { length low.new ≡ length low.old }
    ensures bounds { AreBounds low.new gone.new }
{
    let back = mark(gone, spans, false);
    for span in spans {
        lower(low, span);
    }
    back
}

/// Sets the marks of the records of some spans, and says how many were not so before.
fn mark(gone: &mut [bool], spans: &[Span], to: bool) -> u64
    requires apart { AreApart 0 spans.now }
    requires within { end_of 0 spans.now ≤ length gone.old + 1 }
    ensures marks { AreMarked (stands_in spans.now) to gone.old gone.new }
    ensures more { count_by (is_mark to) gone.new ≡ count_by (is_mark to) gone.old + result }
{
    let mut changed = 0;
    for span in spans {
        changed += mark_span(gone, span, to);
    }
    changed
}

fn mark_span(gone: &mut [bool], span: &Span, to: bool) -> u64
    requires some { 0 < span.now.first }
    requires some_records { span.now.first ≤ span.now.last }
    requires within { span.now.last ≤ length gone.old }
    ensures marks { AreMarked (is_within span.now) to gone.old gone.new }
    ensures more { count_by (is_mark to) gone.new ≡ count_by (is_mark to) gone.old + result }
{
    let mut changed = 0;
    let first = span.first as usize - 1;
    for at in first..span.last as usize {
        changed += u64::from(gone[at] != to);
        gone[at] = to;
    }
    changed
}

/// Raises each bound up to the first record of its partition that is not gone.
fn raise(gone: &[bool], low: &mut [usize])
    requires bounds { AreBounds low.old gone.now }
    requires few { length low.old ≤ 16 }
    ensures partitions { length low.new ≡ length low.old }
    ensures bounds { AreBounds low.new gone.now }
{
    let partitions = low.len();
    for partition in 0..partitions {
        low[partition] = first_left(gone, low[partition], partitions);
    }
}

/// The first place from this one on, in steps of so many, whose record is not gone.
fn first_left(gone: &[bool], from: usize, step: usize) -> usize
    requires some { 0 < step }
    requires few { step ≤ 16 }
    ensures own { result % step ≡ from % step }
    ensures gone { (i : ℕ) → i < length gone.now → from ≤ i → i < result → i % step ≡ from % step
        → slice_index_or gone.now i true ≡ true }
{
    let mut at = from;
    while at < gone.len() && gone[at] {
        at += step;
    }
    at
}

/// Lowers the bounds to the first records of a span.
fn lower(low: &mut [usize], span: &Span)
    requires some { 0 < span.now.first }
    requires some_records { span.now.first ≤ span.now.last }
    ensures len { length low.new ≡ length low.old }
    ensures no_higher { (q : ℕ) → slice_index low.new q ≤ slice_index low.old q }
    ensures reached { (i : ℕ) → span.now.first ≤ i + 1 → i + 1 ≤ span.now.last
        → slice_index low.new (i % length low.old) ≤ i }
    ensures own { ((q : ℕ) → q < length low.old → slice_index low.old q % length low.old ≡ q)
        → (q : ℕ) → q < length low.old → slice_index low.new q % length low.old ≡ q }
{
    let partitions = low.len();
    if partitions == 0 {
        return;
    }
    let first = span.first as usize - 1;
    for at in first..span.last as usize {
        let partition = at % partitions;
        if at < low[partition] {
            low[partition] = at;
        }
    }
}

/// The records that are gone, as maximal runs.
pub fn gone_runs(alloc: Global, gone: &[bool]) -> Result<Vec<Span>, Memory>
    ensures runs { IfOk result (λ spans. AreRunsOf (gone_records gone.now) spans.items) }
    ensures within { IfOk result (λ spans. end_of 0 spans.items ≤ length gone.now + 1) }
{
    let mut spans = Vec::new(alloc);
    for at in 0..gone.len() {
        if is_gone(gone, at) {
            push_record(&mut spans, at as u64 + 1)?;
        }
    }
    Ok(spans)
}

/// Whether the record at a place is gone.
fn is_gone(gone: &[bool], at: usize) -> bool
    requires { at < length gone.now }
    ensures { result ≡ is_gone gone.now (at + 1) }
{
    gone[at]
}
