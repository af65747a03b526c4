ghost use Rattle.std.specs.Prelude.{◌≡◌, ◌≤◌, ◌<◌, ◌+◌, ℕ, length, false, IfOk, slice_index};
ghost use Rattle.record_spans.specs.Spans.{AreRunsOf, end_of};
ghost use Rattle.record_offers.specs.Marks.{AreLow};
ghost use Rattle.record_offers.specs.Offers.{first_free, is_free, is_shut};

use record_spans::{Span, push_record};
use std::alloc::Global;
use storm_values::Memory;

/// The first records that are not gone and whose partition is not shut, as many as the size, as
/// maximal runs. It starts at the least bound of an open partition.
pub fn first_records(
    alloc: Global,
    gone: &[bool],
    low: &[usize],
    size: u32,
    shut: u16,
) -> Result<Vec<Span>, Memory>
    requires some { 0 < length low.now }
    requires few { length low.now ≤ 16 }
    requires low { AreLow (length low.now) low.now gone.now }
    ensures runs { IfOk result (λ spans.
        AreRunsOf (first_free size (length low.now) shut gone.now) spans.items) }
    ensures within { IfOk result (λ spans. end_of 0 spans.items ≤ length gone.now + 1) }
{
    let mut spans = Vec::new(alloc);
    let mut count = 0;
    let mut at = least_open(low, gone.len(), shut);
    while at < gone.len() && count < size {
        if may_offer(gone, low.len(), shut, at) {
            push_record(&mut spans, at as u64 + 1)?;
            count += 1;
        }
        at += 1;
    }
    Ok(spans)
}

/// Whether the record at a place may be offered.
fn may_offer(gone: &[bool], partitions: usize, shut: u16, at: usize) -> bool
    requires within { at < length gone.now }
    requires some { 0 < partitions }
    requires few { partitions ≤ 16 }
    ensures { result ≡ is_free partitions shut gone.now (at + 1) }
{
    !gone[at] && !is_shut(shut, at % partitions)
}

fn is_shut(shut: u16, partition: usize) -> bool
    requires { partition < 16 }
    ensures { result ≡ is_shut shut partition }
{
    (shut >> partition) & 1 == 1
}

/// The least bound of an open partition, or the number of records.
fn least_open(low: &[usize], records: usize, shut: u16) -> usize
    requires few { length low.now ≤ 16 }
    ensures within { result ≤ records }
    ensures least { (q : ℕ) → q < length low.now → is_shut shut q ≡ false
        → result ≤ slice_index low.now q }
{
    let mut least = records;
    for partition in 0..low.len() {
        if !is_shut(shut, partition) {
            least = least.min(low[partition]);
        }
    }
    least
}
