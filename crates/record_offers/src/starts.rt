ghost use Rattle.std.specs.Prelude.{◌≡◌, ◌<◌, ◌≤◌, ◌+◌, ◌*◌, ◌↔◌, IsTrue, min};
ghost use Rattle.std.specs.List.{range_with_len};
ghost use Rattle.record_spans.specs.Spans.{AreApart, records_of};
ghost use Rattle.record_offers.specs.Offers.{batch_count};
ghost use Rattle.record_offers.specs.Starts.{IsPossible};

use record_spans::{Span, are_apart, are_fronts, are_within, record_count};

/// Whether the transactions 1 to `txid` may have taken just the records of some spans, of so many
/// records: where there are no partitions, the batches 1 to `txid`; else 1 to `size` records each,
/// which are a front of each partition. The time is in proportion to the records of the spans, and
/// it takes no memory.
pub fn possible(size: u32, partitions: u32, records: u64, txid: u64, gone: &[Span]) -> bool
    requires some { 0 < size }
    requires few { partitions ≤ 16 }
    ensures { IsTrue result ↔ IsPossible records size partitions txid gone.now }
{
    if !are_apart(gone) || !are_within(gone, records) {
        return false;
    }
    if partitions == 0 {
        return are_batches(size, records, txid, gone);
    }
    let count = record_count(gone);
    txid <= count
        && u128::from(count) <= u128::from(txid) * u128::from(size)
        && are_fronts(partitions as usize, gone)
}

/// Whether the records of some spans are the batches 1 to `txid`.
fn are_batches(size: u32, records: u64, txid: u64, gone: &[Span]) -> bool
    requires some { 0 < size }
    requires apart { AreApart 0 gone.now }
    ensures { IsTrue result ↔ ((txid ≤ batch_count records size)
        × (records_of gone.now ≡ range_with_len 1 (min (txid * size) records))) }
{
    if txid > records.div_ceil(u64::from(size)) {
        return false;
    }
    let last = (u128::from(txid) * u128::from(size)).min(u128::from(records));
    match gone {
        [] => last == 0,
        [span] => span.first == 1 && u128::from(span.last) == last,
        _ => false,
    }
}
