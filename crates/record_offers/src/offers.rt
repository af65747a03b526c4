ghost use Rattle.std.specs.Prelude.{◌≡◌, ◌<◌, ◌≤◌, ◌+◌, ◌-◌, ◌↔◌, [], true, false, length, slice_get, Some, IsNone, IfSome, IfOk};
ghost use Rattle.record_spans.specs.Spans.{AreApart, AreRunsOf, end_of, stands_in};
ghost use Rattle.std.specs.List.{range_with_len};
ghost use Rattle.record_offers.specs.Offers.{AreMarked, batch_count, batch_numbers, fresh, gone_records, left_in, offered, with_gone};

use crate::choice::first_records;
use crate::marks;
use record_spans::{Span, Spans};
use std::alloc::Global;
use std::marker::Model;
use storm_values::{Memory, Row, Rows};

/// The records of an input, which of them are gone, and the offers of the others. Records and
/// transactions are numbered from 1.
#[derive(Drop)]
pub struct Offers {
    rows: Rows,
    size: u32,
    // a mark for each record, in the order of the input
    gone: Vec<bool>,
    // for each partition a place, counted from 0, below which all its records are gone
    low: Vec<usize>,
    count: u64,
    left: u64,
    start: u64,
}

impl Model for Offers {
    ghost use Rattle.std.specs.Prelude.{length};
    ghost use Rattle.record_offers.specs.Offers.{OfferState};
    ghost use Rattle.record_offers.specs.Marks.{AreKept};

    ghost Value = { OfferState };

    ghost view = { λ o. record {
      records = o.rows;
      size = o.size;
      partitions = length o.low.items;
      gone = o.gone.items;
      start = o.start;
    } };

    ghost invariant = { λ o. AreKept o.rows o.size o.gone.items o.low.items o.count o.left };
}

impl Offers {
    /// Offers of so many records each, where no record is gone. The spout has so many partitions,
    /// or none where this is 0. It takes memory for a mark per record.
    pub fn new(rows: Rows, size: u32, partitions: u32) -> Result<Self, Memory>
        requires some { 0 < size }
        requires few { partitions ≤ 16 }
        ensures { IfOk result (λ offers. offers ≡ fresh rows size partitions) }
    {
        let records = rows.len();
        let rows = rows.into_vec();
        let alloc = *rows.allocator();
        let gone = vec![in alloc; false; records]?;
        let low = first_places(alloc, partitions as usize)?;
        Ok(Offers {
            rows: Rows::from_vec(rows),
            size,
            gone,
            low,
            count: (records as u64).div_ceil(u64::from(size)),
            left: records as u64,
            start: 0,
        })
    }

    /// Offers that start after a transaction, with the records of some spans gone. `possible` says
    /// which starts an earlier run may have left.
    pub fn after(
        rows: Rows,
        size: u32,
        partitions: u32,
        txid: u64,
        gone: &Spans,
    ) -> Result<Self, Memory>
        requires some { 0 < size }
        requires few { partitions ≤ 16 }
        requires apart { AreApart 0 gone.now }
        requires within { end_of 0 gone.now ≤ length rows + 1 }
        ensures start { IfOk result (λ offers. offers.start ≡ txid) }
        ensures same { IfOk result (λ offers.
            offers ≡ record (fresh rows size partitions) { gone = offers.gone; start = txid }) }
        ensures gone { IfOk result (λ offers.
            AreMarked (stands_in gone.now) true (fresh rows size partitions).gone offers.gone) }
    {
        let mut offers = Offers::new(rows, size, partitions)?;
        offers.take(gone);
        offers.start = txid;
        Ok(offers)
    }

    /// The records to give out next: of a spout without partitions the batch of the transaction,
    /// whatever is gone or shut; else the first records that are not gone and whose partition is
    /// not shut, up to the size. Bit q of `shut` says that partition q is shut. `None` where there
    /// is no such record.
    ///
    /// Where the gone records of each partition are its first ones, the time is in proportion to
    /// the size times the partitions.
    pub fn offer(&self, txid: u64, shut: u16) -> Result<Option<Spans>, Memory>
        ensures none { IfOk result (λ found. IsNone found ↔ (offered self.now txid shut ≡ [])) }
        ensures spans { IfOk result (λ found. IfSome found (λ spans.
            AreRunsOf (offered self.now txid shut) spans)) }
        ensures within { IfOk result (λ found. IfSome found (λ spans.
            end_of 0 spans ≤ length self.now.records + 1)) }
    {
        let alloc = *self.gone.allocator();
        if self.low.is_empty() {
            return batch(alloc, self.rows.len() as u64, self.size, self.count, txid);
        }
        let spans = first_records(alloc, &self.gone, &self.low, self.size, shut)?;
        if spans.is_empty() {
            return Ok(None);
        }
        Ok(Some(Spans::from_vec(spans)))
    }

    /// Makes the records of some spans gone. The time is in proportion to them, and it takes no
    /// memory.
    pub fn take(&mut self, spans: &Spans)
        requires apart { AreApart 0 spans.now }
        requires within { end_of 0 spans.now ≤ length self.old.records + 1 }
        ensures gone { AreMarked (stands_in spans.now) true self.old.gone self.new.gone }
        ensures same { self.new ≡ with_gone self.old self.new.gone }
    {
        self.left -= marks::take(&mut self.gone, &mut self.low, spans.as_slice());
    }

    /// Takes the records of some spans back, so that they may be offered again. The time is in
    /// proportion to them, and it takes no memory.
    pub fn put_back(&mut self, spans: &Spans)
        requires apart { AreApart 0 spans.now }
        requires within { end_of 0 spans.now ≤ length self.old.records + 1 }
        ensures gone { AreMarked (stands_in spans.now) false self.old.gone self.new.gone }
        ensures same { self.new ≡ with_gone self.old self.new.gone }
    {
        self.left += marks::put_back(&mut self.gone, &mut self.low, spans.as_slice());
    }

    /// The record of a number. It takes no memory.
    pub fn row(&self, number: u64) -> &Row
        requires some { 1 ≤ number }
        requires within { number ≤ length self.now.records }
        ensures { slice_get self.now.records (number - 1) ≡ Some result.now }
    {
        self.rows.at(number as usize - 1)
    }

    /// All records.
    pub fn rows(&self) -> &Rows
        ensures { result.now ≡ self.now.records }
    {
        &self.rows
    }

    /// The most records of an offer.
    pub fn size(&self) -> u64
        ensures value { result ≡ self.now.size }
        ensures some { 0 < result }
    {
        u64::from(self.size)
    }

    /// The number of partitions, or 0 where the spout has none.
    pub fn partitions(&self) -> u32
        ensures { result ≡ self.now.partitions }
    {
        self.low.len() as u32
    }

    /// The least number of batches that holds all records.
    pub fn count(&self) -> u64
        ensures { result ≡ batch_count (length self.now.records) self.now.size }
    {
        self.count
    }

    /// The number of records that are not gone. It takes no time.
    pub fn left(&self) -> u64
        ensures value { result ≡ left_in self.now.gone }
        ensures marks { length self.now.gone ≡ length self.now.records }
    {
        self.left
    }

    /// The records that are gone, as maximal runs. The time is in proportion to all records.
    pub fn gone_spans(&self) -> Result<Spans, Memory>
        ensures runs { IfOk result (AreRunsOf (gone_records self.now.gone)) }
        ensures within { IfOk result (λ spans. end_of 0 spans ≤ length self.now.gone + 1) }
    {
        let spans = marks::gone_runs(*self.gone.allocator(), &self.gone)?;
        Ok(Spans::from_vec(spans))
    }

    /// The transaction after which the offers started.
    pub fn start(&self) -> u64
        ensures { result ≡ self.now.start }
    {
        self.start
    }
}

/// The first place of each partition.
fn first_places(alloc: Global, partitions: usize) -> Result<Vec<usize>, Memory>
    ensures { IfOk result (λ low. low.items ≡ range_with_len 0 partitions) }
{
    let mut low = Vec::with_capacity(alloc, partitions)?;
    for partition in 0..partitions {
        low.push(partition)?;
    }
    Ok(low)
}

/// The batch of a transaction as a span, where there is one.
fn batch(
    alloc: Global,
    records: u64,
    size: u32,
    count: u64,
    txid: u64,
) -> Result<Option<Spans>, Memory>
    requires some { 0 < size }
    requires batches { count ≡ batch_count records size }
    ensures none { IfOk result (λ found. IsNone found ↔ (batch_numbers records size txid ≡ [])) }
    ensures spans { IfOk result (λ found. IfSome found (λ spans.
        AreRunsOf (batch_numbers records size txid) spans)) }
    ensures within { IfOk result (λ found. IfSome found (λ spans.
        end_of 0 spans ≤ records + 1)) }
{
    if txid == 0 || txid > count {
        return Ok(None);
    }
    let before = (txid - 1) * u64::from(size);
    let mut spans = Spans::new(alloc);
    spans.push(Span {
        first: before + 1,
        last: before + u64::from(size).min(records - before),
    })?;
    Ok(Some(spans))
}
