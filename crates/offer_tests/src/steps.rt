ghost use Rattle.std.specs.Prelude.{◌+◌, ◌<◌, ◌≤◌, IsTrue, length};
ghost use Rattle.record_spans.specs.Spans.{AreApart, end_of};

use crate::inputs::{Ends, Trouble, have_ends, number_of, numbered_rows, spans_of};
use record_offers::Offers;
use record_spans::{Spans, are_apart, are_within};
use std::alloc::Global;
use storm_values::Memory;

// A call of offers, and what it is to answer.
#[derive(Clone, Copy)]
pub enum Step {
    // The transaction, what is shut, and the spans; no offer where there are none.
    Offer(u64, u16, Ends),
    Take(Ends),
    PutBack(Ends),
    Left(u64),
    Count(u64),
    Start(u64),
    // The number of a record and of its row.
    Row(u64, i64),
}

// Whether some spans may be taken or put back.
pub fn may_take(offers: &Offers, spans: &Spans) -> bool
    ensures apart { IsTrue result → AreApart 0 spans.now }
    ensures within { IsTrue result → end_of 0 spans.now ≤ length offers.now.records + 1 }
{
    are_apart(spans.as_slice()) && are_within(spans.as_slice(), offers.rows().len() as u64)
}

fn is_offer(alloc: Global, found: Option<Spans>, ends: Ends) -> Result<bool, Memory> {
    match found {
        Some(spans) => Ok(!spans.is_empty() && have_ends(alloc, spans.as_slice(), ends)?),
        None => Ok(ends.is_empty()),
    }
}

fn take(alloc: Global, offers: &mut Offers, ends: Ends) -> Result<bool, Memory> {
    let spans = spans_of(alloc, ends)?;
    let may = may_take(offers, &spans);
    if may {
        offers.take(&spans);
    }
    Ok(may)
}

fn put_back(alloc: Global, offers: &mut Offers, ends: Ends) -> Result<bool, Memory> {
    let spans = spans_of(alloc, ends)?;
    let may = may_take(offers, &spans);
    if may {
        offers.put_back(&spans);
    }
    Ok(may)
}

fn has_row(offers: &Offers, record: u64, number: i64) -> bool {
    1 <= record && record <= offers.rows().len() as u64 && number_of(offers.row(record)) == number
}

// Whether the call has its answer.
fn answers(alloc: Global, offers: &mut Offers, step: Step) -> Result<bool, Memory> {
    match step {
        Step::Offer(txid, shut, ends) => is_offer(alloc, offers.offer(txid, shut)?, ends),
        Step::Take(ends) => take(alloc, offers, ends),
        Step::PutBack(ends) => put_back(alloc, offers, ends),
        Step::Left(left) => Ok(offers.left() == left),
        Step::Count(count) => Ok(offers.count() == count),
        Step::Start(start) => Ok(offers.start() == start),
        Step::Row(record, number) => Ok(has_row(offers, record, number)),
    }
}

fn all_answer(alloc: Global, offers: &mut Offers, steps: &[Step]) -> Result<(), Trouble> {
    for (line, step) in steps.iter().enumerate() {
        if !answers(alloc, offers, *step)? {
            return Err(Trouble::Line(line));
        }
    }
    Ok(())
}

// So many records in offers of a size, of a spout with so many partitions or none.
pub fn check(
    alloc: Global,
    records: i64,
    size: u32,
    partitions: u32,
    steps: &[Step],
) -> Result<(), Trouble>
    requires some { 0 < size }
    requires few { partitions ≤ 16 }
{
    let mut offers = Offers::new(numbered_rows(alloc, records)?, size, partitions)?;
    all_answer(alloc, &mut offers, steps)
}

// The same after a start, where the spans are such as may be gone.
pub fn check_after(
    alloc: Global,
    records: i64,
    size: u32,
    partitions: u32,
    start: (u64, Ends),
    steps: &[Step],
) -> Result<(), Trouble>
    requires some { 0 < size }
    requires few { partitions ≤ 16 }
{
    let rows = numbered_rows(alloc, records)?;
    let gone = spans_of(alloc, start.1)?;
    if !are_apart(gone.as_slice()) || !are_within(gone.as_slice(), rows.len() as u64) {
        return Err(Trouble::Line(0));
    }
    let mut offers = Offers::after(rows, size, partitions, start.0, &gone)?;
    all_answer(alloc, &mut offers, steps)
}
