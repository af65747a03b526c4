ghost use Rattle.std.specs.Prelude.{◌<◌};

use crate::inputs::{Trouble, numbered_rows};
use crate::steps::Step::{Count, Left, Offer, PutBack, Row, Start, Take};
use crate::steps::{Step, check, check_after};
use record_offers::Offers;
use record_spans::record_count;
use storm_values::Memory;

const TWO_PARTITIONS: [Step; 13] = [
    Start(0),
    Left(4),
    Offer(1, 0, &[(1, 2)]),
    Offer(1, 2, &[(1, 1), (3, 3)]),
    Offer(1, 3, &[]),
    Take(&[(1, 1), (3, 3)]),
    Offer(2, 0, &[(2, 2), (4, 4)]),
    Left(2),
    Offer(2, 2, &[]),
    PutBack(&[(1, 1)]),
    Offer(1, 0, &[(1, 2)]),
    Left(3),
    Row(3, 3),
];

// Neither what is gone nor what is shut counts.
const NO_PARTITIONS: [Step; 12] = [
    Count(3),
    Offer(0, 0, &[]),
    Offer(1, 0, &[(1, 2)]),
    Offer(2, u16::MAX, &[(3, 4)]),
    Offer(3, 1, &[(5, 5)]),
    Offer(4, 0, &[]),
    Offer(u64::MAX, 0, &[]),
    Take(&[(1, 5)]),
    Left(0),
    Offer(1, 1, &[(1, 2)]),
    PutBack(&[(2, 4)]),
    Left(3),
];

const EVEN_BATCHES: [Step; 4] = [
    Count(2),
    Offer(1, 0, &[(1, 2)]),
    Offer(2, 0, &[(3, 4)]),
    Offer(3, 0, &[]),
];

const BATCHES_OF_ONE: [Step; 4] = [
    Count(4),
    Offer(1, 0, &[(1, 1)]),
    Offer(4, 0, &[(4, 4)]),
    Offer(5, 0, &[]),
];

const ONE_BATCH: [Step; 3] = [Count(1), Offer(1, 0, &[(1, 4)]), Offer(2, 0, &[])];

// Partition 1 has the records 2, 5 and 8.
const RECORDS_COME_BACK: [Step; 12] = [
    Offer(1, 0, &[(1, 3)]),
    Take(&[(1, 3)]),
    Offer(2, 2, &[(4, 4), (6, 7)]),
    Take(&[(4, 4), (6, 7)]),
    Offer(3, 0, &[(5, 5), (8, 9)]),
    PutBack(&[(1, 3)]),
    Left(6),
    Offer(1, 0, &[(1, 3)]),
    Offer(1, 1, &[(2, 3), (5, 5)]),
    PutBack(&[(4, 4), (6, 7)]),
    Offer(1, 5, &[(2, 2), (5, 5), (8, 8)]),
    Left(9),
];

const NO_RECORD: [Step; 3] = [Left(0), Count(0), Offer(1, 0, &[])];

const ONE_RECORD: [Step; 6] = [
    Offer(1, 1, &[]),
    Offer(1, 2, &[(1, 1)]),
    Row(1, 1),
    Take(&[(1, 1)]),
    Offer(1, 0, &[]),
    Left(0),
];

const SIXTEEN_PARTITIONS: [Step; 4] = [
    Offer(1, 0, &[(1, 20)]),
    Offer(1, 1, &[(2, 16), (18, 20)]),
    Offer(1, 0x7fff, &[(16, 16)]),
    Offer(1, u16::MAX, &[]),
];

const AFTER_A_START: [Step; 4] = [
    Start(1),
    Left(2),
    Offer(2, 0, &[(2, 2), (4, 4)]),
    Offer(2, 2, &[]),
];

#[test]
fn two_partitions_of_four_records(rt: HostRuntime) -> Result<(), Trouble> {
    check(rt.alloc(), 4, 2, 2, &TWO_PARTITIONS)
}

#[test]
fn batches_without_partitions(rt: HostRuntime) -> Result<(), Trouble> {
    check(rt.alloc(), 5, 2, 0, &NO_PARTITIONS)
}

#[test]
fn batches_that_come_out_even(rt: HostRuntime) -> Result<(), Trouble> {
    check(rt.alloc(), 4, 2, 0, &EVEN_BATCHES)
}

#[test]
fn batches_of_one_record(rt: HostRuntime) -> Result<(), Trouble> {
    check(rt.alloc(), 4, 1, 0, &BATCHES_OF_ONE)
}

#[test]
fn one_batch_of_all_records(rt: HostRuntime) -> Result<(), Trouble> {
    check(rt.alloc(), 4, u32::MAX, 0, &ONE_BATCH)
}

#[test]
fn records_come_back(rt: HostRuntime) -> Result<(), Trouble> {
    check(rt.alloc(), 9, 3, 3, &RECORDS_COME_BACK)
}

#[test]
fn no_record(rt: HostRuntime) -> Result<(), Trouble> {
    check(rt.alloc(), 0, 1, 1, &NO_RECORD)
}

#[test]
fn no_record_without_partitions(rt: HostRuntime) -> Result<(), Trouble> {
    check(rt.alloc(), 0, u32::MAX, 0, &NO_RECORD)
}

#[test]
fn one_record(rt: HostRuntime) -> Result<(), Trouble> {
    check(rt.alloc(), 1, 1, 1, &ONE_RECORD)
}

#[test]
fn a_size_above_the_records(rt: HostRuntime) -> Result<(), Trouble> {
    check(rt.alloc(), 20, u32::MAX, 16, &SIXTEEN_PARTITIONS)
}

#[test]
fn offers_after_a_start(rt: HostRuntime) -> Result<(), Trouble> {
    check_after(rt.alloc(), 4, 2, 2, (1, &[(1, 1), (3, 3)]), &AFTER_A_START)
}

// Takes the next offer, and puts it back at one turn in ten. The answer is how many records it
// keeps. Partition 0 is shut half of the time.
fn turned(offers: &mut Offers, turn: u64) -> Result<u64, Memory>
    requires { turn < 2000 }
{
    let shut = if turn % 100 < 50 { 1 } else { 0 };
    match offers.offer(turn + 1, shut)? {
        Some(spans) => {
            offers.take(&spans);
            if turn % 10 == 9 {
                offers.put_back(&spans);
                return Ok(0);
            }
            Ok(record_count(spans.as_slice()))
        }
        None => Ok(0),
    }
}

#[test]
fn each_of_many_records_once(rt: HostRuntime) -> Result<(), Trouble> {
    let mut offers = Offers::new(numbered_rows(rt.alloc(), 100_000)?, 100, 16)?;
    let mut kept: u64 = 0;
    for turn in 0..2_000 {
        kept = kept.saturating_add(turned(&mut offers, turn)?);
    }
    if kept == 100_000 && offers.left() == 0 {
        return Ok(());
    }
    Err(Trouble::Records(kept))
}
