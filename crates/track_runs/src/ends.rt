ghost use Rattle.std.specs.Prelude.{◌≡◌, ◌≤◌, ◌<◌, ◌+◌, ◌-◌, ◌^◌, Bool, List, ◌∷◌, ◌++◌, drop, length, replicate, IfOk, OnOk};
ghost use Rattle.track_runs.specs.Steps.{acked_at, gave_up, merged, next_end, open_rows};

use std::alloc::Global;
use track_report::RecordEnd;
use tree_model::storm_values::{Memory, Row};

/// The ends of so many records that have no attempt left after these.
pub(crate) fn none_left(
    alloc: Global,
    records: usize,
    attempts: u32,
) -> Result<Vec<RecordEnd>, Memory>
    ensures { IfOk result (λ ends. ends.items ≡ replicate records (gave_up attempts)) }
{
    let mut ends = Vec::with_capacity(alloc, records)?;
    for _ in 0..records {
        ends.push(gave_up(attempts))?;
    }
    Ok(ends)
}

/// The records that were not acked, in their order.
pub(crate) fn open_rows(alloc: Global, rows: Vec<Row>, acked: &[bool]) -> Result<Vec<Row>, Memory>
    requires { length acked.now ≡ length rows.items }
    ensures { IfOk result (λ left. left.items ≡ open_rows rows.items acked.now) }
{
    let mut left = Vec::new(alloc);
    let mut place = 0;
    for row in rows {
        if !acked[place] {
            left.push(row)?;
        }
        place += 1;
    }
    Ok(left)
}

/// The ends of records, of which some were acked at this attempt and the others ended later.
pub(crate) fn merged(
    alloc: Global,
    acked: &[bool],
    attempt: u32,
    later: &[RecordEnd],
) -> Result<Vec<RecordEnd>, Memory>
    ensures { IfOk result (λ ends. ends.items ≡ merged attempt acked.now later.now) }
{
    let mut ends = Vec::with_capacity(alloc, acked.len())?;
    let mut place = 0;
    for is_acked in acked {
        place = push_end(&mut ends, *is_acked, attempt, later, place)?;
    }
    Ok(ends)
}

/// Adds the end of a record, and tells the place of the later end that is next.
fn push_end(
    ends: &mut Vec<RecordEnd>,
    is_acked: bool,
    attempt: u32,
    later: &[RecordEnd],
    place: usize,
) -> Result<usize, Memory>
    requires { place < 2 ^ 64 - 1 }
    ensures place { IfOk result (λ next. next ≤ place + 1) }
    ensures ends { IfOk result (λ next. (acked : List Bool) →
        ends.new.items ++ merged attempt acked (drop next later.now)
        ≡ ends.old.items ++ merged attempt (is_acked ∷ acked) (drop place later.now)) }
{
    if is_acked {
        ends.push(acked_at(attempt))?;
        return Ok(place);
    }
    ends.push(next_end(attempt, later, place))?;
    Ok(place + 1)
}

fn acked_at(attempts: u32) -> RecordEnd
    ensures { result ≡ acked_at attempts }
{
    RecordEnd {
        attempts,
        acked: true,
    }
}

fn gave_up(attempts: u32) -> RecordEnd
    ensures { result ≡ gave_up attempts }
{
    RecordEnd {
        attempts,
        acked: false,
    }
}

fn next_end(attempt: u32, later: &[RecordEnd], place: usize) -> RecordEnd
    ensures { result ≡ next_end attempt (drop place later.now) }
{
    match later.get(place) {
        Some(end) => *end,
        None => gave_up(attempt),
    }
}

/// Appends the ends of more records.
pub(crate) fn add_ends(ends: &mut Vec<RecordEnd>, more: &[RecordEnd]) -> Result<(), Memory>
    ensures { OnOk result (ends.new.items ≡ ends.old.items ++ more.now) }
{
    for end in more {
        ends.push(*end)?;
    }
    Ok(())
}
