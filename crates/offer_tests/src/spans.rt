use crate::inputs::{Ends, Trouble, have_ends, spans_of};
use record_spans::{Span, Spans, are_apart, are_fronts, are_within, push_record, record_count};
use std::alloc::Global;
use storm_values::{Duplicate, Memory};

const LAST: u64 = u64::MAX;

// Spans, and how many records they have where they are apart.
const COUNTS: [(Ends, Option<u64>); 11] = [
    (&[], Some(0)),
    (&[(1, LAST)], Some(LAST)),
    (&[(2, 4), (9, 9)], Some(4)),
    (&[(1, 1), (3, 4), (6, 9)], Some(7)),
    (&[(LAST, LAST)], Some(1)),
    (&[(0, 1)], None),
    (&[(2, 1)], None),
    (&[(1, 2), (3, 4)], None),
    (&[(1, 2), (2, 4)], None),
    (&[(3, 4), (1, 1)], None),
    (&[(1, LAST), (LAST, LAST)], None),
];

// Partitions, spans, and whether these are a front of each partition.
const FRONTS: [(usize, Ends, bool); 11] = [
    (2, &[], true),
    (2, &[(1, 1), (3, 3)], true),
    (2, &[(1, 3), (5, 5)], true),
    (2, &[(2, 2), (4, 4)], true),
    (2, &[(3, 3)], false),
    (2, &[(1, 1), (5, 5)], false),
    (1, &[(1, 7)], true),
    (1, &[(1, 2), (4, 4)], false),
    (16, &[(1, 1), (3, 17), (19, 19)], true),
    (16, &[(1, 1), (3, 16), (18, 18)], false),
    (16, &[(LAST, LAST)], false),
];

// Spans, a number, and whether they end at or below it.
const ENDS: [(Ends, u64, bool); 3] = [(&[], 0, true), (&[(1, 4)], 4, true), (&[(1, 4)], 3, false)];

fn is_count(alloc: Global, line: (Ends, Option<u64>)) -> Result<bool, Memory> {
    let spans = spans_of(alloc, line.0)?;
    if !are_apart(spans.as_slice()) {
        return Ok(line.1.is_none());
    }
    Ok(line.1 == Some(record_count(spans.as_slice())))
}

fn is_front(alloc: Global, line: (usize, Ends, bool)) -> Result<bool, Memory> {
    let spans = spans_of(alloc, line.1)?;
    let partitions = line.0.clamp(1, 16);
    Ok(are_apart(spans.as_slice()) && are_fronts(partitions, spans.as_slice()) == line.2)
}

fn is_end(alloc: Global, line: (Ends, u64, bool)) -> Result<bool, Memory> {
    let spans = spans_of(alloc, line.0)?;
    Ok(are_within(spans.as_slice(), line.1) == line.2)
}

#[test]
fn counts_of_spans(rt: HostRuntime) -> Result<(), Trouble> {
    for (at, line) in COUNTS.iter().enumerate() {
        if !is_count(rt.alloc(), *line)? {
            return Err(Trouble::Line(at));
        }
    }
    Ok(())
}

#[test]
fn fronts_of_partitions(rt: HostRuntime) -> Result<(), Trouble> {
    for (at, line) in FRONTS.iter().enumerate() {
        if !is_front(rt.alloc(), *line)? {
            return Err(Trouble::Line(at));
        }
    }
    Ok(())
}

#[test]
fn ends_of_spans(rt: HostRuntime) -> Result<(), Trouble> {
    for (at, line) in ENDS.iter().enumerate() {
        if !is_end(rt.alloc(), *line)? {
            return Err(Trouble::Line(at));
        }
    }
    Ok(())
}

// The runs of some numbers. One that does not rise is left out.
fn runs_of(alloc: Global, numbers: &[u64]) -> Result<Spans, Memory> {
    let mut spans = Vec::new(alloc);
    for number in numbers {
        push_rising(&mut spans, *number)?;
    }
    Ok(Spans::from_vec(spans))
}

fn push_rising(spans: &mut Vec<Span>, number: u64) -> Result<(), Memory> {
    if 1 <= number && are_apart(spans) && are_within(spans, number - 1) {
        push_record(spans, number)?;
    }
    Ok(())
}

// Whether the runs of some numbers, and a copy of them, have these ends.
fn are_runs(alloc: Global, numbers: &[u64], ends: Ends) -> Result<bool, Memory> {
    let runs = runs_of(alloc, numbers)?;
    let copy = runs.copy()?;
    Ok(have_ends(alloc, runs.as_slice(), ends)? && have_ends(alloc, copy.as_slice(), ends)?)
}

#[test]
fn records_become_runs(rt: HostRuntime) -> Result<(), Trouble> {
    let numbers = [1, 2, 3, 5, 7, 8, LAST];
    if !are_runs(
        rt.alloc(),
        &numbers,
        &[(1, 3), (5, 5), (7, 8), (LAST, LAST)],
    )? {
        return Err(Trouble::Line(0));
    }
    Ok(())
}
