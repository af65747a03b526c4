//! The table of an opaque part over a store with given cells.
use crate::scenes::{Line, Trouble, commit, store_of, writes_of};
use state_cells::{Part, PartFault};
use std::alloc::Global;
use storm_stores::{FailAt, MemStore};
use tree_model::Pairs;
use tree_model::storm_values::Memory;
use tree_model::topology_plan::{Fold, Kind};

fn part_of(alloc: Global, lines: &[Line]) -> Result<Part<MemStore>, Memory> {
    let store = store_of(alloc, Kind::Opaque, lines)?;
    Ok(Part::new(alloc, store, Kind::Opaque, Fold::Count))
}

fn failing_part_of(alloc: Global, lines: &[Line], at: FailAt) -> Result<Part<MemStore>, Memory> {
    let mut store = store_of(alloc, Kind::Opaque, lines)?;
    store.fail(at)?;
    Ok(Part::new(alloc, store, Kind::Opaque, Fold::Count))
}

fn has_row(pairs: &Pairs, i: usize, row: &(&str, i128)) -> bool {
    match pairs.as_slice().get(i) {
        Some(pair) => pair.key.as_str() == row.0 && pair.value == row.1,
        None => false,
    }
}

fn has_rows(pairs: &Pairs, rows: &[(&str, i128)]) -> bool {
    for i in 0..rows.len() {
        if !has_row(pairs, i, &rows[i]) {
            return false;
        }
    }
    pairs.len() == rows.len()
}

// The table, where it has these rows.
fn compare(part: &mut Part<MemStore>, rows: &[(&str, i128)]) -> Result<(), Trouble> {
    if has_rows(&part.table()?, rows) {
        Ok(())
    } else {
        Err(Trouble::Rows)
    }
}

/// Whether the table has these rows.
pub fn check_table(alloc: Global, lines: &[Line], rows: &[(&str, i128)]) -> Result<(), Trouble> {
    compare(&mut part_of(alloc, lines)?, rows)
}

fn is_refused(outcome: Result<Pairs, PartFault>) -> bool {
    matches!(outcome, Err(PartFault::Store))
}

// The table is refused, and told when it is asked for again.
fn compare_again(part: &mut Part<MemStore>, rows: &[(&str, i128)]) -> Result<(), Trouble> {
    if !is_refused(part.table()) {
        return Err(Trouble::Rows);
    }
    if part.faults() != 1 {
        return Err(Trouble::Faults(part.faults()));
    }
    compare(part, rows)
}

/// Whether a call fails once, and the table has these rows when it is asked for again.
pub fn check_table_failing(
    alloc: Global,
    lines: &[Line],
    at: FailAt,
    rows: &[(&str, i128)],
) -> Result<(), Trouble> {
    compare_again(&mut failing_part_of(alloc, lines, at)?, rows)
}

pub(crate) fn is_bad(fault: &PartFault, key: &[u8]) -> bool {
    match fault {
        PartFault::BadCell(bytes) => bytes.as_slice() == key,
        _ => false,
    }
}

// Whether the outcome is that the cell of this key is bad.
fn bad_at<T: Drop>(outcome: Result<T, PartFault>, key: &[u8]) -> Result<(), Trouble> {
    let bad = match &outcome {
        Err(fault) => is_bad(fault, key),
        Ok(_) => false,
    };
    if bad { Ok(()) } else { Err(Trouble::Rows) }
}

/// Whether the table is refused, as the cell of this key is bad.
pub fn check_bad_table(alloc: Global, lines: &[Line], key: &[u8]) -> Result<(), Trouble> {
    bad_at(part_of(alloc, lines)?.table(), key)
}

/// Whether a transactional part over the same cells refuses to write this key.
pub fn check_other_kind(alloc: Global, lines: &[Line], key: &str) -> Result<(), Trouble> {
    let store = store_of(alloc, Kind::Opaque, lines)?;
    let mut part = Part::new(alloc, store, Kind::Transactional, Fold::Count);
    let writes = writes_of(alloc, &[(key, 1)])?;
    bad_at(commit(alloc, &mut part, 3, &writes), key.as_bytes())
}
