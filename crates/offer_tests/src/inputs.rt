use record_spans::{Span, Spans};
use std::alloc::Global;
use storm_values::{Memory, Row, Rows, Value};

// The first and last numbers of spans.
pub type Ends = &'static [(u64, u64)];

// Why a test fails.
#[derive(Debug, Drop)]
pub enum Trouble {
    // The line of this number, from 0, has another answer.
    Line(usize),
    // So many records were given out.
    Records(u64),
    Memory,
}

impl From<Memory> for Trouble {
    fn from(_: Memory) -> Self {
        Trouble::Memory
    }
}

fn numbered_row(alloc: Global, number: i64) -> Result<Row, Memory> {
    let mut row = Row::new(alloc);
    row.push(Value::Int(number))?;
    Ok(row)
}

// So many rows, each with its number counted from 1.
pub fn numbered_rows(alloc: Global, records: i64) -> Result<Rows, Memory> {
    let mut rows = Rows::new(alloc);
    for record in 0..records {
        rows.push(numbered_row(alloc, record + 1)?)?;
    }
    Ok(rows)
}

// The number of a row that `numbered_rows` made.
pub fn number_of(row: &Row) -> i64 {
    match row.as_slice().first() {
        Some(Value::Int(number)) => *number,
        _ => 0,
    }
}

pub fn spans_of(alloc: Global, ends: &[(u64, u64)]) -> Result<Spans, Memory> {
    let mut spans = Spans::new(alloc);
    for (first, last) in ends {
        spans.push(Span {
            first: *first,
            last: *last,
        })?;
    }
    Ok(spans)
}

// Whether spans have these ends.
pub fn have_ends(alloc: Global, spans: &[Span], ends: &[(u64, u64)]) -> Result<bool, Memory> {
    let wanted = spans_of(alloc, ends)?;
    Ok(spans == wanted.as_slice())
}
