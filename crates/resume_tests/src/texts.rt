// Texts of metas, printed and read.
use crate::trouble::{Trouble, some_meta};
use record_spans::{Span, Spans};
use resume_meta::{Meta, meta_text, read_meta};
use std::alloc::Global;
use storm_values::Memory;

// The first and the last number of a span.
type Ends = (u64, u64);

// A meta and its text.
#[derive(Clone, Copy)]
pub struct Case {
    pub text: &'static str,
    txid: u64,
    records: u64,
    spans: &'static [Ends],
}

const NONE: [Ends; 0] = [];

const ONE: [Ends; 1] = [(1, 1)];

// A span may begin with 0, and lie past the records.
const ZERO: [Ends; 1] = [(0, 0)];

const MANY: [Ends; 4] = [(1, 12), (14, 14), (16, 99), (101, 102)];

const GREATEST: [Ends; 3] = [(0, 9), (11, u64::MAX - 2), (u64::MAX, u64::MAX)];

const WHOLE: [Ends; 1] = [(0, u64::MAX)];

pub const CASES: [Case; 7] = [
    Case {
        text: "meta 1 txid 0 records 0 spans none\n",
        txid: 0,
        records: 0,
        spans: &NONE,
    },
    Case {
        text: "meta 1 txid 1 records 2 spans 1-1\n",
        txid: 1,
        records: 2,
        spans: &ONE,
    },
    Case {
        text: "meta 1 txid 10 records 0 spans 0-0\n",
        txid: 10,
        records: 0,
        spans: &ZERO,
    },
    Case {
        text: "meta 1 txid 7 records 100 spans 1-12,14-14,16-99,101-102\n",
        txid: 7,
        records: 100,
        spans: &MANY,
    },
    Case {
        text: "meta 1 txid 18446744073709551615 records 18446744073709551615 spans none\n",
        txid: u64::MAX,
        records: u64::MAX,
        spans: &NONE,
    },
    Case {
        text: "meta 1 txid 18446744073709551615 records 9 spans 0-9,11-18446744073709551613,\
               18446744073709551615-18446744073709551615\n",
        txid: u64::MAX,
        records: 9,
        spans: &GREATEST,
    },
    Case {
        text: "meta 1 txid 3 records 18446744073709551615 spans 0-18446744073709551615\n",
        txid: 3,
        records: u64::MAX,
        spans: &WHOLE,
    },
];

fn spans_of(alloc: Global, ends: &[Ends]) -> Result<Spans, Memory> {
    let mut spans = Spans::new(alloc);
    for (first, last) in ends {
        spans.push(Span {
            first: *first,
            last: *last,
        })?;
    }
    Ok(spans)
}

fn meta_of(alloc: Global, case: Case) -> Result<Meta, Memory> {
    Ok(Meta {
        txid: case.txid,
        records: case.records,
        spans: spans_of(alloc, case.spans)?,
    })
}

// Whether a meta prints this text.
fn prints(alloc: Global, meta: &Meta, text: &str) -> Result<bool, Memory> {
    let printed = meta_text(alloc, meta)?;
    Ok(printed.as_str() == text)
}

// Whether a meta is the one of a case.
fn is_of(alloc: Global, meta: &Meta, case: Case) -> Result<bool, Memory> {
    let spans = spans_of(alloc, case.spans)?;
    Ok(
        meta.txid == case.txid
            && meta.records == case.records
            && meta.spans.as_slice() == spans.as_slice(),
    )
}

fn check(alloc: Global, case: Case, number: usize) -> Result<(), Trouble> {
    let meta = meta_of(alloc, case)?;
    let read = some_meta(read_meta(alloc, case.text.as_bytes())?)?;
    if prints(alloc, &meta, case.text)? && is_of(alloc, &read, case)? {
        Ok(())
    } else {
        Err(Trouble::Case(number))
    }
}

#[test]
fn metas_are_printed_and_read(rt: HostRuntime) -> Result<(), Trouble> {
    for (number, case) in CASES.iter().enumerate() {
        check(rt.alloc(), *case, number)?;
    }
    Ok(())
}
