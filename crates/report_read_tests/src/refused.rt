// Lines that are near to a report's.
use crate::read::{check_refusals, check_reports};
use std::alloc::Global;
use storm_values::Memory;
use test_kit::Mismatch;

// The least and the greatest numbers, the longest name, and keys of each kind.
const AT_THE_LIMITS: [&str; 6] = [
    "unfinished 0\n",
    "exhausted 18446744073709551615\n",
    "attempt 0.0 records 0-0 ticks 0-0 failed 0\nunfinished 18446744073709551615\n",
    "attempt 18446744073709551615.4294967295 records 18446744073709551615-18446744073709551615 \
     ticks 18446744073709551615-18446744073709551615 failed 4294967295.0.4294967295\n\
     ok 18446744073709551615 records 18446744073709551615 batches\n",
    "cell a [0] 0\n\
     cell a1234567890_1234567890-123456789 [\"\",-1] 170141183460469231731687303715884105727\n\
     ok 0 records 0 batches\n",
    "cell a [9223372036854775807,-9223372036854775808] -170141183460469231731687303715884105728\n\
     cell a [\"a b\",\"\\\"\\\\\\n\\u0001\u{e9}\",0,1,2,3,4,5] -1\n\
     cell z [\"] 7\"] 1\n\
     ok 1 records 1 batches\n",
];

#[test]
fn numbers_names_and_keys_at_their_limits(rt: HostRuntime) -> Result<(), Mismatch> {
    check_reports(rt.alloc(), &AT_THE_LIMITS)
}

const NUMBERS: [(&str, u64); 14] = [
    ("exhausted 01\n", 1),
    ("exhausted 00\n", 1),
    ("exhausted +1\n", 1),
    ("exhausted -1\n", 1),
    ("exhausted 1a\n", 1),
    ("exhausted \n", 1),
    ("exhausted 18446744073709551616\n", 1),
    ("unfinished 184467440737095516150\n", 1),
    ("ok 1 records 18446744073709551616 batches\n", 1),
    (
        "attempt 1.4294967296 records 1-1 ticks 0-0 committed\nunfinished 0\n",
        1,
    ),
    (
        "attempt 1.01 records 1-1 ticks 0-0 committed\nunfinished 0\n",
        1,
    ),
    (
        "attempt 1.1 records 1-1 ticks 0-00 committed\nunfinished 0\n",
        1,
    ),
    (
        "attempt 1.1 records 1-1 ticks 0-0 commit failed a 4294967296\nunfinished 0\n",
        1,
    ),
    (
        "attempt 1.1 records 1-1 ticks 0-0 commit failed a 00\nunfinished 0\n",
        1,
    ),
];

#[test]
fn numbers_in_other_forms(rt: HostRuntime) -> Result<(), Mismatch> {
    check_refusals(rt.alloc(), &NUMBERS)
}

// A report whose second line has these spans.
fn with_spans(alloc: Global, spans: &str) -> Result<String, Memory> {
    let first = "attempt 1.1 records 1-1 ticks 0-0 timed out";
    let tail = "ticks 0-0 committed\nunfinished 1";
    format!(in alloc; "{first}\nattempt 1.2 records {spans} {tail}\n")
}

// Neither their order nor whether they are apart is looked at.
const SPANS: [&str; 6] = [
    "1-1,3-3,5-9",
    "1-1,3-3",
    "5-1",
    "2-2,2-2,1-1",
    "0-0,0-0",
    "18446744073709551615-0,0-18446744073709551615",
];

#[test]
fn one_span_and_more(rt: HostRuntime) -> Result<(), Mismatch> {
    let alloc = rt.alloc();
    for spans in SPANS {
        let text = with_spans(alloc, spans)?;
        check_reports(alloc, &[text.as_str()])?;
    }
    Ok(())
}

const NO_SPANS: [&str; 18] = [
    "",
    ",",
    "1-1,",
    ",1-1",
    "1-1,,3-3",
    "1-1, 3-3",
    "1-1 ,3-3",
    "1-1;3-3",
    "1",
    "1,3-3",
    "1-1,3",
    "1-2-3",
    "1--2",
    "1-",
    "-1",
    "01-1",
    "1-1,3-03",
    "1-1,3-18446744073709551616",
];

#[test]
fn spans_in_other_forms(rt: HostRuntime) -> Result<(), Mismatch> {
    let alloc = rt.alloc();
    for spans in NO_SPANS {
        let text = with_spans(alloc, spans)?;
        check_refusals(alloc, &[(text.as_str(), 2)])?;
    }
    Ok(())
}

const PATHS: [(&str, u64); 13] = [
    (
        "attempt 1.1 records 1-1 ticks 0-0 failed \nunfinished 0\n",
        1,
    ),
    (
        "attempt 1.1 records 1-1 ticks 0-0 failed 0.\nunfinished 0\n",
        1,
    ),
    (
        "attempt 1.1 records 1-1 ticks 0-0 failed .0\nunfinished 0\n",
        1,
    ),
    (
        "attempt 1.1 records 1-1 ticks 0-0 failed 0..0\nunfinished 0\n",
        1,
    ),
    (
        "attempt 1.1 records 1-1 ticks 0-0 failed 4294967296\nunfinished 0\n",
        1,
    ),
    (
        "attempt 1.1 records 1-1 ticks 0-0 coincided \nunfinished 0\n",
        1,
    ),
    (
        "attempt 1.1 records 1-1 ticks 0-0 coincided :0000000000000001\nunfinished 0\n",
        1,
    ),
    (
        "attempt 1.1 records 1-1 ticks 0-0 coincided 0:000000000000000A\nunfinished 0\n",
        1,
    ),
    (
        "attempt 1.1 records 1-1 ticks 0-0 coincided 0:000000000000001\nunfinished 0\n",
        1,
    ),
    (
        "attempt 1.1 records 1-1 ticks 0-0 coincided 0:00000000000000001\nunfinished 0\n",
        1,
    ),
    (
        "attempt 1.1 records 1-1 ticks 0-0 coincided 0:000000000000000g\nunfinished 0\n",
        1,
    ),
    (
        "attempt 1.1 records 1-1 ticks 0-0 coincided 0:0000000000000001  1:0000000000000001\n\
         unfinished 0\n",
        1,
    ),
    (
        "attempt 1.1 records 1-1 ticks 0-0 coincided 0:0000000000000001 \nunfinished 0\n",
        1,
    ),
];

#[test]
fn paths_and_ids_in_other_forms(rt: HostRuntime) -> Result<(), Mismatch> {
    check_refusals(rt.alloc(), &PATHS)
}

// A report whose second line ends so.
fn with_end(alloc: Global, end: &str) -> Result<String, Memory> {
    let first = "attempt 1.1 records 1-1 ticks 0-0 timed out";
    let front = "attempt 2.1 records 2-2 ticks 0-0";
    format!(in alloc; "{first}\n{front} {end}\nunfinished 0\n")
}

// Whether there is a line of that root is not looked at.
const DROPPED: [&str; 4] = [
    "dropped 1.1",
    "dropped 0.0",
    "dropped 2.1",
    "dropped 18446744073709551615.4294967295",
];

#[test]
fn roots_at_their_limits(rt: HostRuntime) -> Result<(), Mismatch> {
    let alloc = rt.alloc();
    for end in DROPPED {
        let text = with_end(alloc, end)?;
        check_reports(alloc, &[text.as_str()])?;
    }
    Ok(())
}

const NOT_DROPPED: [&str; 20] = [
    "dropped",
    "dropped ",
    "dropped 1",
    "dropped 1.",
    "dropped .1",
    "dropped .",
    "dropped  1.1",
    "dropped 1.1 ",
    "dropped 1.1 2.1",
    "dropped 1.1.1",
    "dropped 1.1,2.1",
    "dropped 1-1",
    "dropped 1 1",
    "dropped 01.1",
    "dropped 1.01",
    "dropped +1.1",
    "dropped a.1",
    "dropped by 1.1",
    "dropped 18446744073709551616.1",
    "dropped 1.4294967296",
];

#[test]
fn roots_in_other_forms(rt: HostRuntime) -> Result<(), Mismatch> {
    let alloc = rt.alloc();
    for end in NOT_DROPPED {
        let text = with_end(alloc, end)?;
        check_refusals(alloc, &[(text.as_str(), 2)])?;
    }
    Ok(())
}

const CELLS: [(&str, u64); 15] = [
    ("cell a [0] -0\nok 1 records 1 batches\n", 1),
    ("cell a [0] 01\nok 1 records 1 batches\n", 1),
    ("cell a [0] +1\nok 1 records 1 batches\n", 1),
    ("cell a [0] \nok 1 records 1 batches\n", 1),
    (
        "cell a [0] 170141183460469231731687303715884105728\nok 1 records 1 batches\n",
        1,
    ),
    (
        "cell a [0] -170141183460469231731687303715884105729\nok 1 records 1 batches\n",
        1,
    ),
    ("cell a [0, 1] 1\nok 1 records 1 batches\n", 1),
    ("cell a [] 1\nok 1 records 1 batches\n", 1),
    ("cell a [0,1,2,3,4,5,6,7,8] 1\nok 1 records 1 batches\n", 1),
    ("cell a [1.5] 1\nok 1 records 1 batches\n", 1),
    (
        "cell a [9223372036854775808] 1\nok 1 records 1 batches\n",
        1,
    ),
    ("cell a [\"\\u0061\"] 1\nok 1 records 1 batches\n", 1),
    ("cell a {} 1\nok 1 records 1 batches\n", 1),
    ("cell A [0] 1\nok 1 records 1 batches\n", 1),
    (
        "cell a12345678901234567890123456789012 [0] 1\nok 1 records 1 batches\n",
        1,
    ),
];

#[test]
fn cells_in_other_forms(rt: HostRuntime) -> Result<(), Mismatch> {
    check_refusals(rt.alloc(), &CELLS)
}

const LINES: [(&str, u64); 18] = [
    ("", 1),
    ("\n", 1),
    ("ok 1 records 1 batches", 1),
    ("ok 1 records 1 batches\r\n", 1),
    ("ok 1 records 1 batches \n", 1),
    ("ok  1 records 1 batches\n", 1),
    (" ok 1 records 1 batches\n", 1),
    ("Ok 1 records 1 batches\n", 1),
    ("ok 1 records 1 batches\n\n", 2),
    ("ok 1 records 1 batches\nok 1 records 1 batches\n", 2),
    (
        "unfinished 0\nattempt 1.1 records 1-1 ticks 0-0 committed\n",
        2,
    ),
    ("ok 1 records 1 batches\ncell a [0] 1\n", 2),
    (
        "cell a [0] 1\nattempt 1.1 records 1-1 ticks 0-0 committed\nok 1 records 1 batches\n",
        2,
    ),
    ("cell a [0] 1\nexhausted 1\n", 2),
    ("cell a [0] 1\ncell a [1] 1\nunfinished 1\n", 3),
    ("attempt 1.1 records 1-1 ticks 0-0 committed\n", 2),
    (
        "attempt 1.1 records 1-1 ticks 0-0 committed\ncell a [0] 1\n",
        3,
    ),
    (
        "attempt 1.1 records 1-1 ticks 0-0  committed\nunfinished 0\n",
        1,
    ),
];

#[test]
fn lines_that_stand_where_none_may(rt: HostRuntime) -> Result<(), Mismatch> {
    check_refusals(rt.alloc(), &LINES)
}
