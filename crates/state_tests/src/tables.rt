// The table of a part.
use state_test_kit::{
    Line, Trouble, check_bad_table, check_other_kind, check_table, check_table_failing,
};
use storm_stores::{CallKind, FailAt};

// One key has no value.
const CELLS: [Line; 3] = [
    (b"b", 2, Some(-4), Some(1)),
    (b"a", 2, None, Some(1)),
    (b"B", 1, Some(7), None),
];

const ROWS: [(&str, i128); 2] = [("B", 7), ("b", -4)];

#[test]
fn rows_are_the_keys_with_a_value(rt: HostRuntime) -> Result<(), Trouble> {
    check_table(rt.alloc(), &CELLS, &ROWS)
}

const CALLS: [(CallKind, u64); 7] = [
    (CallKind::Count, 1),
    (CallKind::KeyAt, 1),
    (CallKind::KeyAt, 2),
    (CallKind::KeyAt, 3),
    (CallKind::Get, 1),
    (CallKind::Get, 2),
    (CallKind::Get, 3),
];

#[test]
fn each_call_of_a_table_may_fail(rt: HostRuntime) -> Result<(), Trouble> {
    for (kind, number) in CALLS {
        let at = FailAt {
            kind,
            number,
            happened: false,
        };
        check_table_failing(rt.alloc(), &CELLS, at, &ROWS)?;
    }
    Ok(())
}

const NO_TEXT: [Line; 2] = [(b"a", 2, Some(1), None), (b"\xc3(", 2, Some(1), None)];

#[test]
fn a_value_at_a_key_that_is_no_text_is_bad(rt: HostRuntime) -> Result<(), Trouble> {
    check_bad_table(rt.alloc(), &NO_TEXT, b"\xc3(")
}

const EMPTY_NO_TEXT: [Line; 2] = [(b"a", 2, Some(1), None), (b"\xc3(", 2, None, None)];

#[test]
fn an_empty_cell_at_a_key_that_is_no_text_is_no_row(rt: HostRuntime) -> Result<(), Trouble> {
    check_table(rt.alloc(), &EMPTY_NO_TEXT, &[("a", 1)])
}

#[test]
fn a_cell_of_the_other_kind_is_bad(rt: HostRuntime) -> Result<(), Trouble> {
    check_other_kind(rt.alloc(), &CELLS, "a")
}
