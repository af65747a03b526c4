// The bytes of cells, of both formats.
use cell_format::{CELL_BYTES, Cell, CellFault, decode_cell, encode_cell};
use tree_model::topology_plan::Kind;

const SUMMED: Cell = Cell {
    txid: 3,
    attempt: 2,
    value: Some(6),
    prev: Some(4),
    kind: Kind::Opaque,
};

const SUMMED_BYTES: [u8; CELL_BYTES] = [
    2, 7, 0, 0, 0, 0, 0, 0, 0, 3, 0, 0, 0, 2, 0, 0, 0, 0, 0, 0, 0, 0, 0, 0, 0, 0, 0, 0, 0, 6, 0, 0,
    0, 0, 0, 0, 0, 0, 0, 0, 0, 0, 0, 0, 0, 4,
];

// The same in format 1, which has no attempt.
const OLD_SUMMED: Cell = Cell {
    txid: 3,
    attempt: 0,
    value: Some(6),
    prev: Some(4),
    kind: Kind::Opaque,
};

const OLD_SUMMED_BYTES: [u8; 42] = [
    1, 7, 0, 0, 0, 0, 0, 0, 0, 3, 0, 0, 0, 0, 0, 0, 0, 0, 0, 0, 0, 0, 0, 0, 0, 6, 0, 0, 0, 0, 0, 0,
    0, 0, 0, 0, 0, 0, 0, 0, 0, 4,
];

#[test]
fn an_opaque_cell_has_these_bytes(rt: HostRuntime) {
    assert!(rt; encode_cell(&SUMMED) == SUMMED_BYTES);
    assert!(rt; decode_cell(&SUMMED_BYTES) == Ok(SUMMED));
}

#[test]
fn a_cell_of_format_1_is_of_no_known_attempt(rt: HostRuntime) {
    assert!(rt; decode_cell(&OLD_SUMMED_BYTES) == Ok(OLD_SUMMED));
    assert!(rt; decode_cell(&encode_cell(&OLD_SUMMED)) == Ok(OLD_SUMMED));
}

// 2^127 - 1 and -2^127
const ENDS: Cell = Cell {
    txid: 18446744073709551615,
    attempt: 4294967295,
    value: Some(-170141183460469231731687303715884105727 - 1),
    prev: Some(170141183460469231731687303715884105727),
    kind: Kind::Opaque,
};

const ENDS_BYTES: [u8; CELL_BYTES] = [
    2, 7, 255, 255, 255, 255, 255, 255, 255, 255, 255, 255, 255, 255, 128, 0, 0, 0, 0, 0, 0, 0, 0,
    0, 0, 0, 0, 0, 0, 0, 127, 255, 255, 255, 255, 255, 255, 255, 255, 255, 255, 255, 255, 255, 255,
    255,
];

#[test]
fn the_ends_of_numbers_have_these_bytes(rt: HostRuntime) {
    assert!(rt; encode_cell(&ENDS) == ENDS_BYTES);
    assert!(rt; decode_cell(&ENDS_BYTES) == Ok(ENDS));
}

const COUNTED: Cell = Cell {
    txid: 258,
    attempt: 65537,
    value: Some(-2),
    prev: None,
    kind: Kind::Transactional,
};

const COUNTED_BYTES: [u8; CELL_BYTES] = [
    2, 1, 0, 0, 0, 0, 0, 0, 1, 2, 0, 1, 0, 1, 255, 255, 255, 255, 255, 255, 255, 255, 255, 255,
    255, 255, 255, 255, 255, 254, 0, 0, 0, 0, 0, 0, 0, 0, 0, 0, 0, 0, 0, 0, 0, 0,
];

#[test]
fn a_transactional_cell_has_these_bytes(rt: HostRuntime) {
    assert!(rt; encode_cell(&COUNTED) == COUNTED_BYTES);
    assert!(rt; decode_cell(&COUNTED_BYTES) == Ok(COUNTED));
}

// The fault of so many of the first bytes of a cell: a cut of format 2 that is as long as one of
// format 1 has another version.
fn cut_fault(bytes: &[u8], length: usize) -> CellFault {
    if length == 42 && bytes.len() > length {
        CellFault::Version
    } else {
        CellFault::Length
    }
}

#[test]
fn cut_cells_are_refused(rt: HostRuntime) {
    for length in 0..CELL_BYTES {
        let cut = decode_cell(&SUMMED_BYTES[..length]);
        assert!(rt; cut == Err(cut_fault(&SUMMED_BYTES, length)));
    }
    for length in 0..42usize {
        let cut = decode_cell(&OLD_SUMMED_BYTES[..length]);
        assert!(rt; cut == Err(cut_fault(&OLD_SUMMED_BYTES, length)));
    }
}

#[test]
fn bytes_that_are_no_cell_are_refused(rt: HostRuntime) {
    let mut version = SUMMED_BYTES;
    version[0] = 1;
    assert!(rt; decode_cell(&version) == Err(CellFault::Version));
    let mut old_version = OLD_SUMMED_BYTES;
    old_version[0] = 2;
    assert!(rt; decode_cell(&old_version) == Err(CellFault::Version));
    let mut flag = SUMMED_BYTES;
    flag[1] = 3;
    assert!(rt; decode_cell(&flag) == Err(CellFault::Flag));
    let mut old_flag = OLD_SUMMED_BYTES;
    old_flag[1] = 3;
    assert!(rt; decode_cell(&old_flag) == Err(CellFault::Flag));
}
