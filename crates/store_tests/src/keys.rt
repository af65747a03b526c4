// Keys and their cells.
use crate::calls::Answer::{Done, Found, Nothing, Number};
use crate::calls::Call::{Count, Get, KeyAt, Put};
use crate::calls::{CELLS, Step, Trouble, check};

const THREE: [Step; 4] = [
    (Put(b"a", b"1"), Done),
    (KeyAt(0), Found(b"a")),
    (KeyAt(1), Found(b"b")),
    (KeyAt(2), Found(&[0x80])),
];

#[test]
fn keys_stand_in_the_order_of_bytes(rt: HostRuntime) -> Result<(), Trouble> {
    check(rt.alloc(), &CELLS, None, &THREE)
}

const BEHIND: [Step; 3] = [
    (Put(b"a", b"1"), Done),
    (Count, Number(3)),
    (KeyAt(3), Nothing),
];

#[test]
fn no_key_stands_behind_the_last(rt: HostRuntime) -> Result<(), Trouble> {
    check(rt.alloc(), &CELLS, None, &BEHIND)
}

const NEW: [Step; 3] = [
    (KeyAt(0), Found(b"b")),
    (Put(b"a", b"1"), Done),
    (KeyAt(0), Found(b"a")),
];

#[test]
fn a_new_key_comes_to_its_place(rt: HostRuntime) -> Result<(), Trouble> {
    check(rt.alloc(), &CELLS, None, &NEW)
}

// The first cell does not lie in place. The last key is found by hash, as it is not the one that
// was found before.
const CHANGED: [Step; 7] = [
    (
        Put(b"b", b"forty-seven bytes, which do not lie in place: 1"),
        Done,
    ),
    (
        Get(b"b"),
        Found(b"forty-seven bytes, which do not lie in place: 1"),
    ),
    (Put(b"b", b"4"), Done),
    (Get(b"b"), Found(b"4")),
    (Get(b"b"), Found(b"4")),
    (Put(&[0x80], b"5"), Done),
    (Get(&[0x80]), Found(b"5")),
];

#[test]
fn a_key_has_its_last_cell(rt: HostRuntime) -> Result<(), Trouble> {
    check(rt.alloc(), &CELLS, None, &CHANGED)
}

// Keys of 31 bytes, which do not lie in place, and one of 30, which does.
const LONG: [Step; 6] = [
    (Put(b"abcdefghijklmnopqrstuvwxyz01234", b"1"), Done),
    (Put(b"abcdefghijklmnopqrstuvwxyz01235", b"2"), Done),
    (Put(b"abcdefghijklmnopqrstuvwxyz0123", b"3"), Done),
    (Get(b"abcdefghijklmnopqrstuvwxyz01234"), Found(b"1")),
    (Get(b"abcdefghijklmnopqrstuvwxyz01235"), Found(b"2")),
    (Get(b"abcdefghijklmnopqrstuvwxyz0123"), Found(b"3")),
];

#[test]
fn long_keys_have_cells_of_their_own(rt: HostRuntime) -> Result<(), Trouble> {
    check(rt.alloc(), &[], None, &LONG)
}
