// Calls that fail where they are told to.
use crate::calls::Answer::{Failed, Found, Nothing, Number};
use crate::calls::Call::{Count, Faults, Get, KeyAt, Put};
use crate::calls::{CELLS, Step, Trouble, check};
use storm_stores::{CallKind, FailAt};

fn second(kind: CallKind) -> FailAt {
    FailAt {
        kind,
        number: 2,
        happened: false,
    }
}

fn first_put(happened: bool) -> FailAt {
    FailAt {
        kind: CallKind::Put,
        number: 1,
        happened,
    }
}

const GETS: [Step; 3] = [
    (Get(b"b"), Found(b"2")),
    (Get(b"b"), Failed),
    (Faults, Number(1)),
];

#[test]
fn the_second_get_fails(rt: HostRuntime) -> Result<(), Trouble> {
    check(rt.alloc(), &CELLS, Some(second(CallKind::Get)), &GETS)
}

const COUNTS: [Step; 2] = [(Count, Number(2)), (Count, Failed)];

#[test]
fn the_second_count_fails(rt: HostRuntime) -> Result<(), Trouble> {
    check(rt.alloc(), &CELLS, Some(second(CallKind::Count)), &COUNTS)
}

const LOOKS: [Step; 2] = [(KeyAt(0), Found(b"b")), (KeyAt(0), Failed)];

#[test]
fn the_second_look_at_a_key_fails(rt: HostRuntime) -> Result<(), Trouble> {
    check(rt.alloc(), &CELLS, Some(second(CallKind::KeyAt)), &LOOKS)
}

const NOT_PUT: [Step; 3] = [
    (Put(b"c", b"1"), Failed),
    (Faults, Number(1)),
    (Get(b"c"), Nothing),
];

#[test]
fn a_put_fails_and_nothing_happens(rt: HostRuntime) -> Result<(), Trouble> {
    check(rt.alloc(), &CELLS, Some(first_put(false)), &NOT_PUT)
}

const PUT: [Step; 3] = [
    (Put(b"c", b"4"), Failed),
    (Faults, Number(1)),
    (Get(b"c"), Found(b"4")),
];

#[test]
fn a_put_fails_after_it_happened(rt: HostRuntime) -> Result<(), Trouble> {
    check(rt.alloc(), &CELLS, Some(first_put(true)), &PUT)
}
