// Commits over a store of which a call fails.
use state_test_kit::End::{Done, Refused};
use state_test_kit::{Line, Scene, Trouble, check_calls, check_each, check_failing};
use storm_stores::{CallKind, FailAt};
use tree_model::topology_plan::{Fold, Kind};

const FIRST_PUT_FAILS: FailAt = FailAt {
    kind: CallKind::Put,
    number: 1,
    happened: true,
};

const EMPTIED: Scene = Scene {
    kind: Kind::Opaque,
    by: Fold::Count,
    from: &[],
    steps: &[(2, &[("x", 1)], Refused), (2, &[], Done)],
    faults: 1,
    want: &[(b"x", 2, None, None)],
};

#[test]
fn a_key_of_a_refused_attempt_gets_an_empty_cell(rt: HostRuntime) -> Result<(), Trouble> {
    check_failing(rt.alloc(), &EMPTIED, FIRST_PUT_FAILS)
}

const COUNTED_AGAIN: Scene = Scene {
    kind: Kind::Opaque,
    by: Fold::Count,
    from: &[],
    steps: &[
        (2, &[("x", 1)], Refused),
        (2, &[], Done),
        (3, &[("x", 1)], Done),
    ],
    faults: 1,
    want: &[(b"x", 3, Some(1), None)],
};

#[test]
fn an_empty_cell_counts_from_nothing(rt: HostRuntime) -> Result<(), Trouble> {
    check_failing(rt.alloc(), &COUNTED_AGAIN, FIRST_PUT_FAILS)
}

// Two commits of one transaction, of which the first is refused, and one of the next.
const TWICE: Scene = Scene {
    kind: Kind::Opaque,
    by: Fold::Count,
    from: &[
        (b"a", 2, Some(4), Some(1)),
        (b"b", 1, Some(7), None),
        (b"c", 2, None, None),
    ],
    steps: &[
        (2, &[("b", 1), ("d", 1)], Refused),
        (2, &[("b", 1)], Done),
        (3, &[("d", 1), ("a", 1)], Done),
    ],
    faults: 1,
    want: &[
        (b"a", 3, Some(2), Some(1)),
        (b"b", 2, Some(8), Some(7)),
        (b"c", 2, None, None),
        (b"d", 3, Some(1), None),
    ],
};

// Each call of the first commit: of each kind so many calls.
#[test]
fn a_failed_count_is_made_good(rt: HostRuntime) -> Result<(), Trouble> {
    check_each(rt.alloc(), &TWICE, CallKind::Count, false, 1)
}

#[test]
fn a_failed_look_at_a_key_is_made_good(rt: HostRuntime) -> Result<(), Trouble> {
    check_each(rt.alloc(), &TWICE, CallKind::KeyAt, false, 3)
}

#[test]
fn a_failed_get_is_made_good(rt: HostRuntime) -> Result<(), Trouble> {
    check_each(rt.alloc(), &TWICE, CallKind::Get, false, 7)
}

#[test]
fn a_put_that_did_nothing_is_made_good(rt: HostRuntime) -> Result<(), Trouble> {
    check_each(rt.alloc(), &TWICE, CallKind::Put, false, 4)
}

#[test]
fn a_put_that_happened_is_made_good(rt: HostRuntime) -> Result<(), Trouble> {
    check_each(rt.alloc(), &TWICE, CallKind::Put, true, 4)
}

const TWO_KEYS: [Line; 2] = [(b"dog", 3, Some(4), None), (b"man", 1, Some(3), None)];

const TWO_SUMS: [Line; 2] = [(b"dog", 4, Some(5), None), (b"man", 4, Some(6), None)];

// The same of a transactional part, which gets and puts each key that is written once.
const ONCE_A_KEY: Scene = Scene {
    kind: Kind::Transactional,
    by: Fold::Sum,
    from: &TWO_KEYS,
    steps: &[
        (4, &[("man", 1), ("man", 2), ("dog", 1)], Refused),
        (4, &[("man", 1), ("man", 2), ("dog", 1)], Done),
    ],
    faults: 1,
    want: &TWO_SUMS,
};

#[test]
fn a_transactional_get_is_made_good(rt: HostRuntime) -> Result<(), Trouble> {
    check_each(rt.alloc(), &ONCE_A_KEY, CallKind::Get, false, 2)
}

#[test]
fn a_transactional_put_that_did_nothing_is_made_good(rt: HostRuntime) -> Result<(), Trouble> {
    check_each(rt.alloc(), &ONCE_A_KEY, CallKind::Put, false, 2)
}

#[test]
fn a_transactional_put_that_happened_is_made_good(rt: HostRuntime) -> Result<(), Trouble> {
    check_each(rt.alloc(), &ONCE_A_KEY, CallKind::Put, true, 2)
}

// Calls that a transactional commit of two keys does not make: a get and a put more, and any other.
const NOT_MADE: [FailAt; 4] = [
    FailAt {
        kind: CallKind::Get,
        number: 3,
        happened: false,
    },
    FailAt {
        kind: CallKind::Put,
        number: 3,
        happened: false,
    },
    FailAt {
        kind: CallKind::Count,
        number: 1,
        happened: false,
    },
    FailAt {
        kind: CallKind::KeyAt,
        number: 1,
        happened: false,
    },
];

const UNHARMED: Scene = Scene {
    kind: Kind::Transactional,
    by: Fold::Sum,
    from: &TWO_KEYS,
    steps: &[(4, &[("man", 1), ("man", 2), ("dog", 1)], Done)],
    faults: 0,
    want: &TWO_SUMS,
};

#[test]
fn a_transactional_commit_gets_and_puts_a_key_once(rt: HostRuntime) -> Result<(), Trouble> {
    check_calls(rt.alloc(), &UNHARMED, &NOT_MADE)
}

// Calls that an opaque part does not make: it looks at each key at its first commit alone, and gets
// at each later one the keys that are written and those of the same transaction.
const LATER_CALLS: [FailAt; 3] = [
    FailAt {
        kind: CallKind::Count,
        number: 2,
        happened: false,
    },
    FailAt {
        kind: CallKind::KeyAt,
        number: 4,
        happened: false,
    },
    FailAt {
        kind: CallKind::Get,
        number: 10,
        happened: false,
    },
];

const LATER_COMMITS: Scene = Scene {
    kind: Kind::Opaque,
    by: Fold::Count,
    from: &[
        (b"a", 2, Some(4), Some(1)),
        (b"b", 1, Some(7), None),
        (b"c", 1, Some(9), None),
    ],
    // nine gets: three and one, two, one, and two
    steps: &[
        (2, &[("a", 1)], Done),
        (2, &[("b", 1)], Done),
        (3, &[("d", 1)], Done),
        (4, &[("b", 1), ("d", 1)], Done),
    ],
    faults: 0,
    want: &[
        (b"a", 2, Some(1), Some(1)),
        (b"b", 4, Some(9), Some(8)),
        (b"c", 1, Some(9), None),
        (b"d", 4, Some(2), Some(1)),
    ],
};

#[test]
fn an_opaque_part_looks_at_each_key_once(rt: HostRuntime) -> Result<(), Trouble> {
    check_calls(rt.alloc(), &LATER_COMMITS, &LATER_CALLS)
}
