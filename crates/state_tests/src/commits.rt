// What commits make of cells, where no call fails.
use state_test_kit::End::Done;
use state_test_kit::{Line, Scene, Trouble, check};
use tree_model::topology_plan::{Fold, Kind};

const ANIMALS: [Line; 3] = [
    (b"[\"apple\"]", 2, Some(10), None),
    (b"[\"dog\"]", 3, Some(4), None),
    (b"[\"man\"]", 1, Some(3), None),
];

// One key has the transaction already, and one is written twice.
const ANIMALS_COUNTED: Scene = Scene {
    kind: Kind::Transactional,
    by: Fold::Count,
    from: &ANIMALS,
    steps: &[(
        3,
        &[("[\"man\"]", 1), ("[\"man\"]", 1), ("[\"dog\"]", 1)],
        Done,
    )],
    faults: 0,
    want: &[
        (b"[\"apple\"]", 2, Some(10), None),
        (b"[\"dog\"]", 3, Some(4), None),
        (b"[\"man\"]", 3, Some(5), None),
    ],
};

#[test]
fn a_key_of_the_transaction_is_not_counted_again(rt: HostRuntime) -> Result<(), Trouble> {
    check(rt.alloc(), &ANIMALS_COUNTED)
}

// The same batch comes again, and then the next one.
const ANIMALS_COUNTED_AGAIN: Scene = Scene {
    kind: Kind::Transactional,
    by: Fold::Count,
    from: &ANIMALS,
    steps: &[
        (3, &[("[\"man\"]", 1), ("[\"cat\"]", 1)], Done),
        (3, &[("[\"man\"]", 1), ("[\"cat\"]", 1)], Done),
        (4, &[("[\"cat\"]", 1)], Done),
    ],
    faults: 0,
    want: &[
        (b"[\"apple\"]", 2, Some(10), None),
        (b"[\"cat\"]", 4, Some(2), None),
        (b"[\"dog\"]", 3, Some(4), None),
        (b"[\"man\"]", 3, Some(4), None),
    ],
};

#[test]
fn a_repeated_batch_changes_nothing(rt: HostRuntime) -> Result<(), Trouble> {
    check(rt.alloc(), &ANIMALS_COUNTED_AGAIN)
}

const NEXT_TRANSACTION: Scene = Scene {
    kind: Kind::Opaque,
    by: Fold::Sum,
    from: &[(b"x", 2, Some(4), Some(1))],
    steps: &[(3, &[("x", 2)], Done)],
    faults: 0,
    want: &[(b"x", 3, Some(6), Some(4))],
};

#[test]
fn the_next_transaction_goes_on_from_the_value(rt: HostRuntime) -> Result<(), Trouble> {
    check(rt.alloc(), &NEXT_TRANSACTION)
}

const EQUAL_TRANSACTION: Scene = Scene {
    kind: Kind::Opaque,
    by: Fold::Sum,
    from: &[(b"x", 2, Some(4), Some(1))],
    steps: &[(2, &[("x", 2)], Done)],
    faults: 0,
    want: &[(b"x", 2, Some(3), Some(1))],
};

#[test]
fn an_equal_transaction_begins_at_the_value_before(rt: HostRuntime) -> Result<(), Trouble> {
    check(rt.alloc(), &EQUAL_TRANSACTION)
}

// Where a batch comes again with other writes, keys of the first attempt get their value before.
const OTHER_KEYS: Scene = Scene {
    kind: Kind::Opaque,
    by: Fold::Sum,
    from: &[
        (b"x", 2, Some(4), Some(1)),
        (b"\x80", 3, Some(5), None),
        (b"\xff", 2, Some(5), Some(7)),
    ],
    steps: &[
        (3, &[("x", 2), ("y", 2)], Done),
        (3, &[("z", -2), ("z", 5)], Done),
    ],
    faults: 0,
    want: &[
        (b"x", 3, Some(4), Some(4)),
        (b"y", 3, None, None),
        (b"z", 3, Some(3), None),
        (b"\x80", 3, None, None),
        (b"\xff", 2, Some(5), Some(7)),
    ],
};

#[test]
fn other_keys_of_an_attempt_get_their_value_before(rt: HostRuntime) -> Result<(), Trouble> {
    check(rt.alloc(), &OTHER_KEYS)
}

// A commit of an older transaction than the newest in the store, and of the newest again.
const OLDER_TRANSACTION: Scene = Scene {
    kind: Kind::Opaque,
    by: Fold::Sum,
    from: &[
        (b"x", 2, Some(4), Some(1)),
        (b"y", 5, Some(8), Some(7)),
        (b"z", 2, Some(6), None),
    ],
    steps: &[(2, &[("x", 2)], Done), (5, &[], Done)],
    faults: 0,
    want: &[
        (b"x", 2, Some(3), Some(1)),
        (b"y", 5, Some(7), Some(7)),
        (b"z", 2, None, None),
    ],
};

#[test]
fn an_older_transaction_is_committed(rt: HostRuntime) -> Result<(), Trouble> {
    check(rt.alloc(), &OLDER_TRANSACTION)
}

// The operation of the scenes keeps the first amount.
const FIRST_AMOUNTS: Scene = Scene {
    kind: Kind::Transactional,
    by: Fold::Custom,
    from: &[(b"x", 1, Some(2), None)],
    steps: &[
        (2, &[("x", 5), ("y", 7), ("y", 3)], Done),
        (3, &[("x", 3)], Done),
    ],
    faults: 0,
    want: &[(b"x", 3, Some(2), None), (b"y", 2, Some(7), None)],
};

#[test]
fn a_custom_fold_goes_by_the_operation(rt: HostRuntime) -> Result<(), Trouble> {
    check(rt.alloc(), &FIRST_AMOUNTS)
}

// Tried again, the first key begins anew, and the second goes on from its value before.
const FIRST_AMOUNTS_AGAIN: Scene = Scene {
    kind: Kind::Opaque,
    by: Fold::Custom,
    from: &[(b"x", 2, Some(4), None), (b"y", 2, Some(4), Some(1))],
    steps: &[(2, &[("x", 6), ("x", 8), ("y", 6)], Done)],
    faults: 0,
    want: &[(b"x", 2, Some(6), None), (b"y", 2, Some(1), Some(1))],
};

#[test]
fn a_custom_fold_is_tried_again(rt: HostRuntime) -> Result<(), Trouble> {
    check(rt.alloc(), &FIRST_AMOUNTS_AGAIN)
}

// 2^127 - 1 and -2^127
const MOST: i128 = 170141183460469231731687303715884105727;

const LEAST: i128 = -170141183460469231731687303715884105727 - 1;

const SUMS_AT_THEIR_ENDS: Scene = Scene {
    kind: Kind::Opaque,
    by: Fold::Sum,
    from: &[
        (b"high", 1, Some(MOST), None),
        (b"low", 1, Some(LEAST), None),
    ],
    steps: &[
        (2, &[("high", 2), ("low", -2)], Done),
        (3, &[("high", -1), ("low", 1)], Done),
    ],
    faults: 0,
    want: &[
        (b"high", 3, Some(MOST - 1), Some(MOST)),
        (b"low", 3, Some(LEAST + 1), Some(LEAST)),
    ],
};

#[test]
fn sums_stop_at_their_ends(rt: HostRuntime) -> Result<(), Trouble> {
    check(rt.alloc(), &SUMS_AT_THEIR_ENDS)
}
