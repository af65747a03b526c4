// Cells of format 1 that are brought to format 2.
use state_test_kit::Answer::{Bad, Migrated, Refused};
use state_test_kit::Format::{Damaged, One, Two};
use state_test_kit::{Migration, Stored, Trouble, check_migration};
use storm_stores::{CallKind, FailAt};
use tree_model::topology_plan::Kind;

// There is a value.
const VALUE: u8 = 1;

const ANIMALS: [Stored; 3] = [
    (b"[\"apple\"]", One, VALUE, 2, 10),
    (b"[\"dog\"]", One, VALUE, 3, 4),
    (b"[\"man\"]", One, VALUE, 1, 3),
];

const NEW_ANIMALS: [Stored; 3] = [
    (b"[\"apple\"]", Two(0), VALUE, 2, 10),
    (b"[\"dog\"]", Two(0), VALUE, 3, 4),
    (b"[\"man\"]", Two(0), VALUE, 1, 3),
];

const THREE: Migration = Migration {
    kind: Kind::Transactional,
    from: &ANIMALS,
    fails: &[],
    answers: &[Migrated(3), Migrated(0)],
    want: &NEW_ANIMALS,
};

#[test]
fn each_cell_is_brought_once(rt: HostRuntime) -> Result<(), Trouble> {
    check_migration(rt.alloc(), &THREE)
}

const SECOND_PUT: FailAt = FailAt {
    kind: CallKind::Put,
    number: 2,
    happened: false,
};

const REFUSED: Migration = Migration {
    kind: Kind::Transactional,
    from: &ANIMALS,
    fails: &[SECOND_PUT],
    answers: &[Refused],
    want: &[
        (b"[\"apple\"]", Two(0), VALUE, 2, 10),
        (b"[\"dog\"]", One, VALUE, 3, 4),
        (b"[\"man\"]", One, VALUE, 1, 3),
    ],
};

#[test]
fn a_refused_put_leaves_the_cells_behind(rt: HostRuntime) -> Result<(), Trouble> {
    check_migration(rt.alloc(), &REFUSED)
}

const REFUSED_ONCE: Migration = Migration {
    kind: Kind::Transactional,
    from: &ANIMALS,
    fails: &[SECOND_PUT],
    answers: &[Refused, Migrated(2), Migrated(0)],
    want: &NEW_ANIMALS,
};

#[test]
fn a_refused_put_is_made_good(rt: HostRuntime) -> Result<(), Trouble> {
    check_migration(rt.alloc(), &REFUSED_ONCE)
}

const HAPPENED: Migration = Migration {
    kind: Kind::Transactional,
    from: &ANIMALS,
    fails: &[FailAt {
        kind: CallKind::Put,
        number: 2,
        happened: true,
    }],
    answers: &[Refused, Migrated(1), Migrated(0)],
    want: &NEW_ANIMALS,
};

#[test]
fn a_refused_put_that_happened_is_not_made_again(rt: HostRuntime) -> Result<(), Trouble> {
    check_migration(rt.alloc(), &HAPPENED)
}

// Of an opaque part, whose cells have the flag 4. One has no value.
const MIXED: Migration = Migration {
    kind: Kind::Opaque,
    from: &[
        (b"a", One, 5, 7, 9),
        (b"b", Two(6), 5, 7, 8),
        (b"c", One, 4, 7, 0),
        (b"d", Two(0), 5, 2, 1),
    ],
    fails: &[],
    answers: &[Migrated(2), Migrated(0)],
    want: &[
        (b"a", Two(0), 5, 7, 9),
        (b"b", Two(6), 5, 7, 8),
        (b"c", Two(0), 4, 7, 0),
        (b"d", Two(0), 5, 2, 1),
    ],
};

#[test]
fn a_cell_of_format_2_keeps_its_attempt(rt: HostRuntime) -> Result<(), Trouble> {
    check_migration(rt.alloc(), &MIXED)
}

// No put is made for a cell of format 2.
const NO_PUT: Migration = Migration {
    kind: Kind::Transactional,
    from: &NEW_ANIMALS,
    fails: &[FailAt {
        kind: CallKind::Put,
        number: 1,
        happened: false,
    }],
    answers: &[Migrated(0)],
    want: &NEW_ANIMALS,
};

#[test]
fn a_cell_of_format_2_is_not_put(rt: HostRuntime) -> Result<(), Trouble> {
    check_migration(rt.alloc(), &NO_PUT)
}

const ONE_DAMAGED: Migration = Migration {
    kind: Kind::Transactional,
    from: &[
        (b"[\"apple\"]", One, VALUE, 2, 10),
        (b"[\"dog\"]", Damaged, VALUE, 3, 4),
        (b"[\"man\"]", One, VALUE, 1, 3),
    ],
    fails: &[],
    answers: &[Bad(b"[\"dog\"]"), Bad(b"[\"dog\"]")],
    want: &[
        (b"[\"apple\"]", Two(0), VALUE, 2, 10),
        (b"[\"dog\"]", Damaged, VALUE, 3, 4),
        (b"[\"man\"]", One, VALUE, 1, 3),
    ],
};

#[test]
fn a_damaged_cell_is_refused_as_by_the_table(rt: HostRuntime) -> Result<(), Trouble> {
    check_migration(rt.alloc(), &ONE_DAMAGED)
}

const NO_TEXT: Migration = Migration {
    kind: Kind::Opaque,
    from: &[(b"a", One, 5, 2, 1), (b"\xc3(", One, 5, 2, 1)],
    fails: &[],
    answers: &[Bad(b"\xc3(")],
    want: &[(b"a", Two(0), 5, 2, 1), (b"\xc3(", One, 5, 2, 1)],
};

#[test]
fn a_value_at_a_key_that_is_no_text_is_refused(rt: HostRuntime) -> Result<(), Trouble> {
    check_migration(rt.alloc(), &NO_TEXT)
}

const EMPTY_NO_TEXT: Migration = Migration {
    kind: Kind::Opaque,
    from: &[(b"a", One, 5, 2, 1), (b"\xc3(", One, 4, 2, 0)],
    fails: &[],
    answers: &[Migrated(2)],
    want: &[(b"a", Two(0), 5, 2, 1), (b"\xc3(", Two(0), 4, 2, 0)],
};

#[test]
fn an_empty_cell_at_a_key_that_is_no_text_is_brought(rt: HostRuntime) -> Result<(), Trouble> {
    check_migration(rt.alloc(), &EMPTY_NO_TEXT)
}
