// Reports, by hand.
use crate::ends::{Ended, How, Records, check_report};
use run_report::Tail;
use test_kit::Mismatch;
use tree_model::storm_values::Root;

const BATCH: Records = &[(1, 2)];

const NEXT: Records = &[(3, 4)];

const FIRST: Root = Root {
    txid: 1,
    attempt: 1,
};

// The list names its edges out of order, and one of them twice.
const EVERY_END: [Ended; 8] = [
    ((1, 1), BATCH, 0, 0, How::Failed(&[0])),
    ((2, 1), NEXT, 0, 0, How::Dropped(FIRST)),
    ((1, 2), BATCH, 0, 1, How::Failed(&[0, 12, 3])),
    ((1, 3), BATCH, 1, 4, How::TimedOut),
    (
        (1, 4),
        BATCH,
        4,
        5,
        How::Coincided(&[(&[0, 1], 9), (&[0], 5), (&[0, 0], 9), (&[0], 5)]),
    ),
    ((1, 5), BATCH, 5, 6, How::CommitFailed(1, 0)),
    ((1, 6), BATCH, 6, 8, How::Committed),
    ((2, 2), NEXT, 0, 8, How::Committed),
];

#[test]
fn every_end_and_all_records(rt: HostRuntime) -> Result<(), Mismatch> {
    let tail = Tail::Ok {
        records: 4,
        batches: 2,
    };
    check_report(
        rt.alloc(),
        &EVERY_END,
        &[("[\"cow\"]", 2), ("[\"moon\"]", -7)],
        tail,
        "attempt 1.1 records 1-2 ticks 0-0 failed 0
attempt 2.1 records 3-4 ticks 0-0 dropped 1.1
attempt 1.2 records 1-2 ticks 0-1 failed 0.12.3
attempt 1.3 records 1-2 ticks 1-4 timed out
attempt 1.4 records 1-2 ticks 4-5 coincided 0.0:0000000000000009 0.1:0000000000000009
attempt 1.5 records 1-2 ticks 5-6 commit failed counts 0
attempt 1.6 records 1-2 ticks 6-8 committed
attempt 2.2 records 3-4 ticks 0-8 committed
cell counts [\"cow\"] 2
cell counts [\"moon\"] -7
ok 4 records 2 batches
",
    )
}

// Ids with every digit, a list that is closed, and a component that is not there.
#[test]
fn ends_of_an_exhausted_transaction(rt: HostRuntime) -> Result<(), Mismatch> {
    check_report(
        rt.alloc(),
        &[
            (
                (1, 1),
                BATCH,
                0,
                3,
                How::Coincided(&[
                    (&[4294967295], 0x0123456789abcdef),
                    (&[7], 0xfedcba9876543210),
                ]),
            ),
            ((1, 2), BATCH, 3, 3, How::Coincided(&[])),
            ((1, 3), BATCH, 3, 4, How::CommitFailed(2, 5)),
        ],
        &[],
        Tail::Exhausted(u64::MAX),
        "attempt 1.1 records 1-2 ticks 0-3 coincided 7:fedcba9876543210 4294967295:0123456789abcdef
attempt 1.2 records 1-2 ticks 3-3 coincided \nattempt 1.3 records 1-2 ticks 3-4 commit failed  5
exhausted 18446744073709551615
",
    )
}

#[test]
fn nothing_was_committed(rt: HostRuntime) -> Result<(), Mismatch> {
    check_report(rt.alloc(), &[], &[], Tail::Unfinished(0), "unfinished 0\n")
}

#[test]
fn records_of_one_span_and_more(rt: HostRuntime) -> Result<(), Mismatch> {
    check_report(
        rt.alloc(),
        &[
            ((1, 1), &[(1, 1), (3, 3), (5, 9)], 0, 3, How::TimedOut),
            ((1, 2), &[(1, 1), (3, 3)], 3, 3, How::Failed(&[0])),
            ((1, 3), &[(1, u64::MAX)], 3, 3, How::Committed),
        ],
        &[],
        Tail::Unfinished(1),
        "attempt 1.1 records 1-1,3-3,5-9 ticks 0-3 timed out
attempt 1.2 records 1-1,3-3 ticks 3-3 failed 0
attempt 1.3 records 1-18446744073709551615 ticks 3-3 committed
unfinished 1
",
    )
}
