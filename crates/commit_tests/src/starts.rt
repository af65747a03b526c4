// Turns of a coordinator that starts after the transactions of an earlier run, by hand, from the
// rule of each step.
use crate::scenes::{Call, Ended, How, Start, Step, Told, check_steps};
use crate::values::{
    RECORD_3, RECORD_4, RECORDS_1_2, RECORDS_1_AND_3, RECORDS_2_AND_4, ROOT_2_1, ROOT_3_1, ROOT_4_1,
};
use test_kit::Mismatch;

// Batches of one record, of which two may be pending.
const OF_ONE: &str = r#"{"version":1,
 "spout":{"name":"words","kind":"opaque","fields":["word"],"batch":1},
 "bolts":[],
 "states":[{"name":"counts","kind":"opaque","parts":1,"key":["word"],
   "fold":"count","inputs":["words"]}],
 "ackers":1,"pending":2,"buckets":3,"attempts":2}"#;

// The same with batches of two records.
const OF_TWO: &str = r#"{"version":1,
 "spout":{"name":"words","kind":"opaque","fields":["word"],"batch":2},
 "bolts":[],
 "states":[{"name":"counts","kind":"opaque","parts":1,"key":["word"],
   "fold":"count","inputs":["words"]}],
 "ackers":1,"pending":2,"buckets":3,"attempts":2}"#;

// The first two of four records are committed, without partitions.
const AFTER_TWO: Start = Start {
    records: 4,
    partitions: 0,
    txid: 2,
    gone: RECORDS_1_2,
};

// The first of two partitions is committed, of four records.
const AFTER_A_PARTITION: Start = Start {
    records: 4,
    partitions: 2,
    txid: 1,
    gone: RECORDS_1_AND_3,
};

// Both of two records are committed.
const AT_THE_END: Start = Start {
    records: 2,
    partitions: 0,
    txid: 2,
    gone: RECORDS_1_2,
};

// The first transaction is the one after the start, with the batch of that number.
const AFTER: [Step; 6] = [
    Step {
        call: Call::Turn(Told::Nothing, 0),
        begun: &[ROOT_3_1, ROOT_4_1],
        commit: None,
        ended: &[],
        stop: None,
    },
    Step {
        call: Call::Turn(Told::Closed(ROOT_3_1), 0),
        begun: &[],
        commit: Some(ROOT_3_1),
        ended: &[],
        stop: None,
    },
    Step {
        call: Call::Done,
        begun: &[],
        commit: None,
        ended: &[Ended {
            root: ROOT_3_1,
            records: RECORD_3,
            start: 0,
            finish: 0,
            how: How::Committed,
        }],
        stop: None,
    },
    Step {
        call: Call::Turn(Told::Closed(ROOT_4_1), 0),
        begun: &[],
        commit: Some(ROOT_4_1),
        ended: &[],
        stop: None,
    },
    Step {
        call: Call::Done,
        begun: &[],
        commit: None,
        ended: &[Ended {
            root: ROOT_4_1,
            records: RECORD_4,
            start: 0,
            finish: 0,
            how: How::Committed,
        }],
        stop: None,
    },
    Step {
        call: Call::Turn(Told::Nothing, 0),
        begun: &[],
        commit: None,
        ended: &[],
        stop: None,
    },
];

#[test]
fn commits_go_on_after_the_start(rt: HostRuntime) -> Result<(), Mismatch> {
    check_steps(rt.alloc(), OF_ONE, AFTER_TWO, &AFTER, 4, true)
}

// The records that are left are those of the other partition.
const IN_PARTITIONS: [Step; 3] = [
    Step {
        call: Call::Turn(Told::Nothing, 0),
        begun: &[ROOT_2_1],
        commit: None,
        ended: &[],
        stop: None,
    },
    Step {
        call: Call::Turn(Told::Closed(ROOT_2_1), 0),
        begun: &[],
        commit: Some(ROOT_2_1),
        ended: &[],
        stop: None,
    },
    Step {
        call: Call::Done,
        begun: &[],
        commit: None,
        ended: &[Ended {
            root: ROOT_2_1,
            records: RECORDS_2_AND_4,
            start: 0,
            finish: 0,
            how: How::Committed,
        }],
        stop: None,
    },
];

#[test]
fn partitions_go_on_after_the_start(rt: HostRuntime) -> Result<(), Mismatch> {
    check_steps(
        rt.alloc(),
        OF_TWO,
        AFTER_A_PARTITION,
        &IN_PARTITIONS,
        2,
        true,
    )
}

// Where no record is left nothing begins, and the start counts as committed.
const NOTHING_LEFT: [Step; 1] = [Step {
    call: Call::Turn(Told::Nothing, 0),
    begun: &[],
    commit: None,
    ended: &[],
    stop: None,
}];

#[test]
fn nothing_begins_after_the_last(rt: HostRuntime) -> Result<(), Mismatch> {
    check_steps(rt.alloc(), OF_ONE, AT_THE_END, &NOTHING_LEFT, 2, true)
}
