// Turns of a coordinator whose spout has partitions, by hand, from the rule of each step. Of two
// partitions records 1 and 3 are those of the first, and 2 and 4 those of the second.
use crate::scenes::{Call, Ended, How, Start, Step, Told, check_steps};
use crate::values::{
    RECORD_1, RECORD_2, RECORD_3, RECORDS_1_2, RECORDS_1_AND_3, RECORDS_2_AND_4, RECORDS_3_4,
    ROOT_1_1, ROOT_1_2, ROOT_2_1, ROOT_2_2, ROOT_2_3, ROOT_3_1, ROOT_3_2,
};
use test_kit::Mismatch;

// Batches of two records, of which two may be pending. Buckets are 3, and a batch may abort twice.
const OF_TWO: &str = r#"{"version":1,
 "spout":{"name":"words","kind":"opaque","fields":["word"],"batch":2},
 "bolts":[],
 "states":[{"name":"counts","kind":"opaque","parts":1,"key":["word"],
   "fold":"count","inputs":["words"]}],
 "ackers":1,"pending":2,"buckets":3,"attempts":2}"#;

// The same with batches of one record, of which three may be pending.
const OF_ONE: &str = r#"{"version":1,
 "spout":{"name":"words","kind":"opaque","fields":["word"],"batch":1},
 "bolts":[],
 "states":[{"name":"counts","kind":"opaque","parts":1,"key":["word"],
   "fold":"count","inputs":["words"]}],
 "ackers":1,"pending":3,"buckets":3,"attempts":2}"#;

// Four records in two partitions.
const FOUR: Start = Start {
    records: 4,
    partitions: 2,
    txid: 0,
    gone: &[],
};

// Three records in two partitions.
const THREE: Start = Start {
    records: 3,
    partitions: 2,
    txid: 0,
    gone: &[],
};

// The first turn where all is open.
const FIRST: Step = Step {
    call: Call::Turn(Told::Nothing, 0),
    begun: &[ROOT_1_1, ROOT_2_1],
    commit: None,
    ended: &[],
    stop: None,
};

// The same of three that may be pending.
const FIRST_THREE: Step = Step {
    call: Call::Turn(Told::Nothing, 0),
    begun: &[ROOT_1_1, ROOT_2_1, ROOT_3_1],
    commit: None,
    ended: &[],
    stop: None,
};

// Nothing is offered where both partitions are shut. Where the second is, a batch has the records
// of the first, and those of the second are the next batch once it is open.
const SHUT: [Step; 8] = [
    Step {
        call: Call::Shut(3),
        begun: &[],
        commit: None,
        ended: &[],
        stop: None,
    },
    Step {
        call: Call::Shut(2),
        begun: &[ROOT_1_1],
        commit: None,
        ended: &[],
        stop: None,
    },
    Step {
        call: Call::Shut(3),
        begun: &[],
        commit: None,
        ended: &[],
        stop: None,
    },
    Step {
        call: Call::Shut(0),
        begun: &[ROOT_2_1],
        commit: None,
        ended: &[],
        stop: None,
    },
    Step {
        call: Call::Turn(Told::Closed(ROOT_1_1), 0),
        begun: &[],
        commit: Some(ROOT_1_1),
        ended: &[],
        stop: None,
    },
    Step {
        call: Call::Done,
        begun: &[],
        commit: None,
        ended: &[Ended {
            root: ROOT_1_1,
            records: RECORDS_1_AND_3,
            start: 0,
            finish: 0,
            how: How::Committed,
        }],
        stop: None,
    },
    Step {
        call: Call::Turn(Told::Closed(ROOT_2_1), 0),
        begun: &[],
        commit: Some(ROOT_2_1),
        ended: &[],
        stop: None,
    },
    Step {
        call: Call::Done,
        begun: &[],
        commit: None,
        ended: &[Ended {
            root: ROOT_2_1,
            records: RECORDS_2_AND_4,
            start: 0,
            finish: 0,
            how: How::Committed,
        }],
        stop: None,
    },
];

#[test]
fn what_is_shut_is_not_offered(rt: HostRuntime) -> Result<(), Mismatch> {
    check_steps(rt.alloc(), OF_TWO, FOUR, &SHUT, 2, true)
}

// An attempt that fails drops the pending one of the higher transaction at the same tick. The
// records of both are offered again, and now that all is open the batches have others.
const FAILED_ATTEMPT: [Step; 7] = [
    Step {
        call: Call::Shut(2),
        begun: &[ROOT_1_1],
        commit: None,
        ended: &[],
        stop: None,
    },
    Step {
        call: Call::Shut(0),
        begun: &[ROOT_2_1],
        commit: None,
        ended: &[],
        stop: None,
    },
    Step {
        call: Call::Turn(Told::Fails(ROOT_1_1), 0),
        begun: &[ROOT_1_2, ROOT_2_2],
        commit: None,
        ended: &[
            Ended {
                root: ROOT_1_1,
                records: RECORDS_1_AND_3,
                start: 0,
                finish: 0,
                how: How::Failed,
            },
            Ended {
                root: ROOT_2_1,
                records: RECORDS_2_AND_4,
                start: 0,
                finish: 0,
                how: How::Dropped(ROOT_1_1),
            },
        ],
        stop: None,
    },
    Step {
        call: Call::Turn(Told::Closed(ROOT_1_2), 0),
        begun: &[],
        commit: Some(ROOT_1_2),
        ended: &[],
        stop: None,
    },
    Step {
        call: Call::Done,
        begun: &[],
        commit: None,
        ended: &[Ended {
            root: ROOT_1_2,
            records: RECORDS_1_2,
            start: 0,
            finish: 0,
            how: How::Committed,
        }],
        stop: None,
    },
    Step {
        call: Call::Turn(Told::Closed(ROOT_2_2), 0),
        begun: &[],
        commit: Some(ROOT_2_2),
        ended: &[],
        stop: None,
    },
    Step {
        call: Call::Done,
        begun: &[],
        commit: None,
        ended: &[Ended {
            root: ROOT_2_2,
            records: RECORDS_3_4,
            start: 0,
            finish: 0,
            how: How::Committed,
        }],
        stop: None,
    },
];

#[test]
fn a_failed_attempt_drops_the_higher_one(rt: HostRuntime) -> Result<(), Mismatch> {
    check_steps(rt.alloc(), OF_TWO, FOUR, &FAILED_ATTEMPT, 2, true)
}

// One that fails drops none of a lower transaction, and has its own records again.
const HIGHER_FAILS: [Step; 6] = [
    FIRST,
    Step {
        call: Call::Turn(Told::Fails(ROOT_2_1), 0),
        begun: &[ROOT_2_2],
        commit: None,
        ended: &[Ended {
            root: ROOT_2_1,
            records: RECORDS_3_4,
            start: 0,
            finish: 0,
            how: How::Failed,
        }],
        stop: None,
    },
    Step {
        call: Call::Turn(Told::Closed(ROOT_1_1), 0),
        begun: &[],
        commit: Some(ROOT_1_1),
        ended: &[],
        stop: None,
    },
    Step {
        call: Call::Done,
        begun: &[],
        commit: None,
        ended: &[Ended {
            root: ROOT_1_1,
            records: RECORDS_1_2,
            start: 0,
            finish: 0,
            how: How::Committed,
        }],
        stop: None,
    },
    Step {
        call: Call::Turn(Told::Closed(ROOT_2_2), 0),
        begun: &[],
        commit: Some(ROOT_2_2),
        ended: &[],
        stop: None,
    },
    Step {
        call: Call::Done,
        begun: &[],
        commit: None,
        ended: &[Ended {
            root: ROOT_2_2,
            records: RECORDS_3_4,
            start: 0,
            finish: 0,
            how: How::Committed,
        }],
        stop: None,
    },
];

#[test]
fn a_lower_attempt_is_not_dropped(rt: HostRuntime) -> Result<(), Mismatch> {
    check_steps(rt.alloc(), OF_TWO, FOUR, &HIGHER_FAILS, 2, true)
}

// Two roots end at one tick, both as timed out. The third is settled, and is dropped with the
// first.
const TIMED_OUT: [Step; 3] = [
    FIRST_THREE,
    Step {
        call: Call::Turn(Told::Closed(ROOT_3_1), 2),
        begun: &[],
        commit: None,
        ended: &[],
        stop: None,
    },
    Step {
        call: Call::Turn(Told::Nothing, 1),
        begun: &[ROOT_1_2, ROOT_2_2, ROOT_3_2],
        commit: None,
        ended: &[
            Ended {
                root: ROOT_1_1,
                records: RECORD_1,
                start: 0,
                finish: 3,
                how: How::TimedOut,
            },
            Ended {
                root: ROOT_2_1,
                records: RECORD_2,
                start: 0,
                finish: 3,
                how: How::TimedOut,
            },
            Ended {
                root: ROOT_3_1,
                records: RECORD_3,
                start: 0,
                finish: 3,
                how: How::Dropped(ROOT_1_1),
            },
        ],
        stop: None,
    },
];

#[test]
fn what_times_out_is_not_dropped(rt: HostRuntime) -> Result<(), Mismatch> {
    check_steps(rt.alloc(), OF_ONE, THREE, &TIMED_OUT, 0, false)
}

// A commit that failed drops the higher attempt, and both begin again in the next turn.
const FAILED_COMMIT: [Step; 4] = [
    FIRST,
    Step {
        call: Call::Turn(Told::Closed(ROOT_1_1), 2),
        begun: &[],
        commit: Some(ROOT_1_1),
        ended: &[],
        stop: None,
    },
    Step {
        call: Call::CommitFails,
        begun: &[],
        commit: None,
        ended: &[
            Ended {
                root: ROOT_1_1,
                records: RECORDS_1_2,
                start: 0,
                finish: 2,
                how: How::CommitFailed,
            },
            Ended {
                root: ROOT_2_1,
                records: RECORDS_3_4,
                start: 0,
                finish: 2,
                how: How::Dropped(ROOT_1_1),
            },
        ],
        stop: None,
    },
    Step {
        call: Call::Turn(Told::Nothing, 0),
        begun: &[ROOT_1_2, ROOT_2_2],
        commit: None,
        ended: &[],
        stop: None,
    },
];

#[test]
fn a_failed_commit_drops_the_higher_one(rt: HostRuntime) -> Result<(), Mismatch> {
    check_steps(rt.alloc(), OF_TWO, FOUR, &FAILED_COMMIT, 0, false)
}

// A list that leaves an edge open drops the higher attempt, a settled one too.
const COINCIDED: [Step; 3] = [
    FIRST,
    Step {
        call: Call::Turn(Told::Closed(ROOT_2_1), 0),
        begun: &[],
        commit: None,
        ended: &[],
        stop: None,
    },
    Step {
        call: Call::Turn(Told::Open(ROOT_1_1), 0),
        begun: &[ROOT_1_2, ROOT_2_2],
        commit: None,
        ended: &[
            Ended {
                root: ROOT_1_1,
                records: RECORDS_1_2,
                start: 0,
                finish: 0,
                how: How::Coincided,
            },
            Ended {
                root: ROOT_2_1,
                records: RECORDS_3_4,
                start: 0,
                finish: 0,
                how: How::Dropped(ROOT_1_1),
            },
        ],
        stop: None,
    },
];

#[test]
fn a_coincided_attempt_drops_the_higher_one(rt: HostRuntime) -> Result<(), Mismatch> {
    check_steps(rt.alloc(), OF_TWO, FOUR, &COINCIDED, 0, false)
}

// Attempts that abort count, and one that is dropped does not: of the second transaction three
// begin, and the coordinator stops once two have failed.
const RUN_OUT: [Step; 5] = [
    FIRST,
    Step {
        call: Call::Turn(Told::Fails(ROOT_1_1), 0),
        begun: &[ROOT_1_2, ROOT_2_2],
        commit: None,
        ended: &[
            Ended {
                root: ROOT_1_1,
                records: RECORDS_1_2,
                start: 0,
                finish: 0,
                how: How::Failed,
            },
            Ended {
                root: ROOT_2_1,
                records: RECORDS_3_4,
                start: 0,
                finish: 0,
                how: How::Dropped(ROOT_1_1),
            },
        ],
        stop: None,
    },
    Step {
        call: Call::Turn(Told::Fails(ROOT_2_2), 0),
        begun: &[ROOT_2_3],
        commit: None,
        ended: &[Ended {
            root: ROOT_2_2,
            records: RECORDS_3_4,
            start: 0,
            finish: 0,
            how: How::Failed,
        }],
        stop: None,
    },
    Step {
        call: Call::Turn(Told::Fails(ROOT_2_3), 0),
        begun: &[],
        commit: None,
        ended: &[Ended {
            root: ROOT_2_3,
            records: RECORDS_3_4,
            start: 0,
            finish: 0,
            how: How::Failed,
        }],
        stop: Some(2),
    },
    Step {
        call: Call::Turn(Told::Nothing, 0),
        begun: &[],
        commit: None,
        ended: &[],
        stop: Some(2),
    },
];

#[test]
fn dropped_attempts_do_not_run_out(rt: HostRuntime) -> Result<(), Mismatch> {
    check_steps(rt.alloc(), OF_TWO, FOUR, &RUN_OUT, 0, false)
}
