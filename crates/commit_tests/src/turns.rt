// Turns of the coordinator by hand, from the rule of each step.
use crate::scenes::{Call, Ended, How, Start, Step, Told, check_steps};
use crate::values::{RECORD_1, RECORD_2, ROOT_1_1, ROOT_1_2, ROOT_2_1, ROOT_2_2, ROOT_3_1};
use test_kit::Mismatch;

// Two attempts may be pending, buckets are 3, and a batch has two attempts and one record.
const TWO_PENDING: &str = r#"{"version":1,
 "spout":{"name":"words","kind":"transactional","fields":["word"],"batch":1},
 "bolts":[],
 "states":[{"name":"counts","kind":"transactional","parts":1,"key":["word"],
   "fold":"count","inputs":["words"]}],
 "ackers":1,"pending":2,"buckets":3,"attempts":2}"#;

// One attempt may be pending, and a batch has one attempt.
const ONE_PENDING: &str = r#"{"version":1,
 "spout":{"name":"words","kind":"transactional","fields":["word"],"batch":1},
 "bolts":[],
 "states":[{"name":"counts","kind":"transactional","parts":1,"key":["word"],
   "fold":"count","inputs":["words"]}],
 "ackers":1,"pending":1,"buckets":3,"attempts":1}"#;

// So many records, without partitions.
fn from_first(records: usize) -> Start {
    Start {
        records,
        partitions: 0,
        txid: 0,
        gone: &[],
    }
}

// The first turn of two that may be pending.
const FIRST: Step = Step {
    call: Call::Turn(Told::Nothing, 0),
    begun: &[ROOT_1_1, ROOT_2_1],
    commit: None,
    ended: &[],
    stop: None,
};

// The second batch completes first. Commits come in the order of transactions, one a turn.
const IN_ORDER: [Step; 6] = [
    FIRST,
    Step {
        call: Call::Turn(Told::Closed(ROOT_2_1), 0),
        begun: &[],
        commit: None,
        ended: &[],
        stop: None,
    },
    Step {
        call: Call::Turn(Told::Closed(ROOT_1_1), 0),
        begun: &[],
        commit: Some(ROOT_1_1),
        ended: &[],
        stop: None,
    },
    Step {
        call: Call::Done,
        begun: &[],
        commit: None,
        ended: &[Ended {
            root: ROOT_1_1,
            records: RECORD_1,
            start: 0,
            finish: 0,
            how: How::Committed,
        }],
        stop: None,
    },
    Step {
        call: Call::Turn(Told::Nothing, 0),
        begun: &[ROOT_3_1],
        commit: Some(ROOT_2_1),
        ended: &[],
        stop: None,
    },
    Step {
        call: Call::Done,
        begun: &[],
        commit: None,
        ended: &[Ended {
            root: ROOT_2_1,
            records: RECORD_2,
            start: 0,
            finish: 0,
            how: How::Committed,
        }],
        stop: None,
    },
];

#[test]
fn commits_come_in_order_one_a_turn(rt: HostRuntime) -> Result<(), Mismatch> {
    check_steps(rt.alloc(), TWO_PENDING, from_first(3), &IN_ORDER, 2, false)
}

// A failed attempt ends, and the next one begins in the same turn. A later complete verdict of the
// one that ended changes nothing.
const FAILED_ATTEMPT: [Step; 3] = [
    FIRST,
    Step {
        call: Call::Turn(Told::Fails(ROOT_1_1), 0),
        begun: &[ROOT_1_2],
        commit: None,
        ended: &[Ended {
            root: ROOT_1_1,
            records: RECORD_1,
            start: 0,
            finish: 0,
            how: How::Failed,
        }],
        stop: None,
    },
    Step {
        call: Call::Turn(Told::Closed(ROOT_1_1), 0),
        begun: &[],
        commit: None,
        ended: &[],
        stop: None,
    },
];

#[test]
fn a_failed_attempt_begins_again(rt: HostRuntime) -> Result<(), Mismatch> {
    check_steps(
        rt.alloc(),
        TWO_PENDING,
        from_first(2),
        &FAILED_ATTEMPT,
        0,
        false,
    )
}

// A list that leaves an edge open ends the attempt, and the next one begins in the same turn.
const COINCIDED_ATTEMPT: [Step; 2] = [
    FIRST,
    Step {
        call: Call::Turn(Told::Open(ROOT_2_1), 0),
        begun: &[ROOT_2_2],
        commit: None,
        ended: &[Ended {
            root: ROOT_2_1,
            records: RECORD_2,
            start: 0,
            finish: 0,
            how: How::Coincided,
        }],
        stop: None,
    },
];

#[test]
fn a_coincided_attempt_begins_again_in_the_same_turn(rt: HostRuntime) -> Result<(), Mismatch> {
    check_steps(
        rt.alloc(),
        TWO_PENDING,
        from_first(2),
        &COINCIDED_ATTEMPT,
        0,
        false,
    )
}

// After a commit that failed the next attempt begins in the next turn.
const FAILED_COMMIT: [Step; 4] = [
    FIRST,
    Step {
        call: Call::Turn(Told::Closed(ROOT_1_1), 0),
        begun: &[],
        commit: Some(ROOT_1_1),
        ended: &[],
        stop: None,
    },
    Step {
        call: Call::CommitFails,
        begun: &[],
        commit: None,
        ended: &[Ended {
            root: ROOT_1_1,
            records: RECORD_1,
            start: 0,
            finish: 0,
            how: How::CommitFailed,
        }],
        stop: None,
    },
    Step {
        call: Call::Turn(Told::Nothing, 0),
        begun: &[ROOT_1_2],
        commit: None,
        ended: &[],
        stop: None,
    },
];

#[test]
fn a_failed_commit_begins_again_in_the_next_turn(rt: HostRuntime) -> Result<(), Mismatch> {
    check_steps(
        rt.alloc(),
        TWO_PENDING,
        from_first(2),
        &FAILED_COMMIT,
        0,
        false,
    )
}

// Attempts end at the third tick after their begin; a settled one is not timed.
const TIMED_OUT: [Step; 3] = [
    FIRST,
    Step {
        call: Call::Turn(Told::Closed(ROOT_2_1), 2),
        begun: &[],
        commit: None,
        ended: &[],
        stop: None,
    },
    Step {
        call: Call::Turn(Told::Nothing, 1),
        begun: &[ROOT_1_2],
        commit: None,
        ended: &[Ended {
            root: ROOT_1_1,
            records: RECORD_1,
            start: 0,
            finish: 3,
            how: How::TimedOut,
        }],
        stop: None,
    },
];

#[test]
fn attempts_time_out_at_their_last_tick(rt: HostRuntime) -> Result<(), Mismatch> {
    check_steps(rt.alloc(), TWO_PENDING, from_first(2), &TIMED_OUT, 0, false)
}

// The attempts run out at a verdict, and the same stop is answered again.
const OUT_AT_A_VERDICT: [Step; 3] = [
    Step {
        call: Call::Turn(Told::Nothing, 0),
        begun: &[ROOT_1_1],
        commit: None,
        ended: &[],
        stop: None,
    },
    Step {
        call: Call::Turn(Told::Fails(ROOT_1_1), 5),
        begun: &[],
        commit: None,
        ended: &[Ended {
            root: ROOT_1_1,
            records: RECORD_1,
            start: 0,
            finish: 0,
            how: How::Failed,
        }],
        stop: Some(1),
    },
    Step {
        call: Call::Turn(Told::Nothing, 5),
        begun: &[],
        commit: None,
        ended: &[],
        stop: Some(1),
    },
];

#[test]
fn attempts_run_out_at_a_verdict(rt: HostRuntime) -> Result<(), Mismatch> {
    check_steps(
        rt.alloc(),
        ONE_PENDING,
        from_first(2),
        &OUT_AT_A_VERDICT,
        0,
        false,
    )
}

// Two roots end at one tick, and the attempts of both have run out. Both ends are told, the stop is
// of the first, and no further tick passes.
const OUT_AT_A_TICK: [Step; 3] = [
    FIRST,
    Step {
        call: Call::Turn(Told::Nothing, 3),
        begun: &[ROOT_1_2, ROOT_2_2],
        commit: None,
        ended: &[
            Ended {
                root: ROOT_1_1,
                records: RECORD_1,
                start: 0,
                finish: 3,
                how: How::TimedOut,
            },
            Ended {
                root: ROOT_2_1,
                records: RECORD_2,
                start: 0,
                finish: 3,
                how: How::TimedOut,
            },
        ],
        stop: None,
    },
    Step {
        call: Call::Turn(Told::Nothing, 9),
        begun: &[],
        commit: None,
        ended: &[
            Ended {
                root: ROOT_1_2,
                records: RECORD_1,
                start: 3,
                finish: 6,
                how: How::TimedOut,
            },
            Ended {
                root: ROOT_2_2,
                records: RECORD_2,
                start: 3,
                finish: 6,
                how: How::TimedOut,
            },
        ],
        stop: Some(1),
    },
];

#[test]
fn attempts_run_out_at_a_tick(rt: HostRuntime) -> Result<(), Mismatch> {
    check_steps(
        rt.alloc(),
        TWO_PENDING,
        from_first(2),
        &OUT_AT_A_TICK,
        0,
        false,
    )
}

// A verdict of a root that never began, and a second one of a root that is settled, change nothing.
const OTHER_ROOTS: [Step; 4] = [
    FIRST,
    Step {
        call: Call::Turn(Told::Closed(ROOT_2_1), 0),
        begun: &[],
        commit: None,
        ended: &[],
        stop: None,
    },
    Step {
        call: Call::Turn(Told::Fails(ROOT_2_1), 0),
        begun: &[],
        commit: None,
        ended: &[],
        stop: None,
    },
    Step {
        call: Call::Turn(Told::Fails(ROOT_3_1), 0),
        begun: &[],
        commit: None,
        ended: &[],
        stop: None,
    },
];

#[test]
fn verdicts_of_other_roots_change_nothing(rt: HostRuntime) -> Result<(), Mismatch> {
    check_steps(
        rt.alloc(),
        TWO_PENDING,
        from_first(3),
        &OTHER_ROOTS,
        0,
        false,
    )
}
