// A schedule that is cut short, or without one byte.
use crate::pieces::{front, without};
use sample_topologies::WORD_COUNT;
use storm_test_kit::{CALM, check_call, replay_of};
use test_kit::Mismatch;

const RECORD: &str = "[\"a\"]";

const SCHEDULE: &str = "coord\ntask 3\nacker 1\ntick\nrounds 200\n";

const UNFINISHED: &str = "unfinished 0\n";

// The attempt begins at the first step, and ends after the tick.
const COMMITTED: &str = "attempt 1.1 records 1-1 ticks 0-1 committed
cell counts [\"a\"] 1
ok 1 records 1 batches
";

/// The first and the last length or place, the status, and the text.
type Range = (usize, usize, u8, &'static str);

// Two rounds do not commit the record, and twenty do.
const CUT: [Range; 11] = [
    (0, 0, 8, UNFINISHED),
    (1, 4, 9, "schedule: line 1: not a step\n"),
    (5, 6, 8, UNFINISHED),
    (7, 11, 9, "schedule: line 2: not a step\n"),
    (12, 13, 8, UNFINISHED),
    (14, 19, 9, "schedule: line 3: not a step\n"),
    (20, 21, 8, UNFINISHED),
    (22, 24, 9, "schedule: line 4: not a step\n"),
    (25, 26, 8, UNFINISHED),
    (27, 33, 9, "schedule: line 5: not a step\n"),
    (34, 34, 8, UNFINISHED),
];

#[test]
fn a_schedule_is_cut_short(rt: HostRuntime) -> Result<(), Mismatch> {
    for (first, last, code, text) in CUT {
        for len in first..=last {
            let scene = replay_of(WORD_COUNT, RECORD, front(SCHEDULE, len));
            check_call(&rt, rt.alloc(), scene, CALM, code, text)?;
        }
    }
    for len in 35..38 {
        let scene = replay_of(WORD_COUNT, RECORD, front(SCHEDULE, len));
        check_call(&rt, rt.alloc(), scene, CALM, 0, COMMITTED)?;
    }
    Ok(())
}

// Without the byte between them two lines are one, which is no step. A number may have zeros in
// front, and so there is a line of no rounds.
const LEFT_OUT: [Range; 7] = [
    (0, 5, 9, "schedule: line 1: not a step\n"),
    (6, 12, 9, "schedule: line 2: not a step\n"),
    (13, 20, 9, "schedule: line 3: not a step\n"),
    (21, 25, 9, "schedule: line 4: not a step\n"),
    (26, 32, 9, "schedule: line 5: not a step\n"),
    (33, 33, 8, UNFINISHED),
    (34, 36, 0, COMMITTED),
];

#[test]
fn a_byte_of_a_schedule_is_left_out(rt: HostRuntime) -> Result<(), Mismatch> {
    let alloc = rt.alloc();
    for (first, last, code, text) in LEFT_OUT {
        for place in first..=last {
            let schedule = without(alloc, SCHEDULE, place)?;
            let scene = replay_of(WORD_COUNT, RECORD, schedule.as_str());
            check_call(&rt, alloc, scene, CALM, code, text)?;
        }
    }
    Ok(())
}
