// Reports of given schedules where nothing outside fails.
use sample_operations::Backwards;
use sample_topologies::{
    COPIES_TO_ALL, COUNTED_SENTENCES, FAILS_ALWAYS, FAILS_TWICE, LAST_VALUE, MUTE_ALWAYS,
    MUTE_ONCE, SENTENCES, SIDE_BY_SIDE, SMALL_WORD_COUNT, STEADY, TURNED, WORD_COUNT,
};
use std::alloc::Global;
use std::sync::Wait;
use std::thread::Threads;
use storm_ids::ChaChaMaker;
use storm_stores::MemMaker;
use storm_test_kit::storm_program::{Fates, Status, storm_replay};
use storm_test_kit::{
    CALM, Outside, Script, call, check_call, check_tables, plain_of, replay_of, shelf, sink, taken,
};
use test_kit::{Mismatch, compare};

const RECORD: &str = "[\"a\"]";

const COMMITTED: &str = "attempt 1.1 records 1-1 ticks 0-0 committed
cell counts [\"a\"] 1
ok 1 records 1 batches
";

// The root of the second batch completes first, at the other acker.
const SECOND_FIRST: &str = "coord
coord
coord
coord
coord
task 0
task 0
task 0
task 0
acker 0
acker 0
acker 0
coord
acker 1
acker 1
acker 1
coord
coord
";

// Topologies, inputs, schedules, and what a replay ends with and writes.
const REPORTS: [(&str, &str, &str, u8, &str); 14] = [
    (WORD_COUNT, SENTENCES, "rounds 1000", 0, COUNTED_SENTENCES),
    (WORD_COUNT, "", "", 0, "ok 0 records 0 batches\n"),
    (
        WORD_COUNT,
        "",
        "rounds 3\ntick\n",
        0,
        "ok 0 records 0 batches\n",
    ),
    // the sentence has no word, so its tuple has no children
    (
        WORD_COUNT,
        "[\"\"]",
        "rounds 1000",
        0,
        "attempt 1.1 records 1-1 ticks 0-0 committed
ok 1 records 1 batches
",
    ),
    (WORD_COUNT, RECORD, "", 8, "unfinished 0\n"),
    // in the seventh round the coordinator takes its acker's verdict
    (WORD_COUNT, RECORD, "rounds 00000005", 8, "unfinished 0\n"),
    (
        WORD_COUNT,
        RECORD,
        "rounds 00000005\nrounds 00000005\n",
        0,
        COMMITTED,
    ),
    // the events that are left are not looked at
    (
        WORD_COUNT,
        RECORD,
        "rounds 10000000\ntick\ntick\ntick\nrounds 10000000\n",
        0,
        COMMITTED,
    ),
    (
        COPIES_TO_ALL,
        "[\"a b\"]",
        "rounds 1000",
        0,
        "attempt 1.1 records 1-1 ticks 0-0 committed
cell counts [\"a\"] 3
cell counts [\"b\"] 3
ok 1 records 1 batches
",
    ),
    (
        SIDE_BY_SIDE,
        "[\"a\"]\n[\"b\"]\n",
        "rounds 1000",
        0,
        "attempt 1.1 records 1-2 ticks 0-0 committed
cell counts [\"a\"] 1
cell counts [\"b\"] 1
ok 2 records 1 batches
",
    ),
    (
        TURNED,
        "[7,\"x\"]",
        "rounds 1000",
        0,
        "attempt 1.1 records 1-1 ticks 0-0 committed
cell last [\"x\"] 7
ok 1 records 1 batches
",
    ),
    (
        LAST_VALUE,
        "[\"x\",1]\n[\"x\",2]\n",
        SECOND_FIRST,
        0,
        "attempt 1.1 records 1-1 ticks 0-0 committed
attempt 2.1 records 2-2 ticks 0-0 committed
cell last [\"x\"] 2
ok 2 records 2 batches
",
    ),
    (
        FAILS_TWICE,
        RECORD,
        "rounds 200",
        0,
        "attempt 1.1 records 1-1 ticks 0-0 failed 0
attempt 1.2 records 1-1 ticks 0-0 failed 0
attempt 1.3 records 1-1 ticks 0-0 committed
cell counts [\"a\"] 1
ok 1 records 1 batches
",
    ),
    (
        FAILS_ALWAYS,
        RECORD,
        "rounds 400",
        7,
        "attempt 1.1 records 1-1 ticks 0-0 failed 0
attempt 1.2 records 1-1 ticks 0-0 failed 0
attempt 1.3 records 1-1 ticks 0-0 failed 0
attempt 1.4 records 1-1 ticks 0-0 failed 0
exhausted 1
",
    ),
];

#[test]
fn reports_of_schedules(rt: HostRuntime) -> Result<(), Mismatch> {
    for (topology, input, schedule, code, want) in REPORTS {
        let scene = replay_of(topology, input, schedule);
        check_call(&rt, rt.alloc(), scene, CALM, code, want)?;
    }
    Ok(())
}

// ---- ticks

const TIMED_OUT_ONCE: &str = "attempt 1.1 records 1-1 ticks 0-3 timed out
attempt 1.2 records 1-1 ticks 3-3 committed
cell counts [\"a\"] 1
ok 1 records 1 batches
";

// Each attempt begins at the tick at which the last one ended.
const ALL_TIMED_OUT: &str = "attempt 1.1 records 1-1 ticks 0-3 timed out
attempt 1.2 records 1-1 ticks 3-6 timed out
attempt 1.3 records 1-1 ticks 6-9 timed out
attempt 1.4 records 1-1 ticks 9-12 timed out
exhausted 1
";

const FOUR_TIMES_THREE_TICKS: &str = "rounds 20
tick
tick
tick
rounds 20
tick
tick
tick
rounds 20
tick
tick
tick
rounds 20
tick
tick
tick
rounds 20
";

// Topologies, schedules, and what a replay over the record ends with and writes.
const TICKS: [(&str, &str, u8, &str); 6] = [
    (
        MUTE_ONCE,
        "rounds 20\ntick\ntick\ntick\nrounds 40\n",
        0,
        TIMED_OUT_ONCE,
    ),
    (
        MUTE_ONCE,
        "rounds 20\ntick\ntick\nrounds 40\n",
        8,
        "unfinished 0\n",
    ),
    (
        MUTE_ONCE,
        "rounds 20\ntick\nrounds 20\ntick\nrounds 20\ntick\nrounds 40\n",
        0,
        TIMED_OUT_ONCE,
    ),
    // no step of the coordinator comes after the third tick
    (
        MUTE_ONCE,
        "rounds 20\ntick\ntick\ntick\n",
        8,
        "unfinished 0\n",
    ),
    // the attempts that ended are told of a replay that is not finished too
    (
        MUTE_ONCE,
        "rounds 20\ntick\ntick\ntick\ncoord\n",
        8,
        "attempt 1.1 records 1-1 ticks 0-3 timed out
unfinished 0
",
    ),
    (MUTE_ALWAYS, FOUR_TIMES_THREE_TICKS, 7, ALL_TIMED_OUT),
];

#[test]
fn mute_attempts_end_by_ticks(rt: HostRuntime) -> Result<(), Mismatch> {
    for (topology, schedule, code, want) in TICKS {
        let scene = replay_of(topology, RECORD, schedule);
        check_call(&rt, rt.alloc(), scene, CALM, code, want)?;
    }
    Ok(())
}

// ---- ids that coincide

// The task is the source 0, the part 1 and the coordinator 2. The first word of a source is where
// its shuffle begins. The two children of the first attempt have the id 9, those of the second 7
// and 8.
const TWO_OF_ONE_ID: Script = [&[0, 9, 9, 7, 8], &[], &[0, 5, 6]];

const ALL_ZERO: Script = [&[], &[], &[0, 0, 0, 0, 0]];

// The acker meets the root's `Done` before those of its children, and the ids 9 cancel.
const ROOT_FIRST: &str = "coord
coord
coord
task 0
task 0
task 0
task 0
acker 0
acker 0
rounds 200
";

const COINCIDED_ONCE: &str = "attempt 1.1 records 1-1 ticks 0-0 coincided \
    0.0:0000000000000009 0.1:0000000000000009
attempt 1.2 records 1-1 ticks 0-0 committed
cell counts [\"x\"] 1
cell counts [\"y\"] 1
ok 1 records 1 batches
";

const NOT_COINCIDED: &str = "attempt 1.1 records 1-1 ticks 0-0 committed
cell counts [\"x\"] 1
cell counts [\"y\"] 1
ok 1 records 1 batches
";

// The root's tuple has the id 0, so that its init alone lets the acker tell it as complete.
const ALL_COINCIDE: &str = "\
attempt 1.1 records 1-1 ticks 0-0 coincided 0:0000000000000000
attempt 1.2 records 1-1 ticks 0-0 coincided 0:0000000000000000
attempt 1.3 records 1-1 ticks 0-0 coincided 0:0000000000000000
attempt 1.4 records 1-1 ticks 0-0 coincided 0:0000000000000000
exhausted 1
";

const TWO_WORDS: &str = "[\"x y\"]";

// Topologies, inputs, ids, schedules, and what a replay ends with and writes.
const COINCIDENCES: [(&str, &str, Script, &str, u8, &str); 4] = [
    (
        SMALL_WORD_COUNT,
        TWO_WORDS,
        TWO_OF_ONE_ID,
        ROOT_FIRST,
        0,
        COINCIDED_ONCE,
    ),
    // by rounds the acker meets a child's `Done` before the root's
    (
        SMALL_WORD_COUNT,
        TWO_WORDS,
        TWO_OF_ONE_ID,
        "rounds 200",
        0,
        NOT_COINCIDED,
    ),
    (
        SMALL_WORD_COUNT,
        TWO_WORDS,
        ALL_ZERO,
        "rounds 400",
        7,
        ALL_COINCIDE,
    ),
    (STEADY, RECORD, ALL_ZERO, "rounds 400", 7, ALL_COINCIDE),
];

#[test]
fn ids_coincide(rt: HostRuntime) -> Result<(), Mismatch> {
    for (topology, input, script, schedule, code, want) in COINCIDENCES {
        let outside = Outside {
            words: Some(&script),
            ..CALM
        };
        let scene = replay_of(topology, input, schedule);
        check_call(&rt, rt.alloc(), scene, outside, code, want)?;
    }
    Ok(())
}

// ---- beside `plain`

// Replays a schedule that commits every batch, and compares the tables with those of `plain`.
fn check_beside_plain<R: Threads + Wait + Sync>(
    rt: &R,
    alloc: Global,
    topology: &str,
    input: &str,
    schedule: &str,
    outside: Outside<'_>,
) -> Result<(), Mismatch> {
    let plain = call(rt, alloc, plain_of(topology, input), CALM)?;
    let scene = replay_of(topology, input, schedule);
    check_tables(rt, alloc, scene, outside, plain.text.as_str())
}

// Topologies, inputs and schedules that commit every batch.
const WHOLE: [(&str, &str, &str); 9] = [
    (WORD_COUNT, SENTENCES, "rounds 1000"),
    (WORD_COUNT, "[\"\"]", "rounds 1000"),
    (COPIES_TO_ALL, "[\"a b\"]", "rounds 1000"),
    (SIDE_BY_SIDE, "[\"a\"]\n[\"b\"]\n", "rounds 1000"),
    (SMALL_WORD_COUNT, "[\"x y\"]", "rounds 200"),
    (LAST_VALUE, "[\"x\",1]\n[\"x\",2]\n", SECOND_FIRST),
    (FAILS_TWICE, RECORD, "rounds 200"),
    (MUTE_ALWAYS, "", ""),
    (
        MUTE_ONCE,
        RECORD,
        "rounds 20\ntick\ntick\ntick\nrounds 40\n",
    ),
];

#[test]
fn tables_are_the_plain_ones(rt: HostRuntime) -> Result<(), Mismatch> {
    for (topology, input, schedule) in WHOLE {
        check_beside_plain(&rt, rt.alloc(), topology, input, schedule, CALM)?;
    }
    Ok(())
}

#[test]
fn tables_after_a_coincidence_are_the_plain_ones(rt: HostRuntime) -> Result<(), Mismatch> {
    let outside = Outside {
        words: Some(&TWO_OF_ONE_ID),
        ..CALM
    };
    let input = "[\"x y\"]";
    check_beside_plain(
        &rt,
        rt.alloc(),
        SMALL_WORD_COUNT,
        input,
        ROOT_FIRST,
        outside,
    )
}

// ---- without words

#[test]
fn a_replay_without_words(rt: HostRuntime) -> Result<(), Mismatch> {
    let alloc = rt.alloc();
    let mut shelf = shelf(alloc, replay_of(STEADY, RECORD, "rounds 200"), CALM)?;
    let mut sink = sink(alloc, CALM)?;
    let mut stores = MemMaker::new(alloc);
    let mut fates = Fates::new(alloc);
    let status = storm_replay(
        alloc,
        "t",
        "i",
        "s",
        &mut shelf,
        &mut sink,
        &mut stores,
        &mut ChaChaMaker { key: [0; 32] },
        &Backwards,
        &mut fates,
    );
    assert!(rt; status == Status::Done);
    assert!(rt; fates.as_slice().len() == 1);
    let text = taken(alloc, &sink)?;
    compare(alloc, "a replay", text.as_str(), COMMITTED)
}
