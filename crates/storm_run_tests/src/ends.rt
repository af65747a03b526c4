// Runs whose attempts fail, time out or coincide, by the texts of their reports.
use sample_topologies::{
    FAILS_ALWAYS, FAILS_TWICE, LAST_VALUE, MUTE_ALWAYS, MUTE_ONCE, SMALL_WORD_COUNT, STEADY,
    one_bolt,
};
use storm_test_kit::{
    CALM, Outside, Script, check_call, check_refusal, run_alone, run_of, ticks_every,
};
use test_kit::Mismatch;

const RECORD: &str = "[\"a\"]";

const COMMITTED: &str = "attempt 1.1 records 1-1 ticks 0-0 committed
cell counts [\"a\"] 1
ok 1 records 1 batches
";

// Topologies, ticks, and what a run over the record ends with and writes.
const ENDS: [(&str, &[u32], u8, &str); 6] = [
    (STEADY, &[], 0, COMMITTED),
    (
        FAILS_TWICE,
        &[],
        0,
        "attempt 1.1 records 1-1 ticks 0-0 failed 0
attempt 1.2 records 1-1 ticks 0-0 failed 0
attempt 1.3 records 1-1 ticks 0-0 committed
cell counts [\"a\"] 1
ok 1 records 1 batches
",
    ),
    (
        FAILS_ALWAYS,
        &[],
        7,
        "attempt 1.1 records 1-1 ticks 0-0 failed 0
attempt 1.2 records 1-1 ticks 0-0 failed 0
attempt 1.3 records 1-1 ticks 0-0 failed 0
attempt 1.4 records 1-1 ticks 0-0 failed 0
exhausted 1
",
    ),
    (
        MUTE_ONCE,
        &[0, 3],
        0,
        "attempt 1.1 records 1-1 ticks 0-3 timed out
attempt 1.2 records 1-1 ticks 3-3 committed
cell counts [\"a\"] 1
ok 1 records 1 batches
",
    ),
    // the same ticks one at a time
    (
        MUTE_ONCE,
        &[0, 0, 1, 0, 1, 1],
        0,
        "attempt 1.1 records 1-1 ticks 0-3 timed out
attempt 1.2 records 1-1 ticks 3-3 committed
cell counts [\"a\"] 1
ok 1 records 1 batches
",
    ),
    // more ticks at once than there are buckets, before the attempt begins and after
    (
        MUTE_ONCE,
        &[7, 5],
        0,
        "attempt 1.1 records 1-1 ticks 7-10 timed out
attempt 1.2 records 1-1 ticks 12-12 committed
cell counts [\"a\"] 1
ok 1 records 1 batches
",
    ),
];

// One attempt is in flight, and where it is mute only ticks end it, so threads change nothing.
#[test]
fn ends_of_attempts_and_runs(rt: HostRuntime) -> Result<(), Mismatch> {
    for (topology, ticks, code, want) in ENDS {
        let outside = Outside { ticks, ..CALM };
        for scene in [run_alone(topology, RECORD), run_of(topology, RECORD)] {
            check_call(&rt, rt.alloc(), scene, outside, code, want)?;
        }
    }
    Ok(())
}

// Each attempt begins at the tick at which the last one ended.
const ALL_TIMED_OUT: &str = "attempt 1.1 records 1-1 ticks 0-3 timed out
attempt 1.2 records 1-1 ticks 3-6 timed out
attempt 1.3 records 1-1 ticks 6-9 timed out
attempt 1.4 records 1-1 ticks 9-12 timed out
exhausted 1
";

// With one worker the coordinator has its turn, with all ticks since the last, once its parcels are
// handed over.
#[test]
fn all_attempts_time_out(rt: HostRuntime) -> Result<(), Mismatch> {
    let alloc = rt.alloc();
    let ticks = ticks_every(alloc, 20, 3, 4)?;
    let outside = Outside {
        ticks: ticks.as_slice(),
        ..CALM
    };
    let scene = run_alone(MUTE_ALWAYS, RECORD);
    check_call(&rt, alloc, scene, outside, 7, ALL_TIMED_OUT)
}

const IN_ORDER: &str = "attempt 1.1 records 1-1 ticks 0-0 committed
attempt 2.1 records 2-2 ticks 0-0 committed
attempt 3.1 records 3-3 ticks 0-0 committed
cell last [\"x\"] 3
ok 3 records 3 batches
";

#[test]
fn batches_in_flight_are_committed_in_order(rt: HostRuntime) -> Result<(), Mismatch> {
    let scene = run_of(LAST_VALUE, "[\"x\",1]\n[\"x\",2]\n[\"x\",3]\n");
    check_call(&rt, rt.alloc(), scene, CALM, 0, IN_ORDER)
}

// ---- ids that coincide

// The coordinator is the source 2. Its first word is where its shuffle begins.
const ALL_ZERO: Script = [&[], &[], &[0, 0, 0, 0, 0]];

const ALL_COINCIDE: &str = "\
attempt 1.1 records 1-1 ticks 0-0 coincided 0:0000000000000000
attempt 1.2 records 1-1 ticks 0-0 coincided 0:0000000000000000
attempt 1.3 records 1-1 ticks 0-0 coincided 0:0000000000000000
attempt 1.4 records 1-1 ticks 0-0 coincided 0:0000000000000000
exhausted 1
";

// Its tuple stays mute, so the edge is open when the init makes the XOR 0, whatever came before it.
#[test]
fn an_id_of_0_coincides(rt: HostRuntime) -> Result<(), Mismatch> {
    let outside = Outside {
        words: Some(&ALL_ZERO),
        ..CALM
    };
    let scene = run_of(MUTE_ALWAYS, RECORD);
    check_call(&rt, rt.alloc(), scene, outside, 7, ALL_COINCIDE)
}

// One worker executes what there is to do before an init comes to its acker, which then meets a
// whole list.
#[test]
fn ids_of_0_are_acked_before_their_init(rt: HostRuntime) -> Result<(), Mismatch> {
    let outside = Outside {
        words: Some(&ALL_ZERO),
        ..CALM
    };
    for topology in [STEADY, SMALL_WORD_COUNT] {
        let scene = run_alone(topology, RECORD);
        check_call(&rt, rt.alloc(), scene, outside, 0, COMMITTED)?;
    }
    Ok(())
}

// ---- kinds

// Kinds of the spout and the state.
const KINDS: [(&str, &str); 3] = [
    ("transactional", "transactional"),
    ("transactional", "opaque"),
    ("opaque", "opaque"),
];

#[test]
fn each_kind_is_run(rt: HostRuntime) -> Result<(), Mismatch> {
    let alloc = rt.alloc();
    let want = "attempt 1.1 records 1-1 ticks 0-0 failed 0
attempt 1.2 records 1-1 ticks 0-0 committed
attempt 2.1 records 2-2 ticks 0-0 failed 0
attempt 2.2 records 2-2 ticks 0-0 committed
cell counts [\"a\"] 2
ok 2 records 2 batches
";
    for (spout, state) in KINDS {
        let topology = one_bolt(alloc, spout, state, r#"{"do":"flaky","below":2}"#)?;
        let scene = run_of(topology.as_str(), "[\"a\"]\n[\"a\"]\n");
        check_call(&rt, alloc, scene, CALM, 0, want)?;
    }
    Ok(())
}

#[test]
fn an_opaque_spout_wants_opaque_states(rt: HostRuntime) -> Result<(), Mismatch> {
    let alloc = rt.alloc();
    let op = r#"{"do":"route","field":"word"}"#;
    let topology = one_bolt(alloc, "opaque", "transactional", op)?;
    let want = "topology: not exactly once \"counts\"\n";
    check_refusal(&rt, alloc, run_of(topology.as_str(), RECORD), CALM, 3, want)
}
