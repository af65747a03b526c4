// Attempts that fail, time out or are not committed, beside each other: they end as with one
// worker.
use crate::numbers::EACH_NUMBER;
use sample_topologies::{MUTE_ALWAYS, MUTE_ONCE, SENTENCES, TABLES_OF_SENTENCES, WORD_COUNT};
use std::alloc::Global;
use std::sync::Wait;
use std::thread::Threads;
use storm_stores::{CallKind, FailAt};
use storm_test_kit::{
    CALM, Outside, Scene, call, check_call, check_faults, plain_of, run_alone, run_of,
};
use test_kit::{Mismatch, compare, lines_without};

const RECORD: &str = "[\"a\"]";

// ---- mute attempts

const TIMED_OUT_ONCE: &str = "attempt 1.1 records 1-1 ticks 0-3 timed out
attempt 1.2 records 1-1 ticks 3-3 committed
cell counts [\"a\"] 1
ok 1 records 1 batches
";

// The first attempt begins in the coordinator's first turn, and only ticks end it. They all pass
// before its second turn.
#[test]
fn a_mute_attempt_times_out(rt: HostRuntime) -> Result<(), Mismatch> {
    let outside = Outside {
        ticks: &[0, 3],
        ..CALM
    };
    for words in EACH_NUMBER {
        let scene = Scene {
            words,
            ..run_of(MUTE_ONCE, RECORD)
        };
        check_call(&rt, rt.alloc(), scene, outside, 0, TIMED_OUT_ONCE)?;
    }
    Ok(())
}

const ALWAYS_TIMED_OUT: &str = "attempt 1.1 records 1-1 ticks 0-3 timed out
attempt 1.2 records 1-1 ticks 3-6 timed out
attempt 1.3 records 1-1 ticks 6-9 timed out
attempt 1.4 records 1-1 ticks 9-12 timed out
exhausted 1
";

// By several workers each look at the ticks comes with a turn of the coordinator, in which one
// attempt ends and the next begins.
#[test]
fn mute_attempts_time_out_turn_by_turn(rt: HostRuntime) -> Result<(), Mismatch> {
    let outside = Outside {
        ticks: &[0, 3, 3, 3, 3],
        ..CALM
    };
    let scene = run_of(MUTE_ALWAYS, RECORD);
    check_call(&rt, rt.alloc(), scene, outside, 7, ALWAYS_TIMED_OUT)
}

// ---- failing attempts

// Two tasks that fail the attempts below 3, of batches of one record of which four are in flight.
const SHAKY: &str = r#"{"version":1,
 "spout":{"name":"words","kind":"transactional","fields":["word"],"batch":1},
 "bolts":[{"name":"shaky","tasks":2,"op":{"do":"flaky","below":3},
   "inputs":[{"from":"words","grouping":"shuffle"}]}],
 "states":[{"name":"counts","kind":"transactional","parts":2,"key":["word"],
   "fold":"count","inputs":["shaky"]}],
 "ackers":2,"pending":4}"#;

const WORDS: &str = "[\"a\"]\n[\"b\"]\n[\"a\"]\n[\"c\"]\n[\"a\"]\n[\"b\"]\n[\"d\"]\n[\"a\"]\n";

fn has_line(text: &str, line: &str) -> bool {
    for other in text.lines() {
        if other == line {
            return true;
        }
    }
    false
}

// A text has the lines of another, in whatever order. Each of those stands once.
fn check_lines(alloc: Global, told: &str, want: &str) -> Result<(), Mismatch> {
    for line in want.lines() {
        if !has_line(told, line) {
            return compare(alloc, line, told, want);
        }
    }
    if told.len() == want.len() {
        return Ok(());
    }
    compare(alloc, "all lines", told, want)
}

// Which of the attempts in flight fails first is a matter of order, and nothing else is.
#[test]
fn failing_attempts_end_as_with_one_worker(rt: HostRuntime) -> Result<(), Mismatch> {
    let alloc = rt.alloc();
    let plain = call(&rt, alloc, plain_of(SHAKY, WORDS), CALM)?;
    let alone = call(&rt, alloc, run_alone(SHAKY, WORDS), CALM)?;
    for words in EACH_NUMBER {
        let scene = Scene {
            words,
            ..run_of(SHAKY, WORDS)
        };
        let told = call(&rt, alloc, scene, CALM)?;
        assert!(rt; told.status.code() == 0);
        check_lines(alloc, told.text.as_str(), alone.text.as_str())?;
        let tables = lines_without(alloc, told.text.as_str(), "attempt ")?;
        compare(alloc, "tables", tables.as_str(), plain.text.as_str())?;
    }
    Ok(())
}

// ---- stores that refuse

// Lets a put of a part fail. Commits and their puts come in one order, so nothing is a matter of
// the order of executions.
fn refuse_put<R: Threads + Wait + Sync>(
    rt: &R,
    alloc: Global,
    part: u32,
    number: u64,
    happened: bool,
) -> Result<(), Mismatch> {
    let at = FailAt {
        kind: CallKind::Put,
        number,
        happened,
    };
    let outside = Outside {
        failing: &[(1, part, at)],
        ..CALM
    };
    let alone = call(rt, alloc, run_alone(WORD_COUNT, SENTENCES), outside)?;
    let want = alone.text.as_str();
    let tables = lines_without(alloc, want, "attempt ")?;
    compare(alloc, "tables", tables.as_str(), TABLES_OF_SENTENCES)?;
    let failed = format!(in alloc; " commit failed counts {part}\n")?;
    if !want.contains(failed.as_str()) {
        return compare(alloc, "a failed commit", want, failed.as_str());
    }
    let scene = run_of(WORD_COUNT, SENTENCES);
    check_faults(rt, alloc, scene, outside, 1, 0, want)
}

#[test]
fn commits_fail_as_with_one_worker(rt: HostRuntime) -> Result<(), Mismatch> {
    for part in [0, 1] {
        for number in 1..6 {
            for happened in [false, true] {
                refuse_put(&rt, rt.alloc(), part, number, happened)?;
            }
        }
    }
    Ok(())
}
