// An input that is cut short, or without one byte.
use crate::pieces::{front, without};
use sample_topologies::{SENTENCES, WORD_COUNT};
use std::alloc::Global;
use std::sync::Wait;
use std::thread::Threads;
use storm_test_kit::{CALM, PLAIN, RUN, RUN_ALONE, Scene, call, check_refusal, replay_of};
use test_kit::Mismatch;

// The words of the other commands that read an input.
const READERS: [&[&str]; 3] = [&PLAIN, &RUN_ALONE, &RUN];

// A schedule is refused after the input.
const NO_STEP: &str = "schedule: line 1: not a step\n";

fn check_read<R: Threads + Wait + Sync>(
    rt: &R,
    alloc: Global,
    scene: Scene<'_>,
    end: &str,
) -> Result<(), Mismatch> {
    let told = call(rt, alloc, scene, CALM)?;
    if told.status.code() == 0 && told.text.ends_with(end) {
        return Ok(());
    }
    Err(Mismatch::Case(String::from_str(alloc, told.text.as_str())?))
}

// Every command that reads an input refuses it with this line, or ends with the last line given.
fn check_each<R: Threads + Wait + Sync>(
    rt: &R,
    alloc: Global,
    input: &str,
    fault: &str,
    end: &str,
) -> Result<(), Mismatch> {
    let replay = replay_of(WORD_COUNT, input, "jump");
    let code = if fault.is_empty() { 9 } else { 4 };
    let line = if fault.is_empty() { NO_STEP } else { fault };
    check_refusal(rt, alloc, replay, CALM, code, line)?;
    for words in READERS {
        let scene = Scene { words, ..replay };
        if fault.is_empty() {
            check_read(rt, alloc, scene, end)?;
        } else {
            check_refusal(rt, alloc, scene, CALM, 4, fault)?;
        }
    }
    Ok(())
}

/// The first and the last length or place, the fault, which is empty where there is none, and the
/// last line of the report where there is one.
type Range = (usize, usize, &'static str, &'static str);

// A record is whole with its bracket, and need not end its line.
const CUT: [Range; 7] = [
    (0, 0, "", "ok 0 records 0 batches\n"),
    (1, 31, "input: line 1: no JSON\n", ""),
    (32, 33, "", "ok 1 records 1 batches\n"),
    (34, 61, "input: line 2: no JSON\n", ""),
    (62, 63, "", "ok 2 records 1 batches\n"),
    (64, 96, "input: line 3: no JSON\n", ""),
    (97, 98, "", "ok 3 records 2 batches\n"),
];

#[test]
fn an_input_is_cut_short(rt: HostRuntime) -> Result<(), Mismatch> {
    assert!(rt; SENTENCES.len() == 98);
    for (first, last, fault, end) in CUT {
        for len in first..=last {
            check_each(&rt, rt.alloc(), front(SENTENCES, len), fault, end)?;
        }
    }
    Ok(())
}

// Without the byte between them two lines are one, which is no JSON. The last line needs no end.
const LEFT_OUT: [Range; 9] = [
    (0, 1, "input: line 1: no JSON\n", ""),
    (2, 29, "", "ok 3 records 2 batches\n"),
    (30, 32, "input: line 1: no JSON\n", ""),
    (33, 34, "input: line 2: no JSON\n", ""),
    (35, 59, "", "ok 3 records 2 batches\n"),
    (60, 62, "input: line 2: no JSON\n", ""),
    (63, 64, "input: line 3: no JSON\n", ""),
    (65, 94, "", "ok 3 records 2 batches\n"),
    (95, 96, "input: line 3: no JSON\n", ""),
];

#[test]
fn a_byte_of_an_input_is_left_out(rt: HostRuntime) -> Result<(), Mismatch> {
    let alloc = rt.alloc();
    for (first, last, fault, end) in LEFT_OUT {
        for place in first..=last {
            let input = without(alloc, SENTENCES, place)?;
            check_each(&rt, alloc, input.as_str(), fault, end)?;
        }
    }
    Ok(())
}
