// What a replay refuses, and in which order.
use sample_topologies::{SENTENCES, WORD_COUNT};
use std::alloc::Global;
use storm_test_kit::{CALM, Outside, REPLAY, Scene, check_call, check_refusal, replay_of};
use test_kit::Mismatch;

// Schedules over the word count, which has four tasks and two ackers, and the lines that refuse
// them.
const REFUSED_SCHEDULES: [(&str, &str); 12] = [
    ("task 4", "schedule: line 1: no such number\n"),
    ("jump", "schedule: line 1: not a step\n"),
    ("acker 2\n", "schedule: line 1: no such number\n"),
    (
        "coord\ntask 3\ntask 4\njump\n",
        "schedule: line 3: no such number\n",
    ),
    ("coord\n\ntask 4\n", "schedule: line 2: not a step\n"),
    ("rounds 10000001", "schedule: line 1: not a step\n"),
    ("rounds 000000001", "schedule: line 1: not a step\n"),
    ("rounds ", "schedule: line 1: not a step\n"),
    ("rounds  5", "schedule: line 1: not a step\n"),
    ("tick 1", "schedule: line 1: not a step\n"),
    ("coord\r\n", "schedule: line 1: not a step\n"),
    ("tick\ntask", "schedule: line 2: not a step\n"),
];

#[test]
fn refusals_of_schedules(rt: HostRuntime) -> Result<(), Mismatch> {
    for (schedule, want) in REFUSED_SCHEDULES {
        let scene = replay_of(WORD_COUNT, SENTENCES, schedule);
        check_refusal(&rt, rt.alloc(), scene, CALM, 9, want)?;
    }
    Ok(())
}

// Files, the status that they end with, and the line.
const NOT_READ: [(Option<&str>, Option<&str>, Option<&str>, u8, &str); 8] = [
    (None, None, None, 5, "read fault topology\n"),
    (
        Some(WORD_COUNT),
        None,
        Some("jump"),
        5,
        "read fault input\n",
    ),
    (
        Some(WORD_COUNT),
        Some(SENTENCES),
        None,
        5,
        "read fault schedule\n",
    ),
    // one fault after the other
    (
        Some("{}"),
        Some("[]"),
        Some("jump"),
        3,
        "topology: missing \"version\"\n",
    ),
    (Some("{}"), None, None, 3, "topology: missing \"version\"\n"),
    (
        Some(WORD_COUNT),
        Some("[]"),
        Some("jump"),
        4,
        "input: line 1: 0 items\n",
    ),
    (
        Some(WORD_COUNT),
        Some("[]"),
        None,
        4,
        "input: line 1: 0 items\n",
    ),
    (
        Some(WORD_COUNT),
        Some(""),
        Some("jump"),
        9,
        "schedule: line 1: not a step\n",
    ),
];

#[test]
fn files_that_are_not_read(rt: HostRuntime) -> Result<(), Mismatch> {
    for (topology, input, schedule, code, want) in NOT_READ {
        let scene = Scene {
            words: &REPLAY,
            topology,
            input,
            schedule,
        };
        check_refusal(&rt, rt.alloc(), scene, CALM, code, want)?;
    }
    Ok(())
}

// Of 174,762 steps of the coordinator, and what follows.
fn long_schedule(alloc: Global, rest: &str) -> Result<String, Mismatch> {
    let mut text = "coord\n".repeat(alloc, 174_762)?;
    text.push_str(rest)?;
    Ok(text)
}

// What follows, how long the schedule is then, and what a replay ends with and writes.
const LENGTHS: [(&str, usize, u8, &str); 3] = [
    ("tick", 1_048_576, 8, "unfinished 0\n"),
    (
        "tick\n",
        1_048_577,
        9,
        "schedule: longer than 1048576 bytes\n",
    ),
    (
        "jump\n",
        1_048_577,
        9,
        "schedule: longer than 1048576 bytes\n",
    ),
];

#[test]
fn a_schedule_of_1048577_bytes(rt: HostRuntime) -> Result<(), Mismatch> {
    let alloc = rt.alloc();
    for (rest, bytes, code, want) in LENGTHS {
        let schedule = long_schedule(alloc, rest)?;
        assert!(rt; schedule.len() == bytes);
        let scene = replay_of(WORD_COUNT, SENTENCES, schedule.as_str());
        check_refusal(&rt, alloc, scene, CALM, code, want)?;
    }
    Ok(())
}

#[test]
fn the_first_write_fails(rt: HostRuntime) -> Result<(), Mismatch> {
    let outside = Outside {
        failing_write: 1,
        ..CALM
    };
    for schedule in ["", "jump", "rounds 1000"] {
        let scene = replay_of(WORD_COUNT, "[\"a\"]", schedule);
        check_call(&rt, rt.alloc(), scene, outside, 6, "")?;
    }
    Ok(())
}
