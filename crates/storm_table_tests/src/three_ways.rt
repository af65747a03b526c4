// Each grouping and each operation at several scales, and several bolts: `run`, `replay` and
// `plain` print the same tables.
use sample_topologies::{
    Example, GROUPINGS, LONG_SCHEDULE, NEVER, OPERATIONS, SCALES, SEVERAL, Scale, scaled,
};
use std::alloc::Global;
use std::sync::Wait;
use std::thread::Threads;
use storm_test_kit::{CALM, Outside, call, check_tables, plain_of, replay_of, run_of, ticks_every};
use test_kit::Mismatch;

// Runs and replays an example at a scale, and compares their tables with the plain ones.
fn check_scaled<R: Threads + Wait + Sync>(
    rt: &R,
    alloc: Global,
    example: &Example,
    scale: &Scale,
    ticks: &[u32],
) -> Result<(), Mismatch> {
    let (_, input) = *example;
    let file = scaled(alloc, example, scale)?;
    let topology = file.as_str();
    let plain = call(rt, alloc, plain_of(topology, input), CALM)?;
    let want = plain.text.as_str();
    let outside = Outside { ticks, ..CALM };
    check_tables(rt, alloc, run_of(topology, input), outside, want)?;
    let replay = replay_of(topology, input, LONG_SCHEDULE);
    check_tables(rt, alloc, replay, CALM, want)
}

fn check_example<R: Threads + Wait + Sync>(
    rt: &R,
    alloc: Global,
    example: &Example,
    ticks: &[u32],
) -> Result<(), Mismatch> {
    for scale in &SCALES {
        check_scaled(rt, alloc, example, scale, ticks)?;
    }
    Ok(())
}

fn check_examples<R: Threads + Wait + Sync>(
    rt: &R,
    alloc: Global,
    examples: &[Example],
    ticks: &[u32],
) -> Result<(), Mismatch> {
    for example in examples {
        check_example(rt, alloc, example, ticks)?;
    }
    Ok(())
}

#[test]
fn each_grouping_makes_the_plain_tables(rt: HostRuntime) -> Result<(), Mismatch> {
    check_examples(&rt, rt.alloc(), &GROUPINGS, &[])
}

// Mute attempts need ticks, which are too slow for the others to end by them.
#[test]
fn each_operation_makes_the_plain_tables(rt: HostRuntime) -> Result<(), Mismatch> {
    let alloc = rt.alloc();
    let ticks = ticks_every(alloc, 20, 1, 12)?;
    check_examples(&rt, alloc, &OPERATIONS, ticks.as_slice())
}

#[test]
fn several_bolts_make_the_plain_tables(rt: HostRuntime) -> Result<(), Mismatch> {
    check_examples(&rt, rt.alloc(), &SEVERAL, &[])
}

#[test]
fn an_example_that_is_not_committed_is_told_apart(rt: HostRuntime) {
    let never = check_example(&rt, rt.alloc(), &NEVER, &[]);
    assert!(rt; matches!(never, Err(Mismatch::Told { .. })));
}
