// Two calls to the outside fail.
use crate::commands::{KINDS, SCHEDULE, commands};
use sample_topologies::{SENTENCES, WORD_COUNT};
use std::alloc::Global;
use std::sync::Wait;
use std::thread::Threads;
use storm_stores::{CallKind, FailAt};
use storm_test_kit::{
    CALM, Failing, Outside, REPLAY, Scene, Told, call, check_answer, check_refusal, replay_of,
    run_alone, run_of,
};
use test_kit::{Mismatch, compare, lines_without};

fn bad_case(alloc: Global, case: &str) -> Result<(), Mismatch> {
    Err(Mismatch::Case(String::from_str(alloc, case)?))
}

// ---- two calls of stores

// The key `a` goes to the part 0, and `b`, which both batches write, to the part 1.
const RECORDS: &str = "[\"a b\"]\n[\"a\"]\n[\"b\"]\n";

const TABLES: &str = "cell counts [\"a\"] 2
cell counts [\"b\"] 2
ok 3 records 2 batches
";

// Of a load the keys are `w44`, `w33` and `w19`, and in the part 1 `w49` and `w5`.
const LOAD: Scene<'static> = Scene {
    words: &["load", "1", "1"],
    topology: None,
    input: None,
    schedule: None,
};

const LOADED: &str = "load 1 records 1 batches 5 keys 6 words\n";

/// A command, what it writes but for lines of attempts, and how many batches it commits.
type Small = (Scene<'static>, &'static str, usize);

// The commands on one thread.
fn small_commands() -> [Small; 3] {
    [
        (run_alone(WORD_COUNT, RECORDS), TABLES, 2),
        (replay_of(WORD_COUNT, RECORDS, SCHEDULE), TABLES, 2),
        (LOAD, LOADED, 1),
    ]
}

// A run by several workers.
fn by_workers() -> [Small; 1] {
    [(run_of(WORD_COUNT, RECORDS), TABLES, 2)]
}

// Calls by their numbers, and some that are made only where an attempt is made again, or not at all.
const CALLS: [(CallKind, u64, bool); 13] = [
    (CallKind::Get, 1, false),
    (CallKind::Get, 2, false),
    (CallKind::Get, 3, false),
    (CallKind::Get, 4, false),
    (CallKind::Put, 1, false),
    (CallKind::Put, 1, true),
    (CallKind::Put, 2, false),
    (CallKind::Put, 2, true),
    (CallKind::Put, 3, false),
    (CallKind::Put, 3, true),
    (CallKind::Count, 1, false),
    (CallKind::KeyAt, 1, false),
    (CallKind::KeyAt, 2, false),
];

fn failing(part: u32, index: usize) -> Option<Failing> {
    let (kind, number, happened) = *CALLS.get(index)?;
    let at = FailAt {
        kind,
        number,
        happened,
    };
    Some((1, part, at))
}

// The first count and the first look at a key are made in the last reading of each part.
fn is_of_reading(failing: Failing) -> bool {
    let (_, _, at) = failing;
    (at.kind == CallKind::Count || at.kind == CallKind::KeyAt) && at.number == 1
}

fn is_put(failing: Failing) -> bool {
    let (_, _, at) = failing;
    at.kind == CallKind::Put
}

fn is_first(failing: Failing) -> bool {
    let (_, _, at) = failing;
    at.number == 1
}

fn committed(told: &Told) -> usize {
    let mut attempts = 0_usize;
    for fate in told.fates.as_slice() {
        if fate.committed {
            attempts = attempts.saturating_add(1);
        }
    }
    attempts
}

fn lines_of_failures(text: &str) -> usize {
    let mut lines = 0_usize;
    for line in text.lines() {
        if line.contains(" commit failed counts ") {
            lines = lines.saturating_add(1);
        }
    }
    lines
}

// So many attempts failed by so many faults of stores, of one or of both parts each.
fn are_shown(failed: usize, faults: u64) -> bool {
    let failed = failed as u64;
    failed <= faults && faults <= failed.saturating_mul(2)
}

// Every batch is committed, and each fault is shown by an attempt, or one by the last reading.
fn check_causes(alloc: Global, told: &Told, tables: &str, batches: usize) -> Result<(), Mismatch> {
    let failed = told.fates.as_slice().len().saturating_sub(committed(told));
    if committed(told) != batches || told.store_faults > 2 {
        return bad_case(alloc, "other commits, or more faults");
    }
    if told.status.code() == 10 {
        check_answer(alloc, told, 10, "store fault\n")?;
        if told.store_faults >= 1 && are_shown(failed, told.store_faults.saturating_sub(1)) {
            return Ok(());
        }
        return bad_case(alloc, "no fault of the last reading");
    }
    let lines = lines_without(alloc, told.text.as_str(), "attempt ")?;
    compare(alloc, "tables", lines.as_str(), tables)?;
    let has_lines = told.text.starts_with("attempt ");
    if has_lines && lines_of_failures(told.text.as_str()) != failed {
        return bad_case(alloc, "other lines");
    }
    if told.status.code() == 0 && are_shown(failed, told.store_faults) {
        return Ok(());
    }
    bad_case(alloc, "another status, or faults that no attempt shows")
}

// Where the last reading is sure to fail, or sure not to.
fn check_status(
    alloc: Global,
    told: &Told,
    first: Failing,
    second: Failing,
) -> Result<(), Mismatch> {
    let code = told.status.code();
    if (is_of_reading(first) || is_of_reading(second)) && code != 10 {
        return bad_case(alloc, "no store fault");
    }
    if is_put(first) && is_put(second) && code != 0 {
        return bad_case(alloc, "no end");
    }
    if (is_first(first) || is_first(second)) && told.store_faults == 0 {
        return bad_case(alloc, "no fault");
    }
    Ok(())
}

fn fail_two<R: Threads + Wait + Sync>(
    rt: &R,
    alloc: Global,
    commands: &[Small],
    first: Failing,
    second: Failing,
) -> Result<(), Mismatch> {
    let outside = Outside {
        failing: &[first, second],
        ..CALM
    };
    for (scene, tables, batches) in commands {
        let told = call(rt, alloc, *scene, outside)?;
        check_causes(alloc, &told, tables, *batches)?;
        check_status(alloc, &told, first, second)?;
    }
    Ok(())
}

// Lets a call fail beside those of a part with this index and greater ones.
fn fail_beside<R: Threads + Wait + Sync>(
    rt: &R,
    alloc: Global,
    first: Failing,
    part: u32,
    least: usize,
) -> Result<(), Mismatch> {
    let commands = small_commands();
    for index in least..CALLS.len() {
        if let Some(second) = failing(part, index) {
            fail_two(rt, alloc, &commands, first, second)?;
        }
    }
    Ok(())
}

#[test]
fn two_calls_of_the_first_store_fail(rt: HostRuntime) -> Result<(), Mismatch> {
    for index in 0..CALLS.len() {
        if let Some(first) = failing(0, index) {
            fail_beside(&rt, rt.alloc(), first, 0, index)?;
        }
    }
    Ok(())
}

#[test]
fn two_calls_of_the_second_store_fail(rt: HostRuntime) -> Result<(), Mismatch> {
    for index in 0..CALLS.len() {
        if let Some(first) = failing(1, index) {
            fail_beside(&rt, rt.alloc(), first, 1, index)?;
        }
    }
    Ok(())
}

// Two gets, two puts, the count and the first look at a key.
const FEW: [usize; 6] = [0, 1, 5, 6, 10, 11];

#[test]
fn a_call_of_each_store_fails(rt: HostRuntime) -> Result<(), Mismatch> {
    for index in FEW {
        if let Some(first) = failing(0, index) {
            fail_beside(&rt, rt.alloc(), first, 1, 0)?;
        }
    }
    Ok(())
}

// Lets a call fail beside each of a part.
fn fail_few<R: Threads + Wait + Sync>(
    rt: &R,
    alloc: Global,
    first: Failing,
    part: u32,
) -> Result<(), Mismatch> {
    let commands = by_workers();
    for index in FEW {
        if let Some(second) = failing(part, index) {
            fail_two(rt, alloc, &commands, first, second)?;
        }
    }
    Ok(())
}

#[test]
fn two_calls_of_stores_fail_by_workers(rt: HostRuntime) -> Result<(), Mismatch> {
    for index in FEW {
        for (part, other) in [(0, 0), (0, 1), (1, 1)] {
            if let Some(first) = failing(part, index) {
                fail_few(&rt, rt.alloc(), first, other)?;
            }
        }
    }
    Ok(())
}

// ---- a call of a store and a write

// The sink failed when it had taken so many bytes of a text.
fn check_cut(alloc: Global, told: &Told, text: &str, taken: usize) -> Result<(), Mismatch> {
    if told.status.code() != 6 || told.text.len() != taken {
        return bad_case(alloc, "another status, or another number of bytes");
    }
    if text.as_bytes().starts_with(told.text.as_bytes()) {
        return Ok(());
    }
    bad_case(alloc, "other bytes")
}

// Each write of fifty bytes fails in turn. All else is as where the store alone fails.
fn fail_writes<R: Threads + Wait + Sync>(
    rt: &R,
    alloc: Global,
    scene: Scene<'_>,
    outside: Outside<'_>,
) -> Result<(), Mismatch> {
    let whole = call(rt, alloc, scene, outside)?;
    for taken in 0..whole.text.len() {
        if taken % 50 == 0 {
            let cut = Outside {
                write: 50,
                failing_write: (taken.div_ceil(50) as u64).saturating_add(1),
                ..outside
            };
            let told = call(rt, alloc, scene, cut)?;
            check_cut(alloc, &told, whole.text.as_str(), taken)?;
            check_same(alloc, &told, &whole)?;
        }
    }
    Ok(())
}

fn check_same(alloc: Global, told: &Told, whole: &Told) -> Result<(), Mismatch> {
    let same = told.fates.as_slice() == whole.fates.as_slice();
    if same && told.store_faults == whole.store_faults {
        return Ok(());
    }
    bad_case(alloc, "other fates, or other faults")
}

#[test]
fn a_call_of_a_store_and_a_write_fail(rt: HostRuntime) -> Result<(), Mismatch> {
    for command in commands() {
        for kind in KINDS {
            let at = FailAt {
                kind,
                number: 2,
                happened: true,
            };
            let outside = Outside {
                failing: &[(1, 1, at)],
                ..CALM
            };
            fail_writes(&rt, rt.alloc(), command.scene, outside)?;
        }
    }
    Ok(())
}

// ---- a fetch and a read

// The lines of the files in the order of the fetches. A file has one read that gives its bytes, and
// one that gives none.
const UNREAD: [&str; 3] = [
    "read fault topology\n",
    "read fault input\n",
    "read fault schedule\n",
];

// Whatever of a store fails besides, no store is made.
const FIRST_PUT: Failing = (
    1,
    0,
    FailAt {
        kind: CallKind::Put,
        number: 1,
        happened: true,
    },
);

fn replayed() -> Scene<'static> {
    Scene {
        words: &REPLAY,
        schedule: Some(SCHEDULE),
        ..run_of(WORD_COUNT, SENTENCES)
    }
}

#[test]
fn a_fetch_and_a_read_fail(rt: HostRuntime) -> Result<(), Mismatch> {
    for fetched in 0..3_usize {
        for read in 0..6_usize {
            let outside = Outside {
                failing_fetch: (fetched as u64).saturating_add(1),
                failing_read: (read as u64).saturating_add(1),
                failing: &[FIRST_PUT],
                ..CALM
            };
            let line = UNREAD.get(fetched.min(read / 2)).unwrap_or(&"");
            check_refusal(&rt, rt.alloc(), replayed(), outside, 5, line)?;
        }
    }
    Ok(())
}

// The fetch and the read that fails, and the line of its fault.
const UNREAD_ONCE: [(u64, u64, &str); 9] = [
    (1, 0, "read fault topology\n"),
    (0, 1, "read fault topology\n"),
    (0, 2, "read fault topology\n"),
    (2, 0, "read fault input\n"),
    (0, 3, "read fault input\n"),
    (0, 4, "read fault input\n"),
    (3, 0, "read fault schedule\n"),
    (0, 5, "read fault schedule\n"),
    (0, 6, "read fault schedule\n"),
];

// Lets the write fail before which so many bytes of the line are taken.
fn fail_write<R: Threads + Wait + Sync>(
    rt: &R,
    alloc: Global,
    outside: Outside<'_>,
    line: &str,
    taken: usize,
) -> Result<(), Mismatch> {
    let cut = Outside {
        write: 1,
        failing_write: (taken as u64).saturating_add(1),
        ..outside
    };
    let told = call(rt, alloc, replayed(), cut)?;
    check_cut(alloc, &told, line, taken)?;
    if told.fates.is_empty() && told.store_faults == 0 {
        return Ok(());
    }
    bad_case(alloc, "fates of a refusal")
}

#[test]
fn a_fetch_or_a_read_and_a_write_fail(rt: HostRuntime) -> Result<(), Mismatch> {
    for (failing_fetch, failing_read, line) in UNREAD_ONCE {
        for taken in 0..line.len() {
            let outside = Outside {
                failing_fetch,
                failing_read,
                failing: &[FIRST_PUT],
                ..CALM
            };
            fail_write(&rt, rt.alloc(), outside, line, taken)?;
        }
    }
    Ok(())
}
