// What a call answers and writes where one call to the outside fails, or gives and takes little.
ghost use Rattle.std.specs.Prelude.{◌<◌};

use sample_topologies::{
    COUNTED_SENTENCES, FAILS_ALWAYS, SENTENCES, TABLES_OF_SENTENCES, WORD_COUNT,
};
use std::alloc::Global;
use std::sync::Wait;
use std::thread::Threads;
use storm_test_kit::{
    CALM, CHECK, Outside, PLAIN, REPLAY, RUN, RUN_ALONE, Scene, Told, call, check_call,
    check_refusal, plain_of, reads_of, replay_of, run_alone, run_over,
};
use test_kit::{Mismatch, compare};

// A record for calls that are made again for each byte that is written.
const RECORD: &str = "[\"a\"]";

// Rounds enough for the sentences.
const SCHEDULE: &str = "rounds 20\nrounds 1000\n";

// Reports, each refusal, and the lines of read faults.
const SCENES: [Scene<'static>; 18] = [
    LOADED,
    Scene {
        words: &RUN_ALONE,
        topology: Some(WORD_COUNT),
        input: Some(RECORD),
        schedule: None,
    },
    Scene {
        words: &RUN,
        topology: Some(WORD_COUNT),
        input: Some(RECORD),
        schedule: None,
    },
    Scene {
        words: &RUN,
        topology: Some(WORD_COUNT),
        input: Some("[\"a\"]\n[1.5]"),
        schedule: None,
    },
    Scene {
        words: &RUN,
        topology: Some("{}"),
        input: Some(RECORD),
        schedule: None,
    },
    Scene {
        words: &RUN,
        topology: Some(WORD_COUNT),
        input: None,
        schedule: None,
    },
    Scene {
        words: &RUN,
        topology: Some(FAILS_ALWAYS),
        input: Some(RECORD),
        schedule: None,
    },
    Scene {
        words: &REPLAY,
        topology: Some(WORD_COUNT),
        input: Some(RECORD),
        schedule: Some(SCHEDULE),
    },
    Scene {
        words: &REPLAY,
        topology: Some(WORD_COUNT),
        input: Some(RECORD),
        schedule: Some("rounds 3"),
    },
    Scene {
        words: &REPLAY,
        topology: Some(WORD_COUNT),
        input: Some(RECORD),
        schedule: Some("jump"),
    },
    Scene {
        words: &REPLAY,
        topology: Some(WORD_COUNT),
        input: Some(RECORD),
        schedule: None,
    },
    Scene {
        words: &REPLAY,
        topology: Some(FAILS_ALWAYS),
        input: Some(RECORD),
        schedule: Some(SCHEDULE),
    },
    Scene {
        words: &PLAIN,
        topology: Some(WORD_COUNT),
        input: Some(SENTENCES),
        schedule: None,
    },
    Scene {
        words: &PLAIN,
        topology: Some(WORD_COUNT),
        input: Some("[]"),
        schedule: None,
    },
    Scene {
        words: &PLAIN,
        topology: Some(WORD_COUNT),
        input: None,
        schedule: None,
    },
    CHECKED,
    Scene {
        words: &CHECK,
        topology: Some("{}"),
        input: None,
        schedule: None,
    },
    Scene {
        words: &["run"],
        topology: Some(WORD_COUNT),
        input: Some(RECORD),
        schedule: None,
    },
];

fn bad_case(alloc: Global, case: &str) -> Result<(), Mismatch> {
    Err(Mismatch::Case(String::from_str(alloc, case)?))
}

// The call answered, wrote and told as one where nothing fails.
fn same(alloc: Global, told: &Told, whole: &Told) -> Result<(), Mismatch> {
    compare(alloc, "a call", told.text.as_str(), whole.text.as_str())?;
    if told.status == whole.status && told.fates.as_slice() == whole.fates.as_slice() {
        return Ok(());
    }
    bad_case(alloc, "another status, or other fates")
}

// The sink failed when it had taken so many bytes.
fn cut(alloc: Global, told: &Told, whole: &Told, taken: usize) -> Result<(), Mismatch> {
    if told.status.code() != 6 || told.text.len() != taken {
        return bad_case(alloc, "another status, or another number of bytes");
    }
    if !whole.text.as_bytes().starts_with(told.text.as_bytes()) {
        return bad_case(alloc, "other bytes");
    }
    if told.fates.as_slice() == whole.fates.as_slice() {
        return Ok(());
    }
    bad_case(alloc, "other fates")
}

// The files of a count of the sentences in the order of the fetches, and the lines of their faults.
const FILES: [(&str, &str); 3] = [
    (WORD_COUNT, "read fault topology\n"),
    (SENTENCES, "read fault input\n"),
    (SCHEDULE, "read fault schedule\n"),
];

/// A command that counts the words of the sentences or of records of its own, or checks the count, the
/// number of its files, and its text.
type Count = (Scene<'static>, usize, &'static str);

fn counts() -> [Count; 6] {
    [
        (run_over(SENTENCES), 2, COUNTED_SENTENCES),
        (run_alone(WORD_COUNT, SENTENCES), 2, COUNTED_SENTENCES),
        (
            replay_of(WORD_COUNT, SENTENCES, SCHEDULE),
            3,
            COUNTED_SENTENCES,
        ),
        (plain_of(WORD_COUNT, SENTENCES), 2, TABLES_OF_SENTENCES),
        (CHECKED, 1, "valid components 2 tasks 4 weight 2 depth 2\n"),
        (LOADED, 0, "load 2 records 1 batches 11 keys 12 words\n"),
    ]
}

const CHECKED: Scene<'static> = Scene {
    words: &CHECK,
    topology: Some(WORD_COUNT),
    input: None,
    schedule: None,
};

const LOADED: Scene<'static> = Scene {
    words: &["load", "2", "1"],
    topology: None,
    input: None,
    schedule: None,
};

// Which of so many files a read is of, in the line of its fault, where there is one.
fn unread(files: usize, longest: usize, number: u64) -> Option<&'static str>
    requires { 0 < longest }
{
    let mut left = number;
    for (text, line) in FILES.iter().take(files) {
        let reads = reads_of(text, longest);
        if left <= reads {
            return Some(line);
        }
        left -= reads;
    }
    None
}

// Lets one read of a count of the sentences fail. The answer is whether there is no such read.
fn fail_read<R: Threads + Wait + Sync>(
    rt: &R,
    alloc: Global,
    count: Count,
    longest: usize,
    number: u64,
) -> Result<bool, Mismatch>
    requires { 0 < longest }
{
    let (scene, files, text) = count;
    let outside = Outside {
        read: longest,
        failing_read: number,
        ..CALM
    };
    match unread(files, longest, number) {
        Some(line) => {
            check_refusal(rt, alloc, scene, outside, 5, line)?;
            Ok(false)
        }
        None => {
            check_call(rt, alloc, scene, outside, 0, text)?;
            Ok(true)
        }
    }
}

// Lets each read of so many bytes of a count of the sentences fail in turn.
fn fail_reads<R: Threads + Wait + Sync>(
    rt: &R,
    alloc: Global,
    count: Count,
    longest: usize,
) -> Result<(), Mismatch>
    requires { 0 < longest }
{
    for number in 1..1_000 {
        if fail_read(rt, alloc, count, longest, number)? {
            break;
        }
    }
    Ok(())
}

#[test]
fn each_read_fails(rt: HostRuntime) -> Result<(), Mismatch> {
    for count in counts() {
        for longest in 1..8 {
            fail_reads(&rt, rt.alloc(), count, longest)?;
        }
    }
    Ok(())
}

// Lets a fetch of a count of the sentences fail, or one more than there are.
fn fail_fetch<R: Threads + Wait + Sync>(
    rt: &R,
    alloc: Global,
    count: Count,
    before: usize,
) -> Result<(), Mismatch> {
    let (scene, files, text) = count;
    let outside = Outside {
        failing_fetch: (before as u64).saturating_add(1),
        ..CALM
    };
    match FILES.iter().take(files).nth(before) {
        Some((_, line)) => check_refusal(rt, alloc, scene, outside, 5, line),
        None => check_call(rt, alloc, scene, outside, 0, text),
    }
}

#[test]
fn each_fetch_fails(rt: HostRuntime) -> Result<(), Mismatch> {
    for count in counts() {
        for before in 0..4 {
            fail_fetch(&rt, rt.alloc(), count, before)?;
        }
    }
    Ok(())
}

// Lets the write fail before which so many bytes are taken.
fn fail_write<R: Threads + Wait + Sync>(
    rt: &R,
    alloc: Global,
    scene: Scene<'_>,
    longest: usize,
    taken: usize,
) -> Result<Told, Mismatch>
    requires { 0 < longest }
{
    let outside = Outside {
        write: longest,
        failing_write: (taken.div_ceil(longest) as u64).saturating_add(1),
        ..CALM
    };
    call(rt, alloc, scene, outside)
}

// Lets each write of so many bytes fail in turn, and one more than there are.
fn fail_writes<R: Threads + Wait + Sync>(
    rt: &R,
    alloc: Global,
    scene: Scene<'_>,
    longest: usize,
) -> Result<(), Mismatch>
    requires { 0 < longest }
{
    let whole = call(rt, alloc, scene, CALM)?;
    for taken in 0..whole.text.len() {
        if taken % longest == 0 {
            let told = fail_write(rt, alloc, scene, longest, taken)?;
            cut(alloc, &told, &whole, taken)?;
        }
    }
    let told = fail_write(rt, alloc, scene, longest, whole.text.len())?;
    same(alloc, &told, &whole)
}

#[test]
fn each_write_fails(rt: HostRuntime) -> Result<(), Mismatch> {
    for scene in SCENES {
        for longest in [1, 3, 64] {
            fail_writes(&rt, rt.alloc(), scene, longest)?;
        }
    }
    Ok(())
}

// Gives the sink room for each number of bytes that is too small.
fn narrow<R: Threads + Wait + Sync>(
    rt: &R,
    alloc: Global,
    scene: Scene<'_>,
) -> Result<(), Mismatch> {
    let whole = call(rt, alloc, scene, CALM)?;
    for room in 0..whole.text.len() {
        let outside = Outside {
            write: 50,
            room,
            ..CALM
        };
        cut(alloc, &call(rt, alloc, scene, outside)?, &whole, room)?;
    }
    Ok(())
}

#[test]
fn a_sink_has_too_little_room(rt: HostRuntime) -> Result<(), Mismatch> {
    for scene in SCENES {
        narrow(&rt, rt.alloc(), scene)?;
    }
    Ok(())
}

// Reads and writes few bytes at a time.
fn shorten<R: Threads + Wait + Sync>(
    rt: &R,
    alloc: Global,
    scene: Scene<'_>,
) -> Result<(), Mismatch> {
    let whole = call(rt, alloc, scene, CALM)?;
    for longest in 1..8 {
        let outside = Outside {
            read: longest,
            write: longest,
            ..CALM
        };
        same(alloc, &call(rt, alloc, scene, outside)?, &whole)?;
    }
    Ok(())
}

#[test]
fn short_reads_and_writes_change_nothing(rt: HostRuntime) -> Result<(), Mismatch> {
    for scene in SCENES {
        shorten(&rt, rt.alloc(), scene)?;
    }
    Ok(())
}
