//! Calls `storm` over each folder of `examples`, and tells whether it prints what lies there.
//!
//! A folder has `topology.json` and `input.jsonl`. One of an operation or a grouping has in
//! `plain.txt` what `plain` prints; a fold prints the same, and a run after its attempt lines,
//! whatever the number of workers. One of an end has in `report.txt` what a run prints, or a replay
//! of its `schedule.txt`, and one of a tracking in `tracked.txt` what `track` prints.
#![tactic(auto)]

ghost use Rattle.std.specs.Prelude.{[]};

use sample_operations::First;
use std::alloc::Global;
use std::process::ExitCode;
use std::sync::Wait;
use std::thread::Threads;
use storm_avail::AllOpen;
use storm_gates::OpenGate;
use storm_ids::{ChaChaMaker, IdMaker, ScriptIds, Words};
use storm_outside::{FileShelf, InFault, MemSink, OutSink, Shelf, Sink, read_all, write_all};
use storm_program::{Fates, storm};
use storm_stores::{CallKind, FailAt, MemMaker};
use storm_ticks::ScriptTicks;
use storm_values::{Bytes, Indexes, Memory};

/// What is handed in beside the files.
#[derive(Clone, Copy)]
enum Handed {
    /// Ids of ChaCha20 with a key of 32 zero bytes, and stores of which no call fails.
    Nothing,
    /// A tick each 20 rounds.
    SlowTicks,
    /// The words of `TASK_WORDS` and `COORDINATOR_WORDS` as ids.
    TwoOfOneId,
    /// A store of which a put fails.
    FailingPut(FailAt),
}

// The folders of operations and groupings, and what is handed in to a run.
const OPERATIONS: [(&str, Handed); 21] = [
    ("word_count", Handed::Nothing),
    ("pairs", Handed::Nothing),
    ("log_lines", Handed::Nothing),
    ("opaque", Handed::Nothing),
    ("split", Handed::Nothing),
    ("project", Handed::Nothing),
    ("filter", Handed::Nothing),
    ("set", Handed::Nothing),
    ("len", Handed::Nothing),
    ("route", Handed::Nothing),
    ("flaky", Handed::Nothing),
    ("mute", Handed::SlowTicks),
    ("custom", Handed::Nothing),
    ("custom_fold", Handed::Nothing),
    ("grouping_shuffle", Handed::Nothing),
    ("grouping_none", Handed::Nothing),
    ("grouping_local_or_shuffle", Handed::Nothing),
    ("grouping_global", Handed::Nothing),
    ("grouping_fields", Handed::Nothing),
    ("grouping_all", Handed::Nothing),
    ("grouping_direct", Handed::Nothing),
];

// The numbers of workers by which each of these is folded and run.
const WORKERS: [&str; 4] = ["1", "2", "3", "7"];

// The folders of ends, the command, and what is handed in.
const ENDS: [(&str, &str, Handed); 15] = [
    ("end_committed", "run", Handed::Nothing),
    ("end_failed", "run", Handed::Nothing),
    ("end_timed_out", "replay", Handed::Nothing),
    ("end_coincided", "replay", Handed::TwoOfOneId),
    ("end_commit_failed", "run", Handed::FailingPut(FIRST_PUT)),
    ("end_exhausted", "run", Handed::Nothing),
    ("end_unfinished", "replay", Handed::Nothing),
    (
        "opaque_commit_failed",
        "run",
        Handed::FailingPut(FOURTH_PUT),
    ),
    ("retries", "replay", Handed::Nothing),
    ("drop_failed", "replay", Handed::Nothing),
    ("drop_timed_out", "replay", Handed::Nothing),
    (
        "drop_commit_failed",
        "replay",
        Handed::FailingPut(FOURTH_PUT),
    ),
    ("drop_coincided", "replay", Handed::TwoOfOneId),
    ("tracked_late", "track", Handed::Nothing),
    ("tracked_lost", "track", Handed::Nothing),
];

// Of `end_coincided` and `drop_coincided` the task is the source 0 of ids, and the coordinator the
// source 2. The first word of each is where its shuffle begins. The second topology draws all.
const TASK_WORDS: [u64; 7] = [0, 9, 9, 7, 8, 13, 14];

const COORDINATOR_WORDS: [u64; 5] = [0, 5, 6, 11, 12];

// Where a put fails the state is the component 1, and has one part.
const FIRST_PUT: FailAt = FailAt {
    kind: CallKind::Put,
    number: 1,
    happened: true,
};

// Of batches with two keys each it is the second batch's second put, so that of its first attempt
// one cell is written and the other is not.
const FOURTH_PUT: FailAt = FailAt {
    kind: CallKind::Put,
    number: 4,
    happened: false,
};

// The most bytes of what is printed.
const ROOM: usize = 65_536;

// The bytes of a file.
fn read_file<H: Shelf>(alloc: Global, shelf: &mut H, name: &str) -> Result<Bytes, InFault> {
    shelf.fetch(name)?;
    read_all(alloc, shelf, ROOM as u64)
}

// ---- what is handed in

fn ticks(alloc: Global, handed: Handed) -> Result<ScriptTicks, Memory> {
    let mut answers = Indexes::new(alloc);
    if matches!(handed, Handed::SlowTicks) {
        for question in 1..201 {
            answers.push(u32::from(question % 20 == 0))?;
        }
    }
    Ok(ScriptTicks::new(answers))
}

fn stores(alloc: Global, handed: Handed) -> Result<MemMaker, Memory> {
    let mut stores = MemMaker::new(alloc);
    if let Handed::FailingPut(at) = handed {
        stores.fail(1, 0, at)?;
    }
    Ok(stores)
}

fn words_of(alloc: Global, words: &[u64]) -> Result<Words, Memory> {
    Ok(Words::from_vec(words.to_vec(alloc)?))
}

fn two_of_one_id(alloc: Global) -> Result<ScriptIds, Memory> {
    let mut ids = ScriptIds::new(alloc);
    ids.add(0, words_of(alloc, &TASK_WORDS)?)?;
    ids.add(2, words_of(alloc, &COORDINATOR_WORDS)?)?;
    Ok(ids)
}

// ---- what is printed

// The words of a command on the files of a folder, and a number of workers, where there is one.
fn words(
    alloc: Global,
    command: &str,
    name: &str,
    workers: Option<&str>,
) -> Result<Vec<String>, Memory> {
    let mut words = Vec::new(alloc);
    words.push(String::from_str(alloc, command)?)?;
    words.push(format!(in alloc; "{name}/topology.json")?)?;
    words.push(format!(in alloc; "{name}/input.jsonl")?)?;
    if command == "replay" {
        words.push(format!(in alloc; "{name}/schedule.txt")?)?;
    }
    if let Some(number) = workers {
        words.push(String::from_str(alloc, number)?)?;
    }
    Ok(words)
}

fn printed_by<R: Threads + Wait + Sync, H: Shelf, N: IdMaker>(
    rt: &R,
    alloc: Global,
    shelf: &mut H,
    words: &[String],
    handed: Handed,
    ids: &mut N,
) -> Result<MemSink, Memory>
where
    N::I: Send,
{
    let mut out = MemSink::new(alloc, ROOM, ROOM)?;
    let mut ticks = ticks(alloc, handed)?;
    let mut stores = stores(alloc, handed)?;
    let mut fates = Fates::new(alloc);
    let _ = storm(
        rt,
        alloc,
        words,
        shelf,
        &mut out,
        &mut ticks,
        &mut AllOpen,
        &mut stores,
        ids,
        &First,
        &OpenGate {},
        &mut fates,
    );
    Ok(out)
}

// What a command on the files of a folder prints.
fn printed<R: Threads + Wait + Sync, H: Shelf>(
    rt: &R,
    alloc: Global,
    shelf: &mut H,
    command: &str,
    name: &str,
    workers: Option<&str>,
    handed: Handed,
) -> Result<MemSink, Memory> {
    let words = words(alloc, command, name, workers)?;
    match handed {
        Handed::TwoOfOneId => {
            let mut ids = two_of_one_id(alloc)?;
            printed_by(rt, alloc, shelf, words.as_slice(), handed, &mut ids)
        }
        _ => {
            let mut ids = ChaChaMaker { key: [0; 32] };
            printed_by(rt, alloc, shelf, words.as_slice(), handed, &mut ids)
        }
    }
}

// The lines of a report but those of attempts.
fn without_attempts(alloc: Global, report: &[u8]) -> Result<String, Memory> {
    let mut left = String::new(alloc);
    if let Ok(text) = str::from_utf8(report) {
        for line in text.lines() {
            if !line.starts_with("attempt ") {
                left.push_str(line)?;
                left.push_str("\n")?;
            }
        }
    }
    Ok(left)
}

// ---- what is told

fn tell<K: Sink>(
    alloc: Global,
    out: &mut K,
    command: &str,
    name: &str,
    same: bool,
) -> Result<(), InFault> {
    let how = if same { "as expected" } else { "differs" };
    write_all(
        out,
        format!(in alloc; "{command} {name}: {how}\n")?.as_bytes(),
    )?;
    Ok(())
}

// Whether a command on a folder's files prints its tables.
fn has_tables<R: Threads + Wait + Sync, H: Shelf>(
    rt: &R,
    alloc: Global,
    shelf: &mut H,
    command: &str,
    name: &str,
    workers: Option<&str>,
    handed: Handed,
) -> Result<bool, InFault> {
    let report = printed(rt, alloc, shelf, command, name, workers, handed)?;
    let found = without_attempts(alloc, report.bytes())?;
    let file = format!(in alloc; "{name}/plain.txt")?;
    let want = read_file(alloc, shelf, file.as_str())?;
    Ok(found.as_bytes() == want.as_slice())
}

// Tells whether `plain` on a folder's files prints its tables.
fn tell_plain<R: Threads + Wait + Sync, H: Shelf, K: Sink>(
    rt: &R,
    alloc: Global,
    shelf: &mut H,
    out: &mut K,
    name: &str,
) -> Result<(), InFault> {
    let same = has_tables(rt, alloc, shelf, "plain", name, None, Handed::Nothing)?;
    tell(alloc, out, "plain", name, same)
}

// Tells whether a command on a folder's files prints its tables, by each number of workers.
fn tell_workers<R: Threads + Wait + Sync, H: Shelf, K: Sink>(
    rt: &R,
    alloc: Global,
    shelf: &mut H,
    out: &mut K,
    command: &str,
    name: &str,
    handed: Handed,
) -> Result<(), InFault> {
    let mut same = true;
    for workers in WORKERS {
        same &= has_tables(rt, alloc, shelf, command, name, Some(workers), handed)?;
    }
    let of = format!(in alloc; "{name} with 1, 2, 3 and 7 workers")?;
    tell(alloc, out, command, of.as_str(), same)
}

// Where a folder has what a command prints.
fn text_of(command: &str) -> &'static str {
    if command == "track" {
        "tracked"
    } else {
        "report"
    }
}

// Tells whether a command on a folder's files prints its report.
fn tell_report<R: Threads + Wait + Sync, H: Shelf, K: Sink>(
    rt: &R,
    alloc: Global,
    shelf: &mut H,
    out: &mut K,
    command: &str,
    name: &str,
    handed: Handed,
) -> Result<(), InFault> {
    let report = printed(rt, alloc, shelf, command, name, None, handed)?;
    let text = text_of(command);
    let file = format!(in alloc; "{name}/{text}.txt")?;
    let want = read_file(alloc, shelf, file.as_str())?;
    let same = report.bytes() == want.as_slice();
    tell(alloc, out, command, name, same)
}

fn tell_all<R: Threads + Wait + Sync, H: Shelf, K: Sink>(
    rt: &R,
    alloc: Global,
    shelf: &mut H,
    out: &mut K,
) -> Result<(), InFault> {
    for (name, handed) in OPERATIONS {
        tell_plain(rt, alloc, shelf, out, name)?;
        tell_workers(rt, alloc, shelf, out, "fold", name, handed)?;
        tell_workers(rt, alloc, shelf, out, "run", name, handed)?;
    }
    for (name, command, handed) in ENDS {
        tell_report(rt, alloc, shelf, out, command, name, handed)?;
    }
    Ok(())
}

fn main(rt: HostRuntime) -> ExitCode {
    let mut shelf = FileShelf::new(&rt);
    let mut out = OutSink::new(&rt);
    match tell_all(&rt, rt.alloc(), &mut shelf, &mut out) {
        Ok(()) => ExitCode::SUCCESS,
        Err(_) => ExitCode::from(1),
    }
}
