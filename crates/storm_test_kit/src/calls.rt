// Calls of `storm` over what is outside in memory.
use crate::outside::{Outside, scripted_ids, scripted_ticks, shelf, sink, stores, taken};
use crate::scenes::{Scene, owned};
use bolt_ops::RowOp;
use sample_operations::Backwards;
use std::alloc::Global;
use std::sync::Wait;
use std::thread::Threads;
use storm_avail::AllOpen;
use storm_gates::{Gate, OpenGate};
use storm_ids::{ChaChaMaker, IdMaker};
use storm_program::{Attempt, End, Fates, Status, storm};
use storm_values::{Memory, Root, Seq};
use test_kit::{Mismatch, compare, lines_without};

/// An attempt of a call's fates, without what was told of its tuples.
#[derive(Clone, Copy, Debug, PartialEq, Eq)]
pub struct Fate {
    pub root: Root,
    // of the first and of the last of so many spans
    pub first: u64,
    pub last: u64,
    pub spans: usize,
    pub start: u64,
    pub finish: u64,
    pub committed: bool,
}

/// What a call answered, what it wrote, its fates, and how often the stores that came back have
/// failed.
#[derive(Debug, Drop)]
pub struct Told {
    pub status: Status,
    pub text: String,
    pub fates: Seq<Fate>,
    pub store_faults: u64,
}

/// Calls `storm`.
pub fn call<R: Threads + Wait + Sync>(
    rt: &R,
    alloc: Global,
    scene: Scene<'_>,
    outside: Outside<'_>,
) -> Result<Told, Mismatch> {
    call_behind(rt, alloc, scene, outside, &OpenGate {})
}

/// Calls `storm` with a gate.
pub fn call_behind<R: Threads + Wait + Sync, G: Gate>(
    rt: &R,
    alloc: Global,
    scene: Scene<'_>,
    outside: Outside<'_>,
    gate: &G,
) -> Result<Told, Mismatch> {
    match outside.words {
        Some(script) => {
            let mut ids = scripted_ids(alloc, script)?;
            call_with(rt, alloc, scene, outside, &mut ids, &Backwards, gate)
        }
        None => {
            let mut ids = ChaChaMaker { key: [0; 32] };
            call_with(rt, alloc, scene, outside, &mut ids, &Backwards, gate)
        }
    }
}

/// Calls `storm` with an operation for `custom` bolts, and the ids of the program.
pub fn call_custom<R: Threads + Wait + Sync, O: RowOp>(
    rt: &R,
    alloc: Global,
    scene: Scene<'_>,
    outside: Outside<'_>,
    custom: &O,
) -> Result<Told, Mismatch> {
    let mut ids = ChaChaMaker { key: [0; 32] };
    call_with(rt, alloc, scene, outside, &mut ids, custom, &OpenGate {})
}

fn call_with<R: Threads + Wait + Sync, N: IdMaker, O: RowOp, G: Gate>(
    rt: &R,
    alloc: Global,
    scene: Scene<'_>,
    outside: Outside<'_>,
    ids: &mut N,
    custom: &O,
    gate: &G,
) -> Result<Told, Mismatch>
where
    N::I: Send,
{
    let words = owned(alloc, scene.words)?;
    let mut shelf = shelf(alloc, scene, outside)?;
    let mut sink = sink(alloc, outside)?;
    let mut ticks = scripted_ticks(alloc, outside.ticks)?;
    let mut stores = stores(alloc, outside)?;
    let mut fates = Fates::new(alloc);
    let status = storm(
        rt,
        alloc,
        words.as_slice(),
        &mut shelf,
        &mut sink,
        &mut ticks,
        &mut AllOpen,
        &mut stores,
        ids,
        custom,
        gate,
        &mut fates,
    );
    Ok(Told {
        status,
        text: taken(alloc, &sink)?,
        fates: fates_told(alloc, &fates)?,
        store_faults: stores.faults(),
    })
}

fn fates_told(alloc: Global, fates: &Fates) -> Result<Seq<Fate>, Memory> {
    let mut told = Seq::new(alloc);
    for attempt in fates.as_slice() {
        told.push(fate_of(attempt))?;
    }
    Ok(told)
}

fn fate_of(attempt: &Attempt) -> Fate {
    let spans = attempt.spans.as_slice();
    Fate {
        root: attempt.root,
        first: spans.first().map_or(0, |span| span.first),
        last: spans.last().map_or(0, |span| span.last),
        spans: spans.len(),
        start: attempt.start,
        finish: attempt.finish,
        committed: matches!(attempt.end, End::Committed(_)),
    }
}

/// Calls `storm`, which ends with this status and writes this text.
pub fn check_call<R: Threads + Wait + Sync>(
    rt: &R,
    alloc: Global,
    scene: Scene<'_>,
    outside: Outside<'_>,
    code: u8,
    want: &str,
) -> Result<(), Mismatch> {
    check_answer(alloc, &call(rt, alloc, scene, outside)?, code, want)
}

/// Calls `storm`, which ends with this status, writes this text, tells no fate of an attempt, and
/// lets no store fail.
pub fn check_refusal<R: Threads + Wait + Sync>(
    rt: &R,
    alloc: Global,
    scene: Scene<'_>,
    outside: Outside<'_>,
    code: u8,
    want: &str,
) -> Result<(), Mismatch> {
    let told = call(rt, alloc, scene, outside)?;
    check_answer(alloc, &told, code, want)?;
    if told.fates.is_empty() && told.store_faults == 0 {
        Ok(())
    } else {
        bad_case(alloc, "fates of a refusal")
    }
}

/// Calls `storm`, which ends with this status, writes this text, and whose stores have failed so
/// often when they came back.
pub fn check_faults<R: Threads + Wait + Sync>(
    rt: &R,
    alloc: Global,
    scene: Scene<'_>,
    outside: Outside<'_>,
    faults: u64,
    code: u8,
    want: &str,
) -> Result<(), Mismatch> {
    let told = call(rt, alloc, scene, outside)?;
    check_answer(alloc, &told, code, want)?;
    if told.store_faults == faults {
        Ok(())
    } else {
        bad_case(alloc, "faults of stores")
    }
}

/// Calls `storm`, which ends with status 0 and writes these lines but for those of attempts.
pub fn check_tables<R: Threads + Wait + Sync>(
    rt: &R,
    alloc: Global,
    scene: Scene<'_>,
    outside: Outside<'_>,
    want: &str,
) -> Result<(), Mismatch> {
    let told = call(rt, alloc, scene, outside)?;
    let lines = lines_without(alloc, told.text.as_str(), "attempt ")?;
    compare(alloc, "tables", lines.as_str(), want)?;
    if told.status == Status::Done {
        Ok(())
    } else {
        bad_case(alloc, want)
    }
}

/// Whether a call ended with this status and wrote this text.
pub fn check_answer(alloc: Global, told: &Told, code: u8, want: &str) -> Result<(), Mismatch> {
    compare(alloc, "a call", told.text.as_str(), want)?;
    if told.status.code() == code {
        Ok(())
    } else {
        bad_case(alloc, want)
    }
}

fn bad_case(alloc: Global, case: &str) -> Result<(), Mismatch> {
    Err(Mismatch::Case(String::from_str(alloc, case)?))
}
