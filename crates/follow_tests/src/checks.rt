// What is checked of runs with a listener.
ghost use Rattle.std.specs.Prelude.{◌≡◌, ◌+◌, [], Some};
ghost use Rattle.event_worlds.specs.commit_order.Follows.{IsTaken};

use crate::listener::{Line, Listener};
use crate::scenes::{LAST, Scene, are_whole, case_of, gone_after, offers_after, plan_of};
use crate::ways::{Way, run};
use event_worlds::attempt_fates::{Attempt, End, Fates};
use event_worlds::commit_order::{Follow, NoFollow};
use event_worlds::record_spans::Spans;
use event_worlds::topology_plan::Plan;
use std::alloc::Global;
use std::sync::Wait;
use std::thread::Threads;
use stored_runs::RunEnd;
use storm_stores::MemMaker;
use test_kit::Mismatch;

// ---- ends

fn is_commit(attempt: &Attempt, txid: u64) -> bool {
    attempt.root.txid == txid && matches!(attempt.end, End::Committed(_))
}

// Whether each attempt was committed, those of the transactions after a start.
fn are_commits(fates: &[Attempt], start: u64) -> bool {
    for (place, attempt) in fates.iter().enumerate() {
        let txid = start.saturating_add(place as u64).saturating_add(1);
        if !is_commit(attempt, txid) {
            return false;
        }
    }
    true
}

fn is_told(line: &Line, attempt: &Attempt) -> bool {
    line.txid == attempt.root.txid && line.spans.as_slice() == attempt.spans.as_slice()
}

// Whether these are lines of the first attempts.
fn are_told(lines: &[Line], fates: &[Attempt]) -> bool {
    for (line, attempt) in lines.iter().zip(fates) {
        if !is_told(line, attempt) {
            return false;
        }
    }
    lines.len() <= fates.len()
}

fn check(alloc: Global, holds: bool, of: &str) -> Result<(), Mismatch> {
    if holds {
        Ok(())
    } else {
        Err(case_of(alloc, of))
    }
}

// So many transactions were committed after a start, and the listener was told so many of them.
fn check_told(
    alloc: Global,
    listener: &Listener,
    fates: &Fates,
    start: u64,
    commits: u64,
    told: u64,
) -> Result<(), Mismatch> {
    let (lines, fates) = (listener.lines.as_slice(), fates.as_slice());
    let counted = fates.len() as u64 == commits && lines.len() as u64 == told;
    check(alloc, counted, "commits")?;
    check(alloc, are_commits(fates, start), "ends")?;
    check(alloc, are_told(lines, fates), "lines")
}

fn is_follow(ended: &RunEnd, at: u64) -> bool {
    match ended {
        RunEnd::Follow(txid) => *txid == at,
        _ => false,
    }
}

fn is_all(ended: &RunEnd) -> bool {
    match ended {
        RunEnd::All(tables) => are_whole(tables),
        _ => false,
    }
}

// ---- runs

// A run from the first record on, with a listener.
fn run_first<R: Threads + Wait + Sync>(
    rt: &R,
    alloc: Global,
    scene: Scene,
    way: Way,
    plan: &Plan,
    stores: &mut MemMaker,
    listener: &mut Listener,
    fates: &mut Fates,
) -> Result<RunEnd, Mismatch>
    requires empty { fates.old ≡ [] }
    requires takes { ⟦<Listener as Follow>⟧.takes listener.old ≡ Some 1 }
{
    let offers = offers_after(alloc, plan, 0, &Spans::new(alloc))?;
    run(rt, alloc, scene, way, plan, offers, stores, listener, fates)
}

// Runs until a listener fails at a commit, which it keeps or not.
fn stop_at<R: Threads + Wait + Sync>(
    rt: &R,
    alloc: Global,
    scene: Scene,
    way: Way,
    plan: &Plan,
    stores: &mut MemMaker,
    at: u64,
    keeps: bool,
) -> Result<Listener, Mismatch> {
    let mut fates = Fates::new(alloc);
    let mut listener = Listener::new(alloc, 0, at, keeps);
    let ended = run_first(
        rt,
        alloc,
        scene,
        way,
        plan,
        stores,
        &mut listener,
        &mut fates,
    )?;
    check(alloc, is_follow(&ended, at), "end")?;
    check(alloc, listener.faults == 1, "faults")?;
    let told = if keeps { at } else { at.saturating_sub(1) };
    check_told(alloc, &listener, &fates, 0, at, told)?;
    Ok(listener)
}

// A run after the last transaction that a listener was told, over what it left.
fn run_later<R: Threads + Wait + Sync, W: Follow>(
    rt: &R,
    alloc: Global,
    scene: Scene,
    way: Way,
    plan: &Plan,
    stores: &mut MemMaker,
    listener: &Listener,
    follow: &mut W,
    fates: &mut Fates,
) -> Result<RunEnd, Mismatch>
    requires empty { fates.old ≡ [] }
    requires takes { IsTaken (listener.now.last + 1) (W.takes follow.old) }
{
    let gone = gone_after(alloc, plan, listener.lines.as_slice())?;
    let offers = offers_after(alloc, plan, listener.last, &gone)?;
    run(rt, alloc, scene, way, plan, offers, stores, follow, fates)
}

// It has the tables of all records.
fn go_on<R: Threads + Wait + Sync>(
    rt: &R,
    alloc: Global,
    scene: Scene,
    way: Way,
    plan: &Plan,
    stores: &mut MemMaker,
    listener: &Listener,
) -> Result<(), Mismatch> {
    let mut fates = Fates::new(alloc);
    let ended = run_later(
        rt,
        alloc,
        scene,
        way,
        plan,
        stores,
        listener,
        &mut NoFollow,
        &mut fates,
    )?;
    check(alloc, is_all(&ended), "tables")
}

// So it has with a listener, which is told the transactions that are left, so many.
fn go_on_told<R: Threads + Wait + Sync>(
    rt: &R,
    alloc: Global,
    scene: Scene,
    way: Way,
    plan: &Plan,
    stores: &mut MemMaker,
    listener: &Listener,
    left: u64,
) -> Result<(), Mismatch> {
    let mut fates = Fates::new(alloc);
    let mut later = Listener::new(alloc, listener.last, 0, true);
    let ended = run_later(
        rt, alloc, scene, way, plan, stores, listener, &mut later, &mut fates,
    )?;
    check(alloc, is_all(&ended), "later tables")?;
    check_told(alloc, &later, &fates, listener.last, left, left)
}

/// A listener fails at the commit of a transaction, which it keeps or not. A later run goes on
/// after the last one that it was told, over the same stores, and has the tables of all records.
pub fn check_stop<R: Threads + Wait + Sync>(
    rt: &R,
    alloc: Global,
    scene: Scene,
    way: Way,
    at: u64,
    keeps: bool,
) -> Result<(), Mismatch> {
    let plan = plan_of(alloc, scene.topology)?;
    let mut stores = MemMaker::new(alloc);
    let listener = stop_at(rt, alloc, scene, way, &plan, &mut stores, at, keeps)?;
    go_on(rt, alloc, scene, way, &plan, &mut stores, &listener)
}

/// A listener keeps the commit of the second transaction and fails. The listener of a later run is
/// told the third and the last.
pub fn check_later<R: Threads + Wait + Sync>(
    rt: &R,
    alloc: Global,
    scene: Scene,
    way: Way,
) -> Result<(), Mismatch> {
    let plan = plan_of(alloc, scene.topology)?;
    let mut stores = MemMaker::new(alloc);
    let listener = stop_at(rt, alloc, scene, way, &plan, &mut stores, 2, true)?;
    go_on_told(rt, alloc, scene, way, &plan, &mut stores, &listener, 2)
}

/// A listener that does not fail is told the transactions from 1 to the last.
pub fn check_whole<R: Threads + Wait + Sync>(
    rt: &R,
    alloc: Global,
    scene: Scene,
    way: Way,
) -> Result<(), Mismatch> {
    let plan = plan_of(alloc, scene.topology)?;
    let mut stores = MemMaker::new(alloc);
    let mut fates = Fates::new(alloc);
    let mut listener = Listener::new(alloc, 0, 0, true);
    let ended = run_first(
        rt,
        alloc,
        scene,
        way,
        &plan,
        &mut stores,
        &mut listener,
        &mut fates,
    )?;
    check(alloc, is_all(&ended), "tables")?;
    check(alloc, listener.faults == 0, "faults")?;
    check_told(alloc, &listener, &fates, 0, LAST, LAST)
}
