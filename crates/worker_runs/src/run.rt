//! A run of workers over what a spout offers, until all is over.
ghost use Rattle.std.specs.Prelude.{◌≡◌, ◌≤◌, ◌<◌, ◌+◌, ℕ, List, [], true, All, Err, OnOk, OnErr, length, sum};
ghost use Rattle.event_worlds.specs.attempt_fates.Fates.{IsOnce};
ghost use Rattle.worker_rounds.specs.batch_commits.Standing.{failed_commits};
ghost use Rattle.worker_stretches.specs.box_account.Telling.{BoxesTell};
ghost use Rattle.worker_stretches.specs.box_rows.FitRows.{IsFitRow};
ghost use Rattle.event_worlds.specs.commit_order.Follows.{IsTaken};
ghost use Rattle.event_worlds.specs.commit_order.declared.stop.Stop.TheVariants as stop;
ghost use Rattle.event_worlds.specs.commit_turns.Turns.{last_tick};
ghost use Rattle.worker_stretches.specs.event_engine.Engines.{IsStill, cut_in, has_ended};
ghost use Rattle.event_worlds.specs.Accounted.{IsInput};
ghost use Rattle.event_worlds.specs.Rounds.{CanFinish, DoesNotCoincide, rounds_needed};
ghost use Rattle.worker_rounds.specs.schedule_core.Driving.{AreKept};
ghost use Rattle.worker_rounds.specs.schedule_core.Following.{Followed, RunFollowed, StandLess, next_txid};
ghost use Rattle.worker_rounds.specs.schedule_core.Runs.{ended, first_answers, ticks_between};
ghost use Rattle.worker_rounds.specs.schedule_core.Schedules.{HadMemory};
ghost use Rattle.event_worlds.specs.state_parts.PartPlans.{AreParts};
ghost use Rattle.worker_rounds.specs.Running.{IsGathered, WasStopped};
ghost use Rattle.worker_runs.specs.Going.{IsAllBack, RanOn};
ghost use Rattle.worker_runs.specs.WorkerRuns.{AreFirstBoxes, DrewEach, IsFirstSeat, NothingRanOut, WorkersCome};
ghost use Rattle.worker_stretches.specs.Parts.{IsWholeSeat};
ghost use Rattle.worker_stretches.specs.Standing.{GoesOn};

use crate::laws::laws_of_workers;
use event_worlds::attempt_fates::Fates;
use event_worlds::bolt_ops::RowOp;
use event_worlds::commit_order::{Follow, Stop};
use event_worlds::record_offers::Offers;
use event_worlds::state_parts::Parts;
use event_worlds::storm_ids::{IdMaker, Ids};
use event_worlds::storm_values::Memory;
use event_worlds::topology_plan::Plan;
use pulse_board::{Board, BoardSeat};
use std::alloc::Global;
use std::sync::Wait;
use std::thread::Threads;
use storm_avail::Avail;
use storm_gates::Gate;
use storm_stores::CellStore;
use storm_ticks::Ticks;
use worker_rounds::caller_round;
use worker_rounds::schedule_core::{RunFault, end_run, laws_of_runs, laws_of_steps};
use worker_rounds::worker_turns::sweep;
use worker_stretches::box_rows::{Boxes, Posts, Row};
use worker_stretches::event_engine::Engine;
use worker_stretches::stretch_once;
use worker_stretches::world_progress::{
    no_attempt_aborts_with_partitions, what_can_be_done_is_bounded,
};

// How many of the workers get a task or an acker.
fn needed(plan: &Plan, workers: u32) -> u32
    requires { 1 ≤ workers }
    ensures some { 1 ≤ result }
    ensures few { result ≤ workers }
{
    let desks = plan.tasks().saturating_add(plan.ackers());
    workers.min(desks.max(1))
}

// A stretch of so many workers; what waits after it comes to inboxes.
fn work<'p, I: Ids + Send, R: Threads + Wait + Sync, O: RowOp, G: Gate>(
    rt: &R,
    alloc: Global,
    posts: &Posts<'_>,
    board: &Board,
    row: &mut Row,
    seat: &mut BoardSeat,
    engine: &mut Engine<'p, I>,
    workers: u32,
    custom: &O,
    gate: &G,
) -> Result<(), Memory>
    requires gathered { IsGathered posts.now.plan.now (cut_in engine.old) posts.now.boxes.items
        board.now engine.old row.old.items seat.old }
    requires some { 1 ≤ workers }
    requires few { workers ≤ 64 }
    ensures gathered { OnOk result (IsGathered posts.now.plan.now (cut_in engine.old)
        posts.now.boxes.items board.now engine.new row.new.items seat.new) }
    ensures still { IsStill engine.old engine.new }
    ensures ticks { OnOk result (engine.new.tick ≡ engine.old.tick) }
    ensures goes { OnOk result (GoesOn I.tells posts.now.plan.now (O.meaning custom.now)
        (cut_in engine.old) 0 engine.old engine.new row.old.items row.new.items [] []) }
{
    stretch_once(
        rt, alloc, posts, board, row, seat, engine, workers, custom, gate,
    )?;
    sweep(rt, alloc, posts, row, engine)?;
    Ok(())
}

// Whether the coordinator has something to do at once: a verdict waits, or it has just committed,
// so that a settled attempt may be next.
fn has_more<I: Ids>(engine: &Engine<'_, I>, committed: u64) -> bool {
    engine.has_verdict() | (engine.committed_count() != committed)
}

// A stretch, unless the coordinator has something to do at once.
fn work_unless<'p, I: Ids + Send, R: Threads + Wait + Sync, O: RowOp, G: Gate>(
    busy: bool,
    rt: &R,
    alloc: Global,
    posts: &Posts<'_>,
    board: &Board,
    row: &mut Row,
    seat: &mut BoardSeat,
    engine: &mut Engine<'p, I>,
    workers: u32,
    custom: &O,
    gate: &G,
) -> Result<(), Memory>
    requires gathered { IsGathered posts.now.plan.now (cut_in engine.old) posts.now.boxes.items
        board.now engine.old row.old.items seat.old }
    requires some { 1 ≤ workers }
    requires few { workers ≤ 64 }
    ensures gathered { OnOk result (IsGathered posts.now.plan.now (cut_in engine.old)
        posts.now.boxes.items board.now engine.new row.new.items seat.new) }
    ensures still { IsStill engine.old engine.new }
    ensures ticks { OnOk result (engine.new.tick ≡ engine.old.tick) }
    ensures goes { OnOk result (GoesOn I.tells posts.now.plan.now (O.meaning custom.now)
        (cut_in engine.old) 0 engine.old engine.new row.old.items row.new.items [] []) }
{
    if busy {
        return Ok(());
    }
    work(
        rt, alloc, posts, board, row, seat, engine, workers, custom, gate,
    )
}

// Rounds of the caller, and stretches between them where the coordinator has nothing to do at once,
// until all is over.
fn run_on<
    'p,
    I: Ids + Send,
    R: Threads + Wait + Sync,
    T: Ticks,
    V: Avail,
    C: CellStore + Send,
    O: RowOp,
    G: Gate,
    W: Follow,
>(
    rt: &R,
    alloc: Global,
    posts: &Posts<'_>,
    board: &Board,
    row: &mut Row,
    seat: &mut BoardSeat,
    engine: &mut Engine<'p, I>,
    workers: u32,
    ticks: &mut T,
    avail: &mut V,
    parts: &mut Parts<C>,
    custom: &O,
    gate: &G,
    follow: &mut W,
) -> Result<(), RunFault>
    requires gathered { IsGathered posts.now.plan.now (cut_in engine.old) posts.now.boxes.items
        board.now engine.old row.old.items seat.old }
    requires no_tick { engine.old.tick ≡ 0 }
    requires parts { AreParts posts.now.plan.now parts.old }
    requires some { 1 ≤ workers }
    requires few { workers ≤ 64 }
    requires takes { IsTaken (next_txid (cut_in engine.old) engine.old.fates)
        (W.takes follow.old) }
    ensures gathered { OnOk result (IsGathered posts.now.plan.now (cut_in engine.old)
        posts.now.boxes.items board.now engine.new row.new.items seat.new) }
    ensures over { OnOk result (has_ended engine.new ≡ true) }
    ensures back { WasStopped result
        → IsAllBack posts.now.plan.now posts.now.boxes.items board.now row.new.items seat.new
        (ticks_between (T.handed_out ticks.old) (T.handed_out ticks.new)) }
    ensures ran { RanOn I.tells C.tells C.fault_count T.handed_out T.tells posts.now.plan.now
        (O.meaning custom.now) (cut_in engine.old)
        (0 < posts.now.plan.now.partitions → V.tells avail.old []) V.tells result engine.old
        engine.new row.old.items row.new.items parts.old parts.new ticks.old ticks.new avail.old
        avail.new }
    ensures once { OnErr result (IsOnce (cut_in engine.old) last_tick engine.new.fates) }
    ensures kept { AreKept C.tells parts.old parts.new }
    ensures followed { Followed W.tells W.fault_count result
        engine.old.fates engine.new.fates follow.old follow.new }
{
    // laws: how steps add up, and how much can be done
    laws_of_steps::<C>();
    what_can_be_done_is_bounded();
    no_attempt_aborts_with_partitions();
    for _ in rt.forever() {
        if engine.is_over() {
            return Ok(());
        }
        let committed = engine.committed_count();
        let passed = ticks.passed();
        let shut = avail.shut();
        caller_round(
            rt,
            alloc,
            posts,
            board,
            row,
            seat,
            engine,
            parts,
            workers as usize,
            passed,
            shut,
            custom,
            gate,
            follow,
        )?;
        let busy = has_more(engine, committed);
        work_unless(
            busy, rt, alloc, posts, board, row, seat, engine, workers, custom, gate,
        )?;
    }
    unreachable!()
}

/// Runs a plan over what a spout offers from a start on by so many workers on threads, until no
/// record is left uncommitted or as many attempts of a transaction aborted as the plan allows.
///
/// Before each step of the coordinator it asks once how many ticks passed, and the board is raised
/// by the answer, and once which partitions are shut. Every tuple, note and verdict goes through
/// the boxes. Nothing says that it ends. The attempts that ended are in the fates, whatever the
/// answer. The follower is told each commit that was done, and stops the run where it fails.
pub fn run_workers<
    R: Threads + Wait + Sync,
    T: Ticks,
    V: Avail,
    N: IdMaker,
    C: CellStore + Send,
    O: RowOp,
    G: Gate,
    W: Follow,
>(
    rt: &R,
    alloc: Global,
    plan: &Plan,
    offers: Offers,
    workers: u32,
    boxes: &mut Boxes<'_>,
    board: &Board,
    seat: &mut BoardSeat,
    ticks: &mut T,
    avail: &mut V,
    ids: &mut N,
    parts: &mut Parts<C>,
    custom: &O,
    gate: &G,
    follow: &mut W,
    fates: &mut Fates,
) -> Result<(), Stop>
where
    N::I: Send,
    requires empty { fates.old ≡ [] }
    requires input { IsInput plan.now offers }
    requires parts { AreParts plan.now parts.old }
    requires some { 1 ≤ workers }
    requires few { workers ≤ 64 }
    requires boxes { AreFirstBoxes plan.now boxes.old }
    requires seat { IsFirstSeat board.now seat.old }
    requires takes { IsTaken (offers.start + 1) (W.takes follow.old) }

    // What the answer, the fates, the ticks and the parts come to.
    ensures comes { WorkersCome (N.tells ids.old) (T.tells ticks.old) (V.tells avail.old) C.tells
        C.fault_count plan.now (O.meaning custom.now) offers (T.handed_out ticks.old)
        (T.handed_out ticks.new) result fates.new parts.old parts.new }

    // Where few ticks are to come in so many rounds as a run needs, and no partition is shut, no
    // transaction runs out of attempts, where every bolt lets batches through, no ids coincide and
    // no commit fails.
    ensures finishes { (to_come : List ℕ) → T.tells ticks.old to_come
        → (0 < plan.now.partitions → V.tells avail.old []) → CanFinish plan.now
        → All DoesNotCoincide fates.new → failed_commits fates.new ≡ 0
        → sum (first_answers (rounds_needed plan.now (O.meaning custom.now) offers) to_come)
        < plan.now.buckets → NothingRanOut result }

    // What was taken from boxes tells of the end of each attempt.
    ensures row { HadMemory (ended result)
        → IsFitRow plan.now boxes.new.posts.boxes.items boxes.new.row.items }
    ensures books { HadMemory (ended result)
        → BoxesTell plan.now (O.meaning custom.now) offers boxes.new.row.items fates.new }

    // The board was raised by each tick.
    ensures seat { HadMemory (ended result) → IsWholeSeat board.now seat.new }
    ensures ticked { HadMemory (ended result)
        → DrewEach (ticks_between (T.handed_out ticks.old) (T.handed_out ticks.new)) seat.new }

    // The follower was told what was committed, in order, but perhaps the last one where it failed.
    ensures followed { RunFollowed W.tells W.fault_count (ended result) fates.new
        follow.old follow.new }
    ensures less { (txid : ℕ) → result ≡ Err (stop.Follow txid)
        → StandLess C.tells plan.now (O.meaning custom.now) offers fates.new parts.old parts.new }
{
    // laws: where a run begins, how steps add up, and what boxes tell at its end
    laws_of_runs::<C>();
    laws_of_steps::<C>();
    laws_of_workers();
    let mut engine = match Engine::start(alloc, plan, offers, ids) {
        Ok(engine) => engine,
        Err(_) => return Err(Stop::Memory),
    };
    let workers = needed(plan, workers);
    let done = run_on(
        rt,
        alloc,
        &boxes.posts,
        board,
        &mut boxes.row,
        seat,
        &mut engine,
        workers,
        ticks,
        avail,
        parts,
        custom,
        gate,
        follow,
    );
    end_run(done, engine, fates)?;
    Ok(())
}
