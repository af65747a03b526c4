//! Runs over stores that perhaps hold the cells of an earlier run.
ghost use Rattle.std.specs.Prelude.{◌≡◌, ◌≤◌, ◌<◌, ◌+◌, ℕ, List, [], Ok, IfOk, OnErr, sum};
ghost use Rattle.event_worlds.specs.attempt_fates.Fates.{IsOnce};
ghost use Rattle.event_worlds.specs.commit_order.Follows.{IsTaken};
ghost use Rattle.event_worlds.specs.commit_turns.Turns.{last_tick};
ghost use Rattle.event_worlds.specs.Accounted.{IsInput};
ghost use Rattle.event_worlds.specs.Rounds.{rounds_needed};
ghost use Rattle.event_worlds.specs.storm_values.Counts.{Rose};
ghost use Rattle.stored_runs.specs.Resuming.{HadRows, IsResumed};
ghost use Rattle.schedule_core.specs.Runs.{first_answers, ticks_between};
ghost use Rattle.stored_runs.specs.Makers.{CameBack, maker_use};
ghost use Rattle.stored_runs.specs.StoredRuns.{EndFollowed, IsAll, NothingIsInTheWay, StandBeforeLast, StandsWithoutMemory};

use crate::ending::RunEnd;
use crate::laws::laws_of_runs;
use crate::migrating::resume_parts;
use event_worlds::attempt_fates::Fates;
use event_worlds::bolt_ops::RowOp;
use event_worlds::commit_order::Follow;
use event_worlds::record_offers::Offers;
use event_worlds::state_parts::{Parts, parts_with_the_same_cells_stand};
use event_worlds::storm_ids::IdMaker;
use event_worlds::storm_values::Memory;
use event_worlds::topology_plan::Plan;
use std::alloc::Global;
use std::sync::Wait;
use std::thread::Threads;
use storm_avail::Avail;
use storm_gates::Gate;
use storm_stores::StoreMaker;
use storm_ticks::Ticks;

/// Runs a plan by so many workers as `run_over` does, over stores that perhaps hold
/// the cells of an earlier run: all cells are brought to format 2 first.
///
/// It costs what `run_over` does, and one more look at each key, with a put where its cell is of
/// format 1. Where a store fails meanwhile, or has a cell that no table takes, no attempt is begun.
/// The attempts that ended are in the fates, whatever the answer. With want of memory too all stores
/// come back. It is never `Unfinished`. The follower is told each commit that was done, and stops the
/// run where it fails.
pub fn resume_over<
    R: Threads + Wait + Sync,
    T: Ticks,
    V: Avail,
    N: IdMaker,
    M: StoreMaker,
    O: RowOp,
    G: Gate,
    W: Follow,
>(
    rt: &R,
    alloc: Global,
    plan: &Plan,
    offers: Offers,
    workers: u32,
    ticks: &mut T,
    avail: &mut V,
    ids: &mut N,
    stores: &mut M,
    custom: &O,
    gate: &G,
    follow: &mut W,
    fates: &mut Fates,
) -> Result<RunEnd, Memory>
where
    N::I: Send,
    M::C: Send,
    requires empty { fates.old ≡ [] }
    requires input { IsInput plan.now offers }
    requires takes { IsTaken (offers.start + 1) (W.takes follow.old) }
    requires some { 1 ≤ workers }
    requires few { workers ≤ 64 }

    // What the end, the fates and the stores come to.
    ensures comes { IfOk result (IsResumed (N.tells ids.old) plan.now (O.meaning custom.now) offers
        (ticks_between (T.handed_out ticks.old) (T.handed_out ticks.new))
        (maker_use M.C.tells M.C.fault_count M.holds M.has_made M.fault_count
        stores.old stores.new) fates.new) }
    ensures goes_on { (k : ℕ) → result ≡ Ok (RunEnd.Unfinished k) → ⊥ }
    ensures once { IsOnce offers last_tick fates.new }
    ensures back { CameBack plan.now
        (maker_use M.C.tells M.C.fault_count M.holds M.has_made M.fault_count
        stores.old stores.new) }
    ensures short { OnErr result (StandsWithoutMemory plan.now (O.meaning custom.now) offers
        (maker_use M.C.tells M.C.fault_count M.holds M.has_made M.fault_count
        stores.old stores.new) fates.new) }

    // All cells were looked at before an attempt was begun.
    ensures looked { (fates.new ≡ [] → ⊥) → HadRows plan.now
        (maker_use M.C.tells M.C.fault_count M.holds M.has_made M.fault_count
        stores.old stores.new) }

    // The follower was told what was committed, in order, but perhaps the last one where it failed.
    // Then the maps stand at what was committed before it too.
    ensures followed { EndFollowed W.tells W.fault_count result fates.new follow.old follow.new }
    ensures less { (txid : ℕ) → result ≡ Ok (RunEnd.Follow txid)
        → StandBeforeLast plan.now (O.meaning custom.now) offers
        (maker_use M.C.tells M.C.fault_count M.holds M.has_made M.fault_count
        stores.old stores.new) fates.new }

    // Where few ticks are to come in so many rounds as a run needs, and no partition is shut, every
    // record is committed, where nothing is in the way and the follower does not fail.
    ensures finishes { (to_come : List ℕ) → T.tells ticks.old to_come
        → (0 < plan.now.partitions → V.tells avail.old [])
        → NothingIsInTheWay plan.now (O.meaning custom.now) offers
        (maker_use M.C.tells M.C.fault_count M.holds M.has_made M.fault_count
        stores.old stores.new) fates.new
        → (Rose (W.fault_count follow.old) (W.fault_count follow.new) → ⊥)
        → sum (first_answers (rounds_needed plan.now (O.meaning custom.now) offers) to_come)
        < plan.now.buckets → IfOk result IsAll }
{
    laws_of_runs::<M::C>();
    parts_with_the_same_cells_stand::<M::C>();
    let mut parts = Parts::make(alloc, plan, stores)?;
    let ended = resume_parts(
        rt, alloc, plan, offers, workers, ticks, avail, ids, &mut parts, custom, gate, follow,
        fates,
    );
    parts.give_back(stores);
    ended
}
