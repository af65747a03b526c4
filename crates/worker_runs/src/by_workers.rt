//! A run of workers over boxes and a board that are made for it.
ghost use Rattle.std.specs.Prelude.{◌≡◌, ◌≤◌, ◌<◌, ◌+◌, ℕ, List, [], All, Err, sum};
ghost use Rattle.worker_rounds.specs.batch_commits.Standing.{failed_commits};
ghost use Rattle.event_worlds.specs.Accounted.{IsInput};
ghost use Rattle.event_worlds.specs.Rounds.{CanFinish, DoesNotCoincide, rounds_needed};
ghost use Rattle.event_worlds.specs.commit_order.Follows.{IsTaken};
ghost use Rattle.event_worlds.specs.commit_order.declared.stop.Stop.TheVariants as stop;
ghost use Rattle.worker_rounds.specs.schedule_core.Following.{RunFollowed, StandLess};
ghost use Rattle.worker_rounds.specs.schedule_core.Runs.{ended, first_answers};
ghost use Rattle.event_worlds.specs.state_parts.PartPlans.{AreParts};
ghost use Rattle.worker_runs.specs.WorkerRuns.{NothingRanOut, WorkersCome};

use crate::run::run_workers;
use event_worlds::attempt_fates::Fates;
use event_worlds::bolt_ops::RowOp;
use event_worlds::commit_order::{Follow, Stop};
use event_worlds::record_offers::Offers;
use event_worlds::state_parts::Parts;
use event_worlds::storm_ids::IdMaker;
use event_worlds::topology_plan::Plan;
use pulse_board::Board;
use std::alloc::Global;
use std::sync::Wait;
use std::thread::Threads;
use storm_avail::Avail;
use storm_gates::Gate;
use storm_stores::CellStore;
use storm_ticks::Ticks;
use worker_rounds::schedule_core::laws_of_runs;
use worker_stretches::box_rows::Boxes;

/// Makes the boxes of a plan and a board, and runs the plan over them as `run_workers` does.
pub fn run_by_workers<
    R: Threads + Wait + Sync,
    T: Ticks,
    V: Avail,
    N: IdMaker,
    C: CellStore + Send,
    O: RowOp,
    G: Gate,
    W: Follow,
>(
    rt: &R,
    alloc: Global,
    plan: &Plan,
    offers: Offers,
    workers: u32,
    ticks: &mut T,
    avail: &mut V,
    ids: &mut N,
    parts: &mut Parts<C>,
    custom: &O,
    gate: &G,
    follow: &mut W,
    fates: &mut Fates,
) -> Result<(), Stop>
where
    N::I: Send,
    requires empty { fates.old ≡ [] }
    requires input { IsInput plan.now offers }
    requires parts { AreParts plan.now parts.old }
    requires some { 1 ≤ workers }
    requires few { workers ≤ 64 }
    requires takes { IsTaken (offers.start + 1) (W.takes follow.old) }

    // What the answer, the fates, the ticks and the parts come to.
    ensures comes { WorkersCome (N.tells ids.old) (T.tells ticks.old) (V.tells avail.old) C.tells
        C.fault_count plan.now (O.meaning custom.now) offers (T.handed_out ticks.old)
        (T.handed_out ticks.new) result fates.new parts.old parts.new }

    // Where few ticks are to come in so many rounds as a run needs, and no partition is shut, no
    // transaction runs out of attempts, where every bolt lets batches through, no ids coincide and
    // no commit fails.
    ensures finishes { (to_come : List ℕ) → T.tells ticks.old to_come
        → (0 < plan.now.partitions → V.tells avail.old []) → CanFinish plan.now
        → All DoesNotCoincide fates.new → failed_commits fates.new ≡ 0
        → sum (first_answers (rounds_needed plan.now (O.meaning custom.now) offers) to_come)
        < plan.now.buckets → NothingRanOut result }

    // The follower was told what was committed, in order, but perhaps the last one where it failed.
    ensures followed { RunFollowed W.tells W.fault_count (ended result) fates.new
        follow.old follow.new }
    ensures less { (txid : ℕ) → result ≡ Err (stop.Follow txid)
        → StandLess C.tells plan.now (O.meaning custom.now) offers fates.new parts.old parts.new }
{
    // a law: what no run was begun of
    laws_of_runs::<C>();
    let mut boxes = match Boxes::new(alloc, plan) {
        Ok(boxes) => boxes,
        Err(_) => return Err(Stop::Memory),
    };
    let (board, mut seat) = match Board::new(alloc) {
        Ok(made) => made,
        Err(_) => return Err(Stop::Memory),
    };
    run_workers(
        rt, alloc, plan, offers, workers, &mut boxes, &board, &mut seat, ticks, avail, ids, parts,
        custom, gate, follow, fates,
    )
}
