//! A run over parts: by rounds for one worker, and by workers on threads for more.
ghost use Rattle.std.specs.Prelude.{◌≡◌, ◌≤◌, ◌<◌, ◌+◌, ℕ, List, [], All, sum};
ghost use Rattle.batch_commits.specs.Standing.{failed_commits};
ghost use Rattle.event_worlds.specs.commit_order.Follows.{IsTaken};
ghost use Rattle.event_worlds.specs.Accounted.{IsInput};
ghost use Rattle.event_worlds.specs.Rounds.{CanFinish, DoesNotCoincide, rounds_needed};
ghost use Rattle.event_worlds.specs.state_parts.PartPlans.{AreParts};
ghost use Rattle.stored_runs.specs.OverParts.{Runs};
ghost use Rattle.schedule_core.specs.Following.{RunFollowed};
ghost use Rattle.schedule_core.specs.Runs.{ended, first_answers, ticks_between};
ghost use Rattle.worker_runs.specs.WorkerRuns.{NothingRanOut};

use crate::laws::laws_of_runs;
use event_worlds::attempt_fates::Fates;
use event_worlds::bolt_ops::RowOp;
use event_worlds::commit_order::{Follow, Stop};
use event_worlds::record_offers::Offers;
use event_worlds::state_parts::Parts;
use event_worlds::storm_ids::IdMaker;
use event_worlds::topology_plan::Plan;
use schedule_core::run_rounds;
use std::alloc::Global;
use std::sync::Wait;
use std::thread::Threads;
use storm_avail::Avail;
use storm_gates::Gate;
use storm_stores::CellStore;
use storm_ticks::Ticks;
use worker_runs::run_by_workers;

/// Runs a plan by so many workers over parts, until no record is left uncommitted or as many
/// attempts of a transaction aborted as the plan allows. One worker goes by rounds on the caller's
/// thread.
pub(crate) fn run_over_parts<
    R: Threads + Wait + Sync,
    T: Ticks,
    V: Avail,
    N: IdMaker,
    C: CellStore + Send,
    O: RowOp,
    G: Gate,
    W: Follow,
>(
    rt: &R,
    alloc: Global,
    plan: &Plan,
    offers: Offers,
    workers: u32,
    ticks: &mut T,
    avail: &mut V,
    ids: &mut N,
    parts: &mut Parts<C>,
    custom: &O,
    gate: &G,
    follow: &mut W,
    fates: &mut Fates,
) -> Result<(), Stop>
where
    N::I: Send,
    requires empty { fates.old ≡ [] }
    requires input { IsInput plan.now offers }
    requires parts { AreParts plan.now parts.old }
    requires takes { IsTaken (offers.start + 1) (W.takes follow.old) }
    requires some { 1 ≤ workers }
    requires few { workers ≤ 64 }

    // What the answer, the fates, the ticks and the parts come to.
    ensures runs { Runs (N.tells ids.old) C.tells C.fault_count plan.now (O.meaning custom.now)
        offers (ticks_between (T.handed_out ticks.old) (T.handed_out ticks.new)) result fates.new
        parts.old parts.new }
    ensures followed { RunFollowed W.tells W.fault_count (ended result) fates.new
        follow.old follow.new }

    // Where few ticks are to come in so many rounds as a run needs, and no partition is shut, no
    // transaction runs out of attempts, where every bolt lets batches through, no ids coincide and
    // no commit fails.
    ensures finishes { (to_come : List ℕ) → T.tells ticks.old to_come
        → (0 < plan.now.partitions → V.tells avail.old []) → CanFinish plan.now
        → All DoesNotCoincide fates.new → failed_commits fates.new ≡ 0
        → sum (first_answers (rounds_needed plan.now (O.meaning custom.now) offers) to_come)
        < plan.now.buckets → NothingRanOut result }
{
    laws_of_runs::<C>();
    if workers == 1 {
        return run_rounds(
            rt, alloc, plan, offers, ticks, avail, ids, parts, custom, follow, fates,
        );
    }
    run_by_workers(
        rt, alloc, plan, offers, workers, ticks, avail, ids, parts, custom, gate, follow, fates,
    )
}
