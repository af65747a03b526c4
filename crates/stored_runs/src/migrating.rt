//! A run over parts whose cells are brought to format 2 first.
ghost use Rattle.std.specs.Prelude.{◌≡◌, ◌≤◌, ◌<◌, ◌+◌, ℕ, List, [], All, Ok, sum};
ghost use Rattle.batch_commits.specs.Standing.{failed_commits};
ghost use Rattle.event_worlds.specs.commit_order.Follows.{IsTaken};
ghost use Rattle.event_worlds.specs.Accounted.{IsInput};
ghost use Rattle.event_worlds.specs.Rounds.{CanFinish, DoesNotCoincide, rounds_needed};
ghost use Rattle.event_worlds.specs.state_parts.PartPlans.{AreParts, plans_of};
ghost use Rattle.stored_runs.specs.OverParts.{Resumes};
ghost use Rattle.schedule_core.specs.Runs.{first_answers, ticks_between};
ghost use Rattle.stored_runs.specs.StoredRuns.{EndFollowed};

use crate::closing::{as_ended, close};
use crate::ending::RunEnd;
use crate::laws::laws_of_runs;
use crate::over_parts::run_over_parts;
use event_worlds::attempt_fates::Fates;
use event_worlds::bolt_ops::RowOp;
use event_worlds::commit_order::Follow;
use event_worlds::record_offers::Offers;
use event_worlds::state_parts::{Parts, parts_with_the_same_cells_stand};
use event_worlds::storm_ids::IdMaker;
use event_worlds::storm_values::Memory;
use event_worlds::topology_plan::Plan;
use state_cells::PartFault;
use std::alloc::{AllocError, Global};
use std::sync::Wait;
use std::thread::Threads;
use storm_avail::Avail;
use storm_gates::Gate;
use storm_stores::CellStore;
use storm_ticks::Ticks;

/// Brings the cells of all parts to format 2, then runs a plan over the parts, and reads the tables
/// where no record is left uncommitted. Where a store fails meanwhile, or has a cell that no table
/// takes, no attempt is begun.
pub(crate) fn resume_parts<
    R: Threads + Wait + Sync,
    T: Ticks,
    V: Avail,
    N: IdMaker,
    C: CellStore + Send,
    O: RowOp,
    G: Gate,
    W: Follow,
>(
    rt: &R,
    alloc: Global,
    plan: &Plan,
    offers: Offers,
    workers: u32,
    ticks: &mut T,
    avail: &mut V,
    ids: &mut N,
    parts: &mut Parts<C>,
    custom: &O,
    gate: &G,
    follow: &mut W,
    fates: &mut Fates,
) -> Result<RunEnd, Memory>
where
    N::I: Send,
    requires empty { fates.old ≡ [] }
    requires input { IsInput plan.now offers }
    requires parts { AreParts plan.now parts.old }
    requires takes { IsTaken (offers.start + 1) (W.takes follow.old) }
    requires some { 1 ≤ workers }
    requires few { workers ≤ 64 }
    ensures resumes { Resumes (N.tells ids.old) C.tells C.fault_count plan.now
        (O.meaning custom.now) offers
        (ticks_between (T.handed_out ticks.old) (T.handed_out ticks.new)) result fates.new
        parts.old parts.new }
    ensures followed { EndFollowed W.tells W.fault_count result fates.new follow.old follow.new }
    ensures plans { plans_of parts.new ≡ plans_of parts.old }
    ensures finishes { (to_come : List ℕ) → T.tells ticks.old to_come
        → (0 < plan.now.partitions → V.tells avail.old []) → CanFinish plan.now
        → All DoesNotCoincide fates.new → failed_commits fates.new ≡ 0
        → sum (first_answers (rounds_needed plan.now (O.meaning custom.now) offers) to_come)
        < plan.now.buckets → (txid : ℕ) → result ≡ Ok (RunEnd.Exhausted txid) → ⊥ }
{
    laws_of_runs::<C>();
    parts_with_the_same_cells_stand::<C>();
    match parts.migrate() {
        Ok(_) => {
            let done = run_over_parts(
                rt, alloc, plan, offers, workers, ticks, avail, ids, parts, custom, gate, follow,
                fates,
            );
            close(plan, parts, as_ended(done))
        }
        Err(PartFault::Store) => Ok(RunEnd::StoreFault),
        Err(PartFault::BadCell(key)) => Ok(RunEnd::BadCell(key)),
        Err(PartFault::Memory) => Err(AllocError),
    }
}
