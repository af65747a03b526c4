//! A given schedule over the stores of a maker.
ghost use Rattle.std.specs.Prelude.{◌≡◌, ◌<◌, ◌+◌, ℕ, [], All, Ok, IfOk, OnErr};
ghost use Rattle.std.specs.List.{AllByRecursion};
ghost use Rattle.event_worlds.specs.attempt_fates.Fates.{IsOnce};
ghost use Rattle.event_worlds.specs.commit_order.Follows.{IsTaken};
ghost use Rattle.event_worlds.specs.commit_turns.Turns.{last_tick};
ghost use Rattle.event_worlds.specs.Accounted.{IsInput};
ghost use Rattle.event_worlds.specs.Rounds.{HasRounds, rounds_needed, ticks_in};
ghost use Rattle.schedule_core.specs.Schedules.{all_steps};
ghost use Rattle.schedule_reader.specs.Events.{FitsEvent};
ghost use Rattle.event_worlds.specs.storm_values.Counts.{Rose};
ghost use Rattle.stored_runs.specs.Makers.{CameBack, maker_use};
ghost use Rattle.stored_runs.specs.StoredRuns.{EndFollowed, IsAll, IsRun, IsRunOfWorld, NothingIsInTheWay, StandBeforeLast, StandsWithoutMemory};
ghost use Rattle.world_progress.specs.Rounding.{ShutsNone};

use crate::closing::close;
use crate::ending::RunEnd;
use crate::laws::laws_of_runs;
use event_worlds::attempt_fates::Fates;
use event_worlds::bolt_ops::RowOp;
use event_worlds::commit_order::Follow;
use event_worlds::record_offers::Offers;
use event_worlds::state_parts::Parts;
use event_worlds::storm_ids::IdMaker;
use event_worlds::storm_values::Memory;
use event_worlds::topology_plan::Plan;
use schedule_core::{Events, replay};
use std::alloc::Global;
use storm_stores::StoreMaker;

/// Carries out a given schedule over stores that the maker makes, reads the tables where no record
/// is left uncommitted, and gives the stores back.
///
/// It costs what `replay` does, and one look at each key. The attempts that ended are in the fates,
/// whatever the answer. With want of memory too all stores come back. The follower is told each
/// commit that was done, and stops the run where it fails.
pub fn replay_over<N: IdMaker, M: StoreMaker, O: RowOp, W: Follow>(
    alloc: Global,
    plan: &Plan,
    offers: Offers,
    events: &Events,
    ids: &mut N,
    stores: &mut M,
    custom: &O,
    follow: &mut W,
    fates: &mut Fates,
) -> Result<RunEnd, Memory>
    requires empty { fates.old ≡ [] }
    requires input { IsInput plan.now offers }
    requires takes { IsTaken (offers.start + 1) (W.takes follow.old) }
    requires fit { AllByRecursion (FitsEvent plan.now) events.now }

    // What the end, the fates and the stores come to.
    ensures comes { IfOk result (IsRun (N.tells ids.old) plan.now (O.meaning custom.now) offers
        (ticks_in (all_steps plan.now events.now))
        (maker_use M.C.tells M.C.fault_count M.holds M.has_made M.fault_count
        stores.old stores.new) fates.new) }
    ensures once { IsOnce offers last_tick fates.new }
    ensures back { CameBack plan.now
        (maker_use M.C.tells M.C.fault_count M.holds M.has_made M.fault_count
        stores.old stores.new) }
    ensures short { OnErr result (StandsWithoutMemory plan.now (O.meaning custom.now) offers
        (maker_use M.C.tells M.C.fault_count M.holds M.has_made M.fault_count
        stores.old stores.new) fates.new) }

    // The follower was told what was committed, in order, but perhaps the last one where it failed.
    // Then the maps stand at what was committed before it too.
    ensures followed { EndFollowed W.tells W.fault_count result fates.new follow.old follow.new }
    ensures less { (txid : ℕ) → result ≡ Ok (RunEnd.Follow txid)
        → StandBeforeLast plan.now (O.meaning custom.now) offers
        (maker_use M.C.tells M.C.fault_count M.holds M.has_made M.fault_count
        stores.old stores.new) fates.new }

    // It is the run of one world.
    ensures world { IfOk result (IsRunOfWorld (N.tells ids.old) plan.now (O.meaning custom.now)
        offers (all_steps plan.now events.now) fates.new) }

    // With rounds enough, few ticks and no partition shut every record is committed, where nothing
    // is in the way and the follower does not fail.
    ensures finishes { NothingIsInTheWay plan.now (O.meaning custom.now) offers
        (maker_use M.C.tells M.C.fault_count M.holds M.has_made M.fault_count
        stores.old stores.new) fates.new
        → (Rose (W.fault_count follow.old) (W.fault_count follow.new) → ⊥)
        → HasRounds plan.now (rounds_needed plan.now (O.meaning custom.now) offers)
        (all_steps plan.now events.now)
        → ticks_in (all_steps plan.now events.now) < plan.now.buckets
        → (0 < plan.now.partitions → All ShutsNone (all_steps plan.now events.now))
        → IfOk result IsAll }
{
    laws_of_runs::<M::C>();
    let mut parts = Parts::make(alloc, plan, stores)?;
    let answer = replay(
        alloc, plan, offers, events, ids, &mut parts, custom, follow, fates,
    );
    let ended = close(plan, &mut parts, answer);
    parts.give_back(stores);
    ended
}
