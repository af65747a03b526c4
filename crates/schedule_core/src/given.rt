//! The replay of a given schedule.
ghost use Rattle.std.specs.Prelude.{◌≡◌, ◌+◌, ℕ, [], Err};
ghost use Rattle.std.specs.List.{AllByRecursion};
ghost use Rattle.event_worlds.specs.Accounted.{AreCaused, IsInput};
ghost use Rattle.event_worlds.specs.Rounds.{ticks_in};
ghost use Rattle.event_worlds.specs.commit_order.Follows.{IsTaken};
ghost use Rattle.event_worlds.specs.commit_order.declared.stop.Stop.TheVariants as stop;
ghost use Rattle.schedule_core.specs.Following.{RunFollowed, StandLess};
ghost use Rattle.schedule_core.specs.Runs.{RunComes};
ghost use Rattle.schedule_core.specs.Schedules.{HadMemory, IsAnswer, IsOfWorld, all_steps};
ghost use Rattle.schedule_reader.specs.Events.{FitsEvent};
ghost use Rattle.event_worlds.specs.state_parts.PartPlans.{AreParts};

use crate::answer::end_run;
use crate::drive::carry_out_all;
use crate::ended::Ended;
use crate::laws::laws_of_runs;
use event_engine::Engine;
use event_worlds::attempt_fates::Fates;
use event_worlds::bolt_ops::RowOp;
use event_worlds::commit_order::{Follow, Offers, Stop};
use event_worlds::state_parts::Parts;
use event_worlds::storm_ids::IdMaker;
use event_worlds::topology_plan::Plan;
use schedule_reader::Events;
use std::alloc::Global;
use storm_stores::CellStore;

/// Carries out a given schedule over what a spout offers from a start on, event by event on one
/// thread, with commits to the parts of all states. When all is over it looks at no further event.
///
/// An event costs the work that it does, a round as many events as there are tasks and ackers.
/// Nothing is searched that grows with the run. The attempts that ended are in the fates, whatever
/// the answer. The follower is told each commit that was done, and stops the run where it fails.
pub fn replay<N: IdMaker, C: CellStore, O: RowOp, W: Follow>(
    alloc: Global,
    plan: &Plan,
    offers: Offers,
    events: &Events,
    ids: &mut N,
    parts: &mut Parts<C>,
    custom: &O,
    follow: &mut W,
    fates: &mut Fates,
) -> Result<Ended, Stop>
    requires empty { fates.old ≡ [] }
    requires input { IsInput plan.now offers }
    requires fit { AllByRecursion (FitsEvent plan.now) events.now }
    requires parts { AreParts plan.now parts.old }
    requires takes { IsTaken (offers.start + 1) (W.takes follow.old) }

    // What the answer, the fates and the parts come to.
    ensures comes { RunComes C.tells C.fault_count plan.now (O.meaning custom.now) offers
        (all_steps plan.now events.now) (ticks_in (all_steps plan.now events.now)) result
        fates.new parts.old parts.new }

    // Over sources that tell their words it is the run of one world.
    ensures told { (words : ℕ → ℕ → ℕ) → N.tells ids.old words → IsAnswer result
        → IsOfWorld plan.now (O.meaning custom.now) offers words (all_steps plan.now events.now)
        result fates.new }
    ensures drawn { (words : ℕ → ℕ → ℕ) → N.tells ids.old words → HadMemory result
        → AreCaused plan.now (O.meaning custom.now) offers
        (ticks_in (all_steps plan.now events.now)) words fates.new }

    // The follower was told what was committed, in order, but perhaps the last one where it failed.
    ensures followed { RunFollowed W.tells W.fault_count result fates.new follow.old follow.new }
    ensures less { (txid : ℕ) → result ≡ Err (stop.Follow txid)
        → StandLess C.tells plan.now (O.meaning custom.now) offers fates.new parts.old parts.new }
{
    laws_of_runs::<C>();
    let mut engine = match Engine::start(alloc, plan, offers, ids) {
        Ok(engine) => engine,
        Err(_) => return Err(Stop::Memory),
    };
    let done = carry_out_all(&mut engine, parts, custom, follow, events);
    end_run(done, engine, fates)
}
