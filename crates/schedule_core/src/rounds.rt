//! A run by rounds, with the ticks of a source and the partitions that another one says are shut.
ghost use Rattle.std.specs.Prelude.{◌≡◌, ◌+◌, ℕ, true, [], length, Err, OnOk, OnErr};
ghost use Rattle.event_worlds.specs.attempt_fates.Fates.{IsOnce};
ghost use Rattle.event_worlds.specs.commit_turns.Turns.{last_tick};
ghost use Rattle.event_engine.specs.Engines.{IsStill, cut_in, has_ended, topology_in};
ghost use Rattle.event_worlds.specs.Accounted.{IsInput};
ghost use Rattle.schedule_core.specs.Driving.{AreKept, IsAtRest, IsOfSameRun};
ghost use Rattle.schedule_core.specs.Rounding.{OpensShut, Rounded};
ghost use Rattle.event_worlds.specs.commit_order.Follows.{IsTaken};
ghost use Rattle.event_worlds.specs.commit_order.declared.stop.Stop.TheVariants as stop;
ghost use Rattle.schedule_core.specs.Following.{Followed, RunFollowed, StandLess, next_txid};
ghost use Rattle.schedule_core.specs.Runs.{RoundsCome, ended};
ghost use Rattle.event_worlds.specs.state_parts.PartPlans.{AreParts};

use crate::answer::end_run;
use crate::drive::{close_round, open_boosted};
use crate::fault::RunFault;
use crate::laws::{laws_of_runs, laws_of_steps};
use event_engine::Engine;
use event_worlds::attempt_fates::Fates;
use event_worlds::bolt_ops::RowOp;
use event_worlds::commit_order::{Follow, Offers, Stop};
use event_worlds::state_parts::Parts;
use event_worlds::storm_ids::{IdMaker, Ids};
use event_worlds::storm_values::Memory;
use event_worlds::topology_plan::Plan;
use std::alloc::Global;
use std::sync::Wait;
use storm_avail::Avail;
use storm_stores::CellStore;
use storm_ticks::Ticks;

/// Runs a plan over what a spout offers from a start on, by rounds on one thread, until no record
/// is left uncommitted or as many attempts of a transaction aborted as the plan allows.
///
/// Before each step of the coordinator it asks once which partitions are shut and how many ticks
/// passed. Nothing says that it ends. The attempts that ended are in the fates, whatever the answer. The follower is told each
/// commit that was done, and stops the run where it fails.
pub fn run_rounds<R: Wait, T: Ticks, V: Avail, N: IdMaker, C: CellStore, O: RowOp, W: Follow>(
    rt: &R,
    alloc: Global,
    plan: &Plan,
    offers: Offers,
    ticks: &mut T,
    avail: &mut V,
    ids: &mut N,
    parts: &mut Parts<C>,
    custom: &O,
    follow: &mut W,
    fates: &mut Fates,
) -> Result<(), Stop>
    requires empty { fates.old ≡ [] }
    requires input { IsInput plan.now offers }
    requires parts { AreParts plan.now parts.old }
    requires takes { IsTaken (offers.start + 1) (W.takes follow.old) }

    // What the answer, the fates, the ticks and the parts come to.
    ensures comes { RoundsCome (N.tells ids.old) (T.tells ticks.old) (V.tells avail.old) C.tells
        C.fault_count plan.now (O.meaning custom.now) offers (T.handed_out ticks.old)
        (T.handed_out ticks.new) result fates.new parts.old parts.new }

    // The follower was told what was committed, in order, but perhaps the last one where it failed.
    ensures followed { RunFollowed W.tells W.fault_count (ended result) fates.new
        follow.old follow.new }
    ensures less { (txid : ℕ) → result ≡ Err (stop.Follow txid)
        → StandLess C.tells plan.now (O.meaning custom.now) offers fates.new parts.old parts.new }
{
    laws_of_runs::<C>();
    let mut engine = match Engine::start(alloc, plan, offers, ids) {
        Ok(engine) => engine,
        Err(_) => return Err(Stop::Memory),
    };
    let done = rounds_until_over(rt, &mut engine, ticks, avail, parts, custom, follow);
    end_run(done, engine, fates)?;
    Ok(())
}

/// Boosted rounds until all is over, each with the partitions shut that one source names, and as
/// many ticks as the other answers.
fn rounds_until_over<R: Wait, T: Ticks, V: Avail, I: Ids, C: CellStore, O: RowOp, W: Follow>(
    rt: &R,
    engine: &mut Engine<'_, I>,
    ticks: &mut T,
    avail: &mut V,
    parts: &mut Parts<C>,
    custom: &O,
    follow: &mut W,
) -> Result<(), RunFault>
    requires at_rest { IsAtRest engine.old }
    requires parts { AreParts (topology_in engine.old) parts.old }
    requires takes { IsTaken (next_txid (cut_in engine.old) engine.old.fates)
        (W.takes follow.old) }
    ensures same_run { OnOk result (IsOfSameRun engine.old engine.new) }
    ensures over { OnOk result (has_ended engine.new ≡ true) }
    ensures comes { Rounded I.tells C.tells C.fault_count T.handed_out T.tells V.tells
        (topology_in engine.old) (O.meaning custom.now) (cut_in engine.old) result engine.old
        engine.new parts.old parts.new ticks.old ticks.new avail.old }
    ensures once { OnErr result (IsOnce (cut_in engine.old) last_tick engine.new.fates) }
    ensures kept { AreKept C.tells parts.old parts.new }
    ensures followed { Followed W.tells W.fault_count result
        engine.old.fates engine.new.fates follow.old follow.new }
{
    laws_of_steps::<C>();
    for _ in rt.forever() {
        if engine.is_over() {
            return Ok(());
        }
        let shut = avail.shut();
        open_shut(engine, custom, shut)?;
        let passed = ticks.passed();
        close_round(engine, parts, custom, follow, passed)?;
    }
    unreachable!()
}

/// Each partition is shut or opened by its bit, and a boosted round is opened.
fn open_shut<I: Ids, O: RowOp>(
    engine: &mut Engine<'_, I>,
    custom: &O,
    shut: u16,
) -> Result<(), Memory>
    requires { IsAtRest engine.old }
    ensures at_rest { OnOk result (IsAtRest engine.new) }
    ensures same_run { OnOk result (IsOfSameRun engine.old engine.new) }
    ensures opens { OnOk result (OpensShut I.tells (topology_in engine.old)
        (O.meaning custom.now) (cut_in engine.old) shut engine.old engine.new) }
    ensures still { IsStill engine.old engine.new }
    ensures once { OnErr result (IsOnce (cut_in engine.old) last_tick engine.new.fates) }
{
    engine.shut_by(shut);
    open_boosted(engine, custom)?;
    Ok(())
}
