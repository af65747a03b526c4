// Runs with a follower, by a given schedule and with ticks.
ghost use Rattle.std.specs.Prelude.{◌≡◌, ◌≤◌, ◌+◌, []};
ghost use Rattle.event_worlds.specs.Accounted.{IsInput};
ghost use Rattle.event_worlds.specs.commit_order.Follows.{IsTaken};

use crate::scenes::{Scene, case_of};
use event_worlds::attempt_fates::Fates;
use event_worlds::commit_order::Follow;
use event_worlds::record_offers::Offers;
use event_worlds::storm_ids::ChaChaMaker;
use event_worlds::storm_values::{Indexes, Seq};
use event_worlds::topology_plan::Plan;
use sample_operations::Backwards;
use schedule_core::read_schedule;
use std::alloc::Global;
use std::sync::Wait;
use std::thread::Threads;
use stored_runs::{RunEnd, replay_over, run_over};
use storm_avail::ScriptAvail;
use storm_gates::OpenGate;
use storm_stores::MemMaker;
use storm_ticks::ScriptTicks;
use test_kit::Mismatch;

/// How a run goes: by the schedule of its scene, or with ticks by so many workers.
#[derive(Clone, Copy)]
pub enum Way {
    Schedule,
    OneWorker,
    TwoWorkers,
}

pub const WAYS: [Way; 3] = [Way::Schedule, Way::OneWorker, Way::TwoWorkers];

fn by_schedule<W: Follow>(
    alloc: Global,
    plan: &Plan,
    offers: Offers,
    schedule: &str,
    stores: &mut MemMaker,
    follow: &mut W,
    fates: &mut Fates,
) -> Result<RunEnd, Mismatch>
    requires empty { fates.old ≡ [] }
    requires input { IsInput plan.now offers }
    requires takes { IsTaken (offers.start + 1) (W.takes follow.old) }
{
    let Ok(events) = read_schedule(alloc, schedule.as_bytes(), plan) else {
        return Err(case_of(alloc, schedule));
    };
    let mut ids = ChaChaMaker { key: [0; 32] };
    let ended = replay_over(
        alloc, plan, offers, &events, &mut ids, stores, &Backwards, follow, fates,
    );
    Ok(ended?)
}

// Which partitions are shut: these in the first turn, and then none.
fn avail_of(alloc: Global, shut: u16) -> Result<ScriptAvail, Mismatch> {
    let mut answers = Seq::new(alloc);
    answers.push(shut)?;
    Ok(ScriptAvail::new(answers))
}

fn by_workers<R: Threads + Wait + Sync, W: Follow>(
    rt: &R,
    alloc: Global,
    plan: &Plan,
    offers: Offers,
    workers: u32,
    shut: u16,
    stores: &mut MemMaker,
    follow: &mut W,
    fates: &mut Fates,
) -> Result<RunEnd, Mismatch>
    requires empty { fates.old ≡ [] }
    requires input { IsInput plan.now offers }
    requires takes { IsTaken (offers.start + 1) (W.takes follow.old) }
    requires some { 1 ≤ workers }
    requires few { workers ≤ 64 }
{
    let mut ticks = ScriptTicks::new(Indexes::new(alloc));
    let mut avail = avail_of(alloc, shut)?;
    let mut ids = ChaChaMaker { key: [0; 32] };
    let ended = run_over(
        rt,
        alloc,
        plan,
        offers,
        workers,
        &mut ticks,
        &mut avail,
        &mut ids,
        stores,
        &Backwards,
        &OpenGate {},
        follow,
        fates,
    );
    Ok(ended?)
}

/// Runs a plan over stores.
pub fn run<R: Threads + Wait + Sync, W: Follow>(
    rt: &R,
    alloc: Global,
    scene: Scene,
    way: Way,
    plan: &Plan,
    offers: Offers,
    stores: &mut MemMaker,
    follow: &mut W,
    fates: &mut Fates,
) -> Result<RunEnd, Mismatch>
    requires empty { fates.old ≡ [] }
    requires input { IsInput plan.now offers }
    requires takes { IsTaken (offers.start + 1) (W.takes follow.old) }
{
    let shut = scene.shut;
    match way {
        Way::Schedule => by_schedule(alloc, plan, offers, scene.schedule, stores, follow, fates),
        Way::OneWorker => by_workers(rt, alloc, plan, offers, 1, shut, stores, follow, fates),
        Way::TwoWorkers => by_workers(rt, alloc, plan, offers, 2, shut, stores, follow, fates),
    }
}
