ghost use Rattle.std.specs.Prelude.{◌≡◌, ◌≤◌, ℕ, length, IfOk};
ghost use Rattle.std.specs.List.{AllByRecursion};
ghost use Rattle.std.specs.Prelude.{map, replicate};
ghost use Rattle.event_engine.specs.Engines.{IsIdle, IsReady};
ghost use Rattle.event_engine.specs.Seats.{HasBuckets, acker_side};
ghost use Rattle.event_engine.specs.Starts.{AreFirstSeats, IsStarted};
ghost use Rattle.event_worlds.specs.Accounted.{IsInput};
ghost use Rattle.event_worlds.specs.Worlds.{no_acker};
ghost use Rattle.event_worlds.specs.topology_plan.Topology.{tasks_in_all};

use crate::acker::AckerSeat;
use crate::engine::Engine;
use crate::task::TaskSeat;
use event_worlds::attempt_fates::Fates;
use event_worlds::bolt_task::BoltTask;
use event_worlds::commit_order::{Coordinator, Offers};
use event_worlds::commit_turns::desks_are_kept;
use event_worlds::storm_ids::{IdMaker, Ids};
use event_worlds::storm_values::Memory;
use event_worlds::topology_plan::Plan;
use std::alloc::Global;
use std::collections::VecDeque;

// The seats of all tasks, each with a source of ids of its own number.
fn start_tasks<'p, N: IdMaker>(
    alloc: Global,
    plan: &'p Plan,
    ids: &mut N,
) -> Result<Vec<TaskSeat<'p, N::I>>, Memory>
    ensures first { IfOk result (λ tasks. AreFirstSeats (N.tells ids.old) N.I.tells plan.now
        (tasks_in_all plan.now) tasks.items) }
    ensures kept { (words : ℕ → ℕ → ℕ) → N.tells ids.old words → N.tells ids.new words }
{
    let mut tasks = Vec::new(alloc);
    for n in 0..plan.tasks() {
        let source = ids.make(n)?;
        let task = BoltTask::new(alloc, plan, n, source)?;
        tasks.push(TaskSeat {
            task,
            inbox: VecDeque::new(alloc),
            outbox: VecDeque::new(alloc),
        })?;
    }
    Ok(tasks)
}

// The seats of all ackers.
fn start_ackers(alloc: Global, plan: &Plan) -> Result<Vec<AckerSeat>, Memory>
    ensures sides { IfOk result (λ ackers.
        map acker_side ackers.items ≡ replicate plan.now.ackers no_acker) }
    ensures buckets { IfOk result (λ ackers.
        AllByRecursion (HasBuckets plan.now.buckets) ackers.items) }
{
    plan.facts();
    let mut ackers = Vec::new(alloc);
    for _ in 0..plan.ackers() {
        ackers.push(AckerSeat::new(alloc, plan.buckets())?)?;
    }
    Ok(ackers)
}

impl<'p, I: Ids> Engine<'p, I> {
    /// An engine before the first event, which starts where its offers do. Tasks have the sources of ids of their own numbers, and
    /// the coordinator has the next one; each draws its start words.
    pub fn start<N: IdMaker<I = I>>(
        alloc: Global,
        plan: &'p Plan,
        offers: Offers,
        ids: &mut N,
    ) -> Result<Self, Memory>
        requires { IsInput plan.now offers }
        ensures ready { IfOk result (IsReady plan.now offers) }
        ensures idle { IfOk result IsIdle }
        ensures started { IfOk result (IsStarted (N.tells ids.old) I.tells plan.now
            offers) }
        ensures kept { (words : ℕ → ℕ → ℕ) → N.tells ids.old words → N.tells ids.new words }
    {
        // a law: what is kept
        desks_are_kept();
        let tasks = start_tasks(alloc, plan, ids)?;
        let ackers = start_ackers(alloc, plan)?;
        let source = ids.make(plan.tasks())?;
        let coordinator = Coordinator::new(alloc, plan, offers, source)?;
        Ok(Engine {
            plan,
            tasks,
            ackers,
            coordinator,
            verdicts: VecDeque::new(alloc),
            orders: VecDeque::new(alloc),
            tick: 0,
            unheard: 0,
            shut: 0,
            fates: Fates::new(alloc),
        })
    }
}
