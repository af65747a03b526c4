//! The caller's own round: partitions are shut and opened, each task executes a tuple behind the
//! gate, each acker meets a message, ticks come, and the coordinator has its step with the commit
//! that it orders, which a follower is told.
ghost use Rattle.std.specs.Prelude.{◌≡◌, ◌<◌, ◌+◌, ◌-◌, ◌^◌, ◌∷◌, ◌++◌, [], List, ℕ, false, Err, OnOk, OnErr, length, map, min};
ghost use Rattle.std.specs.List.{range_with_len};
ghost use Rattle.event_worlds.specs.Accounted.{IsInput};
ghost use Rattle.event_worlds.specs.attempt_fates.Fates.{IsOnce};
ghost use Rattle.event_worlds.specs.commit_order.Follows.{IsTaken};
ghost use Rattle.event_worlds.specs.commit_turns.Turns.{last_tick};
ghost use Rattle.worker_stretches.specs.event_engine.Engines.{Goes, IsReady, IsStill, cut_in, has_ended, topology_in};
ghost use Rattle.event_worlds.specs.Worlds.{of_task};
ghost use Rattle.pulse_board.specs.Seats.{book_of};
ghost use Rattle.schedule_core.specs.Driving.{AreKept, WantsMemory};
ghost use Rattle.schedule_core.specs.Following.{Followed, next_txid};
ghost use Rattle.schedule_core.specs.declared.fault.RunFault.TheVariants as fault;
ghost use Rattle.event_worlds.specs.state_parts.PartPlans.{AreParts};
ghost use Rattle.event_worlds.specs.topology_plan.Topology.{tasks_in_all};
ghost use Rattle.worker_rounds.specs.Running.{Broken, HasOffered, IsGathered, RunsOn, Stopped, WasStopped, opening_by};
ghost use Rattle.worker_stretches.specs.Parts.{IsWholeSeat};

use crate::laws::laws_of_rounds;
use event_worlds::bolt_ops::RowOp;
use event_worlds::commit_order::Follow;
use event_worlds::state_parts::Parts;
use event_worlds::storm_ids::Ids;
use event_worlds::storm_values::Memory;
use event_worlds::topology_plan::Plan;
use pulse_board::{Board, BoardSeat};
use schedule_core::{RunFault, close_round_beside, laws_of_steps};
use std::alloc::Global;
use std::sync::Wait;
use std::thread::Threads;
use storm_gates::Gate;
use storm_stores::CellStore;
use worker_stretches::box_rows::{Posts, Row};
use worker_stretches::event_engine::Engine;
use worker_turns::sweep;

// A task's event. Where it executes a tuple it passes the gate first.
fn pass_and_act<R: Wait, I: Ids, O: RowOp, G: Gate>(
    rt: &R,
    engine: &mut Engine<'_, I>,
    n: u32,
    custom: &O,
    gate: &G,
) -> Result<(), Memory>
    requires there { n < tasks_in_all (topology_in engine.old) }
    requires ready { IsReady (topology_in engine.old) (cut_in engine.old) engine.old }
    ensures ready { OnOk result
        (IsReady (topology_in engine.old) (cut_in engine.old) engine.new) }
    ensures goes { OnOk result (Goes I.tells (topology_in engine.old) (O.meaning custom.now)
        (cut_in engine.old) (of_task n ∷ []) engine.old engine.new) }
    ensures still { IsStill engine.old engine.new }
{
    if let Some(tuple) = engine.next_tuple(n) {
        gate.pass(rt, n, tuple.root, &tuple.edge.path);
    }
    engine.task(n, custom)?;
    Ok(())
}

// An event of each task, in the order of their numbers.
fn act_all<R: Wait, I: Ids, O: RowOp, G: Gate>(
    rt: &R,
    plan: &Plan,
    engine: &mut Engine<'_, I>,
    custom: &O,
    gate: &G,
) -> Result<(), Memory>
    requires ready { IsReady plan.now (cut_in engine.old) engine.old }
    ensures ready { OnOk result (IsReady plan.now (cut_in engine.old) engine.new) }
    ensures goes { OnOk result (Goes I.tells plan.now (O.meaning custom.now) (cut_in engine.old)
        (map of_task (range_with_len 0 (tasks_in_all plan.now))) engine.old engine.new) }
    ensures still { IsStill engine.old engine.new }
{
    for n in 0..plan.tasks() {
        pass_and_act(rt, engine, n, custom, gate)?;
    }
    Ok(())
}

// A round up to the ticks: partitions are shut and opened, then there is an event of each task
// behind the gate, and of each acker.
fn open_round<R: Wait, I: Ids, O: RowOp, G: Gate>(
    rt: &R,
    plan: &Plan,
    engine: &mut Engine<'_, I>,
    shut: u16,
    custom: &O,
    gate: &G,
) -> Result<(), Memory>
    requires ready { IsReady plan.now (cut_in engine.old) engine.old }
    ensures ready { OnOk result (IsReady plan.now (cut_in engine.old) engine.new) }
    ensures goes { OnOk result (Goes I.tells plan.now (O.meaning custom.now) (cut_in engine.old)
        (opening_by plan.now shut) engine.old engine.new) }
    ensures still { IsStill engine.old engine.new }
{
    engine.shut_by(shut);
    act_all(rt, plan, engine, custom, gate)?;
    engine.all_ackers()?;
    Ok(())
}

// The board counts so many ticks.
fn tick_board(board: &Board, seat: &mut BoardSeat, count: u32)
    requires seat { IsWholeSeat board.now seat.old }
    ensures seat { IsWholeSeat board.now seat.new }
    ensures drawn { min (length (book_of seat.new).drawn) (2 ^ 64 - 1)
        ≡ min (length (book_of seat.old).drawn + count) (2 ^ 64 - 1) }
{
    for counted in 0..count {
        board.tick(seat);
    }
}

/// A round of the caller, with so many ticks. The partitions with these bits are shut before it,
/// and the others opened. Its commit goes to the parts side by side, in so many threads at most,
/// and then the follower is told it. What the round made waits in inboxes after it.
pub fn caller_round<
    R: Threads + Wait + Sync,
    I: Ids,
    C: CellStore + Send,
    O: RowOp,
    G: Gate,
    W: Follow,
>(
    rt: &R,
    alloc: Global,
    posts: &Posts<'_>,
    board: &Board,
    row: &mut Row,
    seat: &mut BoardSeat,
    engine: &mut Engine<'_, I>,
    parts: &mut Parts<C>,
    threads: usize,
    passed: u32,
    shut: u16,
    custom: &O,
    gate: &G,
    follow: &mut W,
) -> Result<(), RunFault>
    requires gathered { IsGathered posts.now.plan.now (cut_in engine.old) posts.now.boxes.items
        board.now engine.old row.old.items seat.old }
    requires goes_on { has_ended engine.old ≡ false }
    requires parts { AreParts posts.now.plan.now parts.old }
    requires takes { IsTaken (next_txid (cut_in engine.old) engine.old.fates)
        (W.takes follow.old) }
    ensures gathered { OnOk result (IsGathered posts.now.plan.now (cut_in engine.old)
        posts.now.boxes.items board.now engine.new row.new.items seat.new) }
    ensures ticked { OnOk result
        (engine.new.tick ≡ min (engine.old.tick + passed) (2 ^ 64 - 1)) }
    ensures runs { OnOk result (RunsOn I.tells C.tells C.fault_count posts.now.plan.now
        (O.meaning custom.now) (cut_in engine.old)
        (0 < posts.now.plan.now.partitions → shut ≡ 0) 1 engine.old engine.new row.old.items
        row.new.items parts.old parts.new) }
    ensures offered { (result ≡ Err fault.Memory → ⊥)
        → IsInput posts.now.plan.now (cut_in engine.old) → 0 < posts.now.plan.now.partitions
        → (shuts : List ℕ) → HasOffered posts.now.plan.now.partitions shuts engine.old
        → HasOffered posts.now.plan.now.partitions (shuts ++ shut ∷ []) engine.new }
    ensures takes { OnOk result (IsTaken (next_txid (cut_in engine.new) engine.new.fates)
        (W.takes follow.new)) }
    ensures bad { (key : List ℕ) → result ≡ Err (fault.BadCell key)
        → Broken I.tells C.tells C.fault_count posts.now.plan.now (O.meaning custom.now)
        (cut_in engine.old) shut passed key engine.old engine.new row.old.items parts.old
        parts.new }
    ensures failed { (txid : ℕ) → result ≡ Err (fault.Follow txid)
        → Stopped I.tells C.tells C.fault_count posts.now.plan.now (O.meaning custom.now)
        (cut_in engine.old) shut passed txid engine.old engine.new row.old.items parts.old
        parts.new }
    ensures row_back { WasStopped result → row.new ≡ row.old }
    ensures drawn_back { WasStopped result → min (length (book_of seat.new).drawn) (2 ^ 64 - 1)
        ≡ min (length (book_of seat.old).drawn + passed) (2 ^ 64 - 1) }
    ensures seat { IsWholeSeat board.now seat.new }
    ensures short { result ≡ Err fault.Memory → WantsMemory I.tells C.tells C.fault_count
        posts.now.plan.now (O.meaning custom.now) (cut_in engine.old) engine.old
        engine.new.fates parts.old parts.new }
    ensures once { OnErr result (IsOnce (cut_in engine.old) last_tick engine.new.fates) }
    ensures kept { AreKept C.tells parts.old parts.new }
    ensures followed { Followed W.tells W.fault_count result
        engine.old.fates engine.new.fates follow.old follow.new }
{
    laws_of_steps::<C>();
    laws_of_rounds();
    open_round(rt, posts.plan, engine, shut, custom, gate)?;
    tick_board(board, seat, passed);
    close_round_beside(rt, engine, parts, custom, follow, threads, passed)?;
    sweep(rt, alloc, posts, row, engine)?;
    Ok(())
}
