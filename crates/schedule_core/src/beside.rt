//! The rest of a round of workers: the commit that the coordinator orders goes to the parts side by
//! side. Its clauses are those of a round on one thread.
ghost use Rattle.std.specs.Prelude.{◌≡◌, ℕ, List, length, Err, OnOk, OnErr};
ghost use Rattle.event_worlds.specs.attempt_fates.Fates.{IsOnce};
ghost use Rattle.event_worlds.specs.commit_order.Follows.{IsTaken};
ghost use Rattle.event_worlds.specs.commit_turns.Turns.{last_tick};
ghost use Rattle.event_engine.specs.Engines.{cut_in, topology_in};
ghost use Rattle.event_worlds.specs.Worlds.{coordinator_steps};
ghost use Rattle.schedule_core.specs.Driving.{AreKept, Breaks, Drives, IsAtRest, IsOfSameRun, WantsMemory};
ghost use Rattle.schedule_core.specs.Following.{Followed, Unfollowed, next_txid};
ghost use Rattle.schedule_core.specs.declared.fault.RunFault.TheVariants as fault;
ghost use Rattle.schedule_core.specs.Rounding.{closing_steps};
ghost use Rattle.event_worlds.specs.state_parts.PartPlans.{AreParts};

use crate::drive::tick_on;
use crate::fault::RunFault;
use crate::follow::tell;
use crate::laws::{laws_of_commits, laws_of_steps};
use event_engine::Engine;
use event_worlds::bolt_ops::RowOp;
use event_worlds::commit_order::Follow;
use event_worlds::state_parts::Parts;
use event_worlds::storm_ids::Ids;
use std::thread::Threads;
use storm_stores::CellStore;

/// The coordinator's step, and the commit that it orders, to all parts side by side.
fn coordinate_beside<R: Threads + Sync, I: Ids, C: CellStore + Send, O: RowOp, W: Follow>(
    rt: &R,
    engine: &mut Engine<'_, I>,
    parts: &mut Parts<C>,
    custom: &O,
    follow: &mut W,
    threads: usize,
) -> Result<(), RunFault>
    requires at_rest { IsAtRest engine.old }
    requires parts { AreParts (topology_in engine.old) parts.old }
    requires takes { IsTaken (next_txid (cut_in engine.old) engine.old.fates)
        (W.takes follow.old) }
    ensures at_rest { OnOk result (IsAtRest engine.new) }
    ensures same_run { OnOk result (IsOfSameRun engine.old engine.new) }
    ensures takes { OnOk result (IsTaken (next_txid (cut_in engine.new) engine.new.fates)
        (W.takes follow.new)) }
    ensures drives { OnOk result
        (Drives I.tells C.tells C.fault_count (topology_in engine.old) (O.meaning custom.now)
        (cut_in engine.old) coordinator_steps engine.old engine.new parts.old parts.new) }
    ensures bad { (key : List ℕ) → result ≡ Err (fault.BadCell key)
        → Breaks I.tells C.tells C.fault_count (topology_in engine.old) (O.meaning custom.now)
        (cut_in engine.old) coordinator_steps key engine.old engine.new parts.old parts.new }
    ensures failed { (txid : ℕ) → result ≡ Err (fault.Follow txid)
        → Unfollowed I.tells C.tells C.fault_count (topology_in engine.old) (O.meaning custom.now)
        (cut_in engine.old) coordinator_steps txid engine.old engine.new parts.old parts.new }
    ensures short { result ≡ Err fault.Memory
        → WantsMemory I.tells C.tells C.fault_count (topology_in engine.old) (O.meaning custom.now)
        (cut_in engine.old) engine.old engine.new.fates parts.old parts.new }
    ensures once { OnErr result (IsOnce (cut_in engine.old) last_tick engine.new.fates) }
    ensures kept { AreKept C.tells parts.old parts.new }
    ensures followed { Followed W.tells W.fault_count result
        engine.old.fates engine.new.fates follow.old follow.new }
{
    laws_of_steps::<C>();
    laws_of_commits::<C>();
    let Some(commit) = engine.turn()? else {
        return Ok(());
    };
    commit.writes.keys_are_texts();
    let how = parts.commit_beside(rt, threads, &commit, custom)?;
    engine.decide(how)?;
    tell(follow, &commit, how)
}

/// The rest of a round, as `close_round` has it, with the commit to the parts side by side, in so
/// many threads at most.
pub fn close_round_beside<R: Threads + Sync, I: Ids, C: CellStore + Send, O: RowOp, W: Follow>(
    rt: &R,
    engine: &mut Engine<'_, I>,
    parts: &mut Parts<C>,
    custom: &O,
    follow: &mut W,
    threads: usize,
    passed: u32,
) -> Result<(), RunFault>
    requires at_rest { IsAtRest engine.old }
    requires parts { AreParts (topology_in engine.old) parts.old }
    requires takes { IsTaken (next_txid (cut_in engine.old) engine.old.fates)
        (W.takes follow.old) }
    ensures at_rest { OnOk result (IsAtRest engine.new) }
    ensures same_run { OnOk result (IsOfSameRun engine.old engine.new) }
    ensures takes { OnOk result (IsTaken (next_txid (cut_in engine.new) engine.new.fates)
        (W.takes follow.new)) }
    ensures drives { OnOk result
        (Drives I.tells C.tells C.fault_count (topology_in engine.old) (O.meaning custom.now)
        (cut_in engine.old) (closing_steps passed) engine.old engine.new parts.old parts.new) }
    ensures bad { (key : List ℕ) → result ≡ Err (fault.BadCell key)
        → Breaks I.tells C.tells C.fault_count (topology_in engine.old) (O.meaning custom.now)
        (cut_in engine.old) (closing_steps passed) key engine.old engine.new parts.old parts.new }
    ensures failed { (txid : ℕ) → result ≡ Err (fault.Follow txid)
        → Unfollowed I.tells C.tells C.fault_count (topology_in engine.old) (O.meaning custom.now)
        (cut_in engine.old) (closing_steps passed) txid engine.old engine.new parts.old parts.new }
    ensures short { result ≡ Err fault.Memory
        → WantsMemory I.tells C.tells C.fault_count (topology_in engine.old) (O.meaning custom.now)
        (cut_in engine.old) engine.old engine.new.fates parts.old parts.new }
    ensures once { OnErr result (IsOnce (cut_in engine.old) last_tick engine.new.fates) }
    ensures kept { AreKept C.tells parts.old parts.new }
    ensures followed { Followed W.tells W.fault_count result
        engine.old.fates engine.new.fates follow.old follow.new }
{
    laws_of_steps::<C>();
    tick_on(engine, passed);
    coordinate_beside(rt, engine, parts, custom, follow, threads)?;
    Ok(())
}
