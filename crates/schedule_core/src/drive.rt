//! Steps of the engine, with the commits that its coordinator orders.
ghost use Rattle.std.specs.Prelude.{◌≡◌, ℕ, List, All, length, Err, OnOk, OnErr, replicate};
ghost use Rattle.std.specs.List.{AllByRecursion};
ghost use Rattle.event_worlds.specs.attempt_fates.Fates.{IsOnce};
ghost use Rattle.event_worlds.specs.bolt_ops.RowOp.{Custom};
ghost use Rattle.event_worlds.specs.commit_order.Follows.{IsTaken};
ghost use Rattle.event_worlds.specs.commit_turns.Turns.{last_tick};
ghost use Rattle.event_engine.specs.Boosts.{Boosts};
ghost use Rattle.event_engine.specs.Engines.{Goes, IsStill, cut_in, topology_in};
ghost use Rattle.event_worlds.specs.Worlds.{coordinator_steps, of_tick, round_steps, rounds_steps};
ghost use Rattle.schedule_core.specs.Driving.{AreKept, Breaks, Drives, IsAtRest, IsOfSameRun, WantsMemory};
ghost use Rattle.schedule_core.specs.Following.{Followed, Unfollowed, next_txid};
ghost use Rattle.schedule_core.specs.declared.fault.RunFault.TheVariants as fault;
ghost use Rattle.schedule_core.specs.Rounding.{OpensBoosted, closing_steps, most_before, opening_steps};
ghost use Rattle.schedule_core.specs.Schedules.{all_steps, steps_of};
ghost use Rattle.schedule_reader.specs.Events.{FitsEvent};
ghost use Rattle.event_worlds.specs.state_parts.PartPlans.{AreParts};

use crate::fault::RunFault;
use crate::follow::tell;
use crate::laws::{laws_of_commits, laws_of_steps};
use event_engine::Engine;
use event_worlds::bolt_ops::RowOp;
use event_worlds::commit_order::Follow;
use event_worlds::state_parts::Parts;
use event_worlds::storm_ids::Ids;
use event_worlds::storm_values::Memory;
use schedule_reader::{Event, Events};
use storm_stores::CellStore;

/// How many events a task or an acker has at most before a round. Boxes stay short by it.
const MOST_BEFORE: u32 = 64;

/// The coordinator's step, and the commit that it orders, to all parts.
fn coordinate<I: Ids, C: CellStore, O: RowOp, W: Follow>(
    engine: &mut Engine<'_, I>,
    parts: &mut Parts<C>,
    custom: &O,
    follow: &mut W,
) -> Result<(), RunFault>
    requires at_rest { IsAtRest engine.old }
    requires parts { AreParts (topology_in engine.old) parts.old }
    requires takes { IsTaken (next_txid (cut_in engine.old) engine.old.fates)
        (W.takes follow.old) }
    ensures at_rest { OnOk result (IsAtRest engine.new) }
    ensures same_run { OnOk result (IsOfSameRun engine.old engine.new) }
    ensures takes { OnOk result (IsTaken (next_txid (cut_in engine.new) engine.new.fates)
        (W.takes follow.new)) }
    ensures drives { OnOk result
        (Drives I.tells C.tells C.fault_count (topology_in engine.old) (O.meaning custom.now)
        (cut_in engine.old) coordinator_steps engine.old engine.new parts.old parts.new) }
    ensures bad { (key : List ℕ) → result ≡ Err (fault.BadCell key)
        → Breaks I.tells C.tells C.fault_count (topology_in engine.old) (O.meaning custom.now)
        (cut_in engine.old) coordinator_steps key engine.old engine.new parts.old parts.new }
    ensures failed { (txid : ℕ) → result ≡ Err (fault.Follow txid)
        → Unfollowed I.tells C.tells C.fault_count (topology_in engine.old) (O.meaning custom.now)
        (cut_in engine.old) coordinator_steps txid engine.old engine.new parts.old parts.new }
    ensures short { result ≡ Err fault.Memory
        → WantsMemory I.tells C.tells C.fault_count (topology_in engine.old) (O.meaning custom.now)
        (cut_in engine.old) engine.old engine.new.fates parts.old parts.new }
    ensures once { OnErr result (IsOnce (cut_in engine.old) last_tick engine.new.fates) }
    ensures kept { AreKept C.tells parts.old parts.new }
    ensures followed { Followed W.tells W.fault_count result
        engine.old.fates engine.new.fates follow.old follow.new }
{
    laws_of_steps::<C>();
    laws_of_commits::<C>();
    let Some(commit) = engine.turn()? else {
        return Ok(());
    };
    commit.writes.keys_are_texts();
    let how = parts.commit_all(&commit, custom)?;
    engine.decide(how)?;
    tell(follow, &commit, how)
}

/// A round up to the coordinator's step: an event of each task, and then of each acker.
pub(crate) fn open_round<I: Ids, O: RowOp>(
    engine: &mut Engine<'_, I>,
    custom: &O,
) -> Result<(), Memory>
    requires { IsAtRest engine.old }
    ensures at_rest { OnOk result (IsAtRest engine.new) }
    ensures same_run { OnOk result (IsOfSameRun engine.old engine.new) }
    ensures goes { OnOk result (Goes I.tells (topology_in engine.old) (O.meaning custom.now)
        (cut_in engine.old) (opening_steps (topology_in engine.old)) engine.old engine.new) }
    ensures still { IsStill engine.old engine.new }
    ensures once { OnErr result (IsOnce (cut_in engine.old) last_tick engine.new.fates) }
{
    engine.all_tasks(custom)?;
    engine.all_ackers()?;
    Ok(())
}

/// A boost, and then a round up to the coordinator's step: what a task or an acker has to do is
/// mostly done at once, and the round finds little left.
pub(crate) fn open_boosted<I: Ids, O: RowOp>(
    engine: &mut Engine<'_, I>,
    custom: &O,
) -> Result<(), Memory>
    requires { IsAtRest engine.old }
    ensures at_rest { OnOk result (IsAtRest engine.new) }
    ensures same_run { OnOk result (IsOfSameRun engine.old engine.new) }
    ensures opens { OnOk result (OpensBoosted I.tells (topology_in engine.old)
        (O.meaning custom.now) (cut_in engine.old) engine.old engine.new) }
    ensures still { IsStill engine.old engine.new }
    ensures once { OnErr result (IsOnce (cut_in engine.old) last_tick engine.new.fates) }
{
    boost(engine, custom)?;
    open_round(engine, custom)?;
    Ok(())
}

/// Events of each task, and then of each acker, until little is left to do.
fn boost<I: Ids, O: RowOp>(engine: &mut Engine<'_, I>, custom: &O) -> Result<(), Memory>
    requires { IsAtRest engine.old }
    ensures at_rest { OnOk result (IsAtRest engine.new) }
    ensures same_run { OnOk result (IsOfSameRun engine.old engine.new) }
    ensures boosts { OnOk result (Boosts I.tells (topology_in engine.old) (O.meaning custom.now)
        (cut_in engine.old) most_before engine.old engine.new) }
    ensures still { IsStill engine.old engine.new }
    ensures once { OnErr result (IsOnce (cut_in engine.old) last_tick engine.new.fates) }
{
    engine.boost(MOST_BEFORE, custom)?;
    Ok(())
}

/// So many ticks.
pub(crate) fn tick_on<I: Ids>(engine: &mut Engine<'_, I>, count: u32)
    requires { IsAtRest engine.old }
    ensures at_rest { IsAtRest engine.new }
    ensures same_run { IsOfSameRun engine.old engine.new }
    ensures goes { (custom : Custom) → Goes I.tells (topology_in engine.old) custom
        (cut_in engine.old) (replicate count of_tick) engine.old engine.new }
    ensures still { IsStill engine.old engine.new }
{
    for ticked in 0..count {
        engine.tick();
    }
}

/// The rest of a round: so many ticks, and then the coordinator's step, with the commit that it
/// orders to all parts.
///
/// It costs a tick each, what the turn hears and begins, and the writes of the commit. With a bad
/// cell or want of memory the engine may have no more events; its fates are those of all attempts
/// that ended.
pub(crate) fn close_round<I: Ids, C: CellStore, O: RowOp, W: Follow>(
    engine: &mut Engine<'_, I>,
    parts: &mut Parts<C>,
    custom: &O,
    follow: &mut W,
    passed: u32,
) -> Result<(), RunFault>
    requires at_rest { IsAtRest engine.old }
    requires parts { AreParts (topology_in engine.old) parts.old }
    requires takes { IsTaken (next_txid (cut_in engine.old) engine.old.fates)
        (W.takes follow.old) }
    ensures at_rest { OnOk result (IsAtRest engine.new) }
    ensures same_run { OnOk result (IsOfSameRun engine.old engine.new) }
    ensures takes { OnOk result (IsTaken (next_txid (cut_in engine.new) engine.new.fates)
        (W.takes follow.new)) }
    ensures drives { OnOk result
        (Drives I.tells C.tells C.fault_count (topology_in engine.old) (O.meaning custom.now)
        (cut_in engine.old) (closing_steps passed) engine.old engine.new parts.old parts.new) }
    ensures bad { (key : List ℕ) → result ≡ Err (fault.BadCell key)
        → Breaks I.tells C.tells C.fault_count (topology_in engine.old) (O.meaning custom.now)
        (cut_in engine.old) (closing_steps passed) key engine.old engine.new parts.old parts.new }
    ensures failed { (txid : ℕ) → result ≡ Err (fault.Follow txid)
        → Unfollowed I.tells C.tells C.fault_count (topology_in engine.old) (O.meaning custom.now)
        (cut_in engine.old) (closing_steps passed) txid engine.old engine.new parts.old parts.new }
    ensures short { result ≡ Err fault.Memory
        → WantsMemory I.tells C.tells C.fault_count (topology_in engine.old) (O.meaning custom.now)
        (cut_in engine.old) engine.old engine.new.fates parts.old parts.new }
    ensures once { OnErr result (IsOnce (cut_in engine.old) last_tick engine.new.fates) }
    ensures kept { AreKept C.tells parts.old parts.new }
    ensures followed { Followed W.tells W.fault_count result
        engine.old.fates engine.new.fates follow.old follow.new }
{
    laws_of_steps::<C>();
    tick_on(engine, passed);
    coordinate(engine, parts, custom, follow)?;
    Ok(())
}

/// A round: each task, each acker, and then the coordinator.
fn round<I: Ids, C: CellStore, O: RowOp, W: Follow>(
    engine: &mut Engine<'_, I>,
    parts: &mut Parts<C>,
    custom: &O,
    follow: &mut W,
) -> Result<(), RunFault>
    requires at_rest { IsAtRest engine.old }
    requires parts { AreParts (topology_in engine.old) parts.old }
    requires takes { IsTaken (next_txid (cut_in engine.old) engine.old.fates)
        (W.takes follow.old) }
    ensures at_rest { OnOk result (IsAtRest engine.new) }
    ensures same_run { OnOk result (IsOfSameRun engine.old engine.new) }
    ensures takes { OnOk result (IsTaken (next_txid (cut_in engine.new) engine.new.fates)
        (W.takes follow.new)) }
    ensures drives { OnOk result (Drives I.tells C.tells C.fault_count (topology_in engine.old)
        (O.meaning custom.now) (cut_in engine.old) (round_steps (topology_in engine.old))
        engine.old engine.new parts.old parts.new) }
    ensures bad { (key : List ℕ) → result ≡ Err (fault.BadCell key)
        → Breaks I.tells C.tells C.fault_count (topology_in engine.old) (O.meaning custom.now)
        (cut_in engine.old) (round_steps (topology_in engine.old))
        key engine.old engine.new parts.old parts.new }
    ensures failed { (txid : ℕ) → result ≡ Err (fault.Follow txid)
        → Unfollowed I.tells C.tells C.fault_count (topology_in engine.old) (O.meaning custom.now)
        (cut_in engine.old) (round_steps (topology_in engine.old))
        txid engine.old engine.new parts.old parts.new }
    ensures short { result ≡ Err fault.Memory
        → WantsMemory I.tells C.tells C.fault_count (topology_in engine.old) (O.meaning custom.now)
        (cut_in engine.old) engine.old engine.new.fates parts.old parts.new }
    ensures once { OnErr result (IsOnce (cut_in engine.old) last_tick engine.new.fates) }
    ensures kept { AreKept C.tells parts.old parts.new }
    ensures followed { Followed W.tells W.fault_count result
        engine.old.fates engine.new.fates follow.old follow.new }
{
    laws_of_steps::<C>();
    open_round(engine, custom)?;
    coordinate(engine, parts, custom, follow)?;
    Ok(())
}

/// So many rounds, until all is over.
fn rounds<I: Ids, C: CellStore, O: RowOp, W: Follow>(
    engine: &mut Engine<'_, I>,
    parts: &mut Parts<C>,
    custom: &O,
    follow: &mut W,
    count: u32,
) -> Result<(), RunFault>
    requires at_rest { IsAtRest engine.old }
    requires parts { AreParts (topology_in engine.old) parts.old }
    requires takes { IsTaken (next_txid (cut_in engine.old) engine.old.fates)
        (W.takes follow.old) }
    ensures at_rest { OnOk result (IsAtRest engine.new) }
    ensures same_run { OnOk result (IsOfSameRun engine.old engine.new) }
    ensures takes { OnOk result (IsTaken (next_txid (cut_in engine.new) engine.new.fates)
        (W.takes follow.new)) }
    ensures drives { OnOk result (Drives I.tells C.tells C.fault_count (topology_in engine.old)
        (O.meaning custom.now) (cut_in engine.old)
        (rounds_steps (topology_in engine.old) count)
        engine.old engine.new parts.old parts.new) }
    ensures bad { (key : List ℕ) → result ≡ Err (fault.BadCell key)
        → Breaks I.tells C.tells C.fault_count (topology_in engine.old) (O.meaning custom.now)
        (cut_in engine.old) (rounds_steps (topology_in engine.old) count)
        key engine.old engine.new parts.old parts.new }
    ensures failed { (txid : ℕ) → result ≡ Err (fault.Follow txid)
        → Unfollowed I.tells C.tells C.fault_count (topology_in engine.old) (O.meaning custom.now)
        (cut_in engine.old) (rounds_steps (topology_in engine.old) count)
        txid engine.old engine.new parts.old parts.new }
    ensures short { result ≡ Err fault.Memory
        → WantsMemory I.tells C.tells C.fault_count (topology_in engine.old) (O.meaning custom.now)
        (cut_in engine.old) engine.old engine.new.fates parts.old parts.new }
    ensures once { OnErr result (IsOnce (cut_in engine.old) last_tick engine.new.fates) }
    ensures kept { AreKept C.tells parts.old parts.new }
    ensures followed { Followed W.tells W.fault_count result
        engine.old.fates engine.new.fates follow.old follow.new }
{
    laws_of_steps::<C>();
    for done in 0..count {
        if engine.is_over() {
            return Ok(());
        }
        round(engine, parts, custom, follow)?;
    }
    Ok(())
}

/// An event of a schedule.
fn carry_out<I: Ids, C: CellStore, O: RowOp, W: Follow>(
    engine: &mut Engine<'_, I>,
    parts: &mut Parts<C>,
    custom: &O,
    follow: &mut W,
    event: Event,
) -> Result<(), RunFault>
    requires at_rest { IsAtRest engine.old }
    requires parts { AreParts (topology_in engine.old) parts.old }
    requires takes { IsTaken (next_txid (cut_in engine.old) engine.old.fates)
        (W.takes follow.old) }
    requires fits { FitsEvent (topology_in engine.old) event }
    ensures at_rest { OnOk result (IsAtRest engine.new) }
    ensures same_run { OnOk result (IsOfSameRun engine.old engine.new) }
    ensures takes { OnOk result (IsTaken (next_txid (cut_in engine.new) engine.new.fates)
        (W.takes follow.new)) }
    ensures drives { OnOk result (Drives I.tells C.tells C.fault_count (topology_in engine.old)
        (O.meaning custom.now) (cut_in engine.old) (steps_of (topology_in engine.old) event)
        engine.old engine.new parts.old parts.new) }
    ensures bad { (key : List ℕ) → result ≡ Err (fault.BadCell key)
        → Breaks I.tells C.tells C.fault_count (topology_in engine.old) (O.meaning custom.now)
        (cut_in engine.old) (steps_of (topology_in engine.old) event)
        key engine.old engine.new parts.old parts.new }
    ensures failed { (txid : ℕ) → result ≡ Err (fault.Follow txid)
        → Unfollowed I.tells C.tells C.fault_count (topology_in engine.old) (O.meaning custom.now)
        (cut_in engine.old) (steps_of (topology_in engine.old) event)
        txid engine.old engine.new parts.old parts.new }
    ensures short { result ≡ Err fault.Memory
        → WantsMemory I.tells C.tells C.fault_count (topology_in engine.old) (O.meaning custom.now)
        (cut_in engine.old) engine.old engine.new.fates parts.old parts.new }
    ensures once { OnErr result (IsOnce (cut_in engine.old) last_tick engine.new.fates) }
    ensures kept { AreKept C.tells parts.old parts.new }
    ensures followed { Followed W.tells W.fault_count result
        engine.old.fates engine.new.fates follow.old follow.new }
{
    laws_of_steps::<C>();
    match event {
        Event::Task(n) => engine.task(n, custom)?,
        Event::Acker(n) => engine.acker(n)?,
        Event::Coord => coordinate(engine, parts, custom, follow)?,
        Event::Tick => engine.tick(),
        Event::Shut(partition) => engine.shut(partition),
        Event::Open(partition) => engine.open(partition),
        Event::Rounds(count) => rounds(engine, parts, custom, follow, count)?,
    }
    Ok(())
}

/// The events of a schedule in order, until all is over.
pub(crate) fn carry_out_all<I: Ids, C: CellStore, O: RowOp, W: Follow>(
    engine: &mut Engine<'_, I>,
    parts: &mut Parts<C>,
    custom: &O,
    follow: &mut W,
    events: &Events,
) -> Result<(), RunFault>
    requires at_rest { IsAtRest engine.old }
    requires parts { AreParts (topology_in engine.old) parts.old }
    requires takes { IsTaken (next_txid (cut_in engine.old) engine.old.fates)
        (W.takes follow.old) }
    requires fit { AllByRecursion (FitsEvent (topology_in engine.old)) events.now }
    ensures at_rest { OnOk result (IsAtRest engine.new) }
    ensures same_run { OnOk result (IsOfSameRun engine.old engine.new) }
    ensures takes { OnOk result (IsTaken (next_txid (cut_in engine.new) engine.new.fates)
        (W.takes follow.new)) }
    ensures drives { OnOk result (Drives I.tells C.tells C.fault_count (topology_in engine.old)
        (O.meaning custom.now) (cut_in engine.old) (all_steps (topology_in engine.old) events.now)
        engine.old engine.new parts.old parts.new) }
    ensures bad { (key : List ℕ) → result ≡ Err (fault.BadCell key)
        → Breaks I.tells C.tells C.fault_count (topology_in engine.old) (O.meaning custom.now)
        (cut_in engine.old) (all_steps (topology_in engine.old) events.now)
        key engine.old engine.new parts.old parts.new }
    ensures failed { (txid : ℕ) → result ≡ Err (fault.Follow txid)
        → Unfollowed I.tells C.tells C.fault_count (topology_in engine.old) (O.meaning custom.now)
        (cut_in engine.old) (all_steps (topology_in engine.old) events.now)
        txid engine.old engine.new parts.old parts.new }
    ensures short { result ≡ Err fault.Memory
        → WantsMemory I.tells C.tells C.fault_count (topology_in engine.old) (O.meaning custom.now)
        (cut_in engine.old) engine.old engine.new.fates parts.old parts.new }
    ensures once { OnErr result (IsOnce (cut_in engine.old) last_tick engine.new.fates) }
    ensures kept { AreKept C.tells parts.old parts.new }
    ensures followed { Followed W.tells W.fault_count result
        engine.old.fates engine.new.fates follow.old follow.new }
{
    laws_of_steps::<C>();
    for event in events.as_slice() {
        if engine.is_over() {
            return Ok(());
        }
        carry_out(engine, parts, custom, follow, *event)?;
    }
    Ok(())
}
