//! How the answer of a run over parts comes to its end.
ghost use Rattle.std.specs.Prelude.{◌≡◌, Ok};
ghost use Rattle.schedule_core.specs.Runs.{ended};
ghost use Rattle.schedule_core.specs.declared.ended.Ended.TheVariants as of_run;
ghost use Rattle.event_worlds.specs.state_parts.Commits.{SameCounts};
ghost use Rattle.event_worlds.specs.state_parts.PartPlans.{plans_of};
ghost use Rattle.event_worlds.specs.state_parts.PartTables.{AreRead};
ghost use Rattle.stored_runs.specs.Closing.{Closes};

use crate::ending::RunEnd;
use event_worlds::commit_order::Stop;
use event_worlds::state_parts::Parts;
use event_worlds::storm_values::Memory;
use event_worlds::topology_plan::Plan;
use schedule_core::Ended;
use state_cells::PartFault;
use std::alloc::AllocError;
use storm_stores::CellStore;

/// The end of a run that came to this answer. Where no record is left uncommitted the tables are
/// read.
pub fn close<C: CellStore>(
    plan: &Plan,
    parts: &mut Parts<C>,
    answer: Result<Ended, Stop>,
) -> Result<RunEnd, Memory>
    ensures closes { Closes C.tells C.fault_count plan.now answer parts.old parts.new result }
    ensures plans { plans_of parts.new ≡ plans_of parts.old }
    ensures read { AreRead C.tells C.fault_count parts.old parts.new }
    ensures quiet { (result ≡ Ok RunEnd.StoreFault → ⊥) →
        SameCounts C.fault_count parts.old parts.new }
{
    match answer {
        Ok(Ended::All) => read(plan, parts),
        Ok(Ended::Unfinished(count)) => Ok(RunEnd::Unfinished(count)),
        Err(Stop::Exhausted(txid)) => Ok(RunEnd::Exhausted(txid)),
        Err(Stop::BadCell(key)) => Ok(RunEnd::BadCell(key)),
        Err(Stop::Follow(txid)) => Ok(RunEnd::Follow(txid)),
        Err(Stop::Memory) => Err(AllocError),
    }
}

// The end of a run that left no record uncommitted.
fn read<C: CellStore>(plan: &Plan, parts: &mut Parts<C>) -> Result<RunEnd, Memory>
    ensures closes { Closes C.tells C.fault_count plan.now (Ok of_run.All) parts.old parts.new
        result }
    ensures plans { plans_of parts.new ≡ plans_of parts.old }
    ensures read { AreRead C.tells C.fault_count parts.old parts.new }
    ensures quiet { (result ≡ Ok RunEnd.StoreFault → ⊥) →
        SameCounts C.fault_count parts.old parts.new }
{
    match parts.tables(plan) {
        Ok(tables) => Ok(RunEnd::All(tables)),
        Err(PartFault::Store) => Ok(RunEnd::StoreFault),
        Err(PartFault::BadCell(key)) => Ok(RunEnd::BadCell(key)),
        Err(PartFault::Memory) => Err(AllocError),
    }
}

/// What a run of rounds answers that nothing stopped: no record is left uncommitted.
pub fn as_ended(done: Result<(), Stop>) -> Result<Ended, Stop>
    ensures { result ≡ ended done }
{
    match done {
        Ok(()) => Ok(Ended::All),
        Err(stop) => Err(stop),
    }
}
