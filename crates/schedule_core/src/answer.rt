//! What a run answers at its end.
ghost use Rattle.std.specs.Prelude.{◌≡◌, length};
ghost use Rattle.event_engine.specs.Engines.{cut_in, shape, topology_in};
ghost use Rattle.event_worlds.specs.attempt_fates.Fates.{committed};
ghost use Rattle.schedule_core.specs.Rounding.{end_by};
ghost use Rattle.schedule_core.specs.Schedules.{answer_by, answer_of};

use crate::committed::committed_in;
use crate::ended::Ended;
use crate::fault::RunFault;
use event_engine::Engine;
use event_worlds::attempt_fates::Fates;
use event_worlds::commit_order::Stop;
use event_worlds::storm_ids::Ids;

/// What a run answers whose last call came to this: what stopped it, or else what its coordinator
/// knows. The attempts that ended take the place of those that are there, whatever the answer.
pub fn end_run<I: Ids>(
    done: Result<(), RunFault>,
    engine: Engine<'_, I>,
    fates: &mut Fates,
) -> Result<Ended, Stop>
    ensures answer { result ≡ end_by done
        (answer_of (topology_in engine.entry) (cut_in engine.entry) (shape engine.entry)) }
    ensures fates { fates.new ≡ (shape engine.entry).fates }
{
    let exhausted = engine.exhausted();
    let finished = engine.is_finished();
    *fates = engine.into_fates();
    match done {
        Ok(()) => answer_by(exhausted, finished, fates),
        Err(RunFault::BadCell(key)) => Err(Stop::BadCell(key)),
        Err(RunFault::Follow(txid)) => Err(Stop::Follow(txid)),
        Err(RunFault::Memory) => Err(Stop::Memory),
    }
}

// What a run answers that nothing stopped.
fn answer_by(exhausted: Option<u64>, finished: bool, fates: &Fates) -> Result<Ended, Stop>
    ensures { result ≡ answer_by exhausted finished (length (committed fates.now)) }
{
    match exhausted {
        Some(txid) => Err(Stop::Exhausted(txid)),
        None => {
            if finished {
                Ok(Ended::All)
            } else {
                Ok(Ended::Unfinished(committed_in(fates.as_slice())))
            }
        }
    }
}
