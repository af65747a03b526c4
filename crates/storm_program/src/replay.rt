ghost use Rattle.std.specs.Prelude.{◌≡◌, ◌≤◌, ◌<◌, ◌⊎◌, [], length, All, IfOk, IfErr, string_bytes};
ghost use Rattle.std.specs.List.{AllByRecursion};
ghost use Rattle.event_worlds.specs.Rounds.{HasRounds, rounds_needed};
ghost use Rattle.storm_resume.specs.schedule_core.Schedules.{all_steps};
ghost use Rattle.schedule_reader.specs.Events.{FitsEvent};
ghost use Rattle.storm_resume.specs.storm_answers.declared.status.Status.{Status};
ghost use Rattle.storm_resume.specs.storm_answers.Outside.{run_use, shelf_use};
ghost use Rattle.storm_program.specs.Replay.{IsReplayReport, ReplayComes, ReplayEndsSo, ReplayMustCommitAll, ticks_of_schedule};
ghost use Rattle.storm_resume.specs.storm_answers.Reports.{cut_by};
ghost use Rattle.storm_resume.specs.storm_answers.Runs.{IsNotBegun, IsShort, IsUnhindered};
ghost use Rattle.storm_resume.specs.storm_answers.steps.Ended.{WorkStops};
ghost use Rattle.storm_resume.specs.storm_answers.steps.Stops.{IsMemory, Stops};
ghost use Rattle.event_worlds.specs.storm_values.Rows.{IsRow};
ghost use Rattle.storm_resume.specs.stored_runs.Makers.{maker_use};
ghost use Rattle.world_progress.specs.Rounding.{ShutsNone};

use event_worlds::attempt_fates::Fates;
use event_worlds::bolt_ops::RowOp;
use event_worlds::commit_order::NoFollow;
use event_worlds::storm_ids::IdMaker;
use schedule_reader::Events;
use std::alloc::Global;
use storm_outside::Shelf;
use storm_resume::stored_runs::replay_over;
use storm_resume::storm_answers::{
    Accepted, EarlyEnd, offers_of, read_events, read_files, text_of_end,
};
use storm_stores::StoreMaker;

/// Reads a topology, an input and a schedule, and carries the schedule out.
pub fn replay_files<H: Shelf, M: StoreMaker, N: IdMaker, O: RowOp>(
    alloc: Global,
    topology: &str,
    input: &str,
    schedule: &str,
    shelf: &mut H,
    stores: &mut M,
    ids: &mut N,
    custom: &O,
    fates: &mut Fates,
) -> Result<String, EarlyEnd>
    requires { fates.old ≡ [] }
    ensures done { IfOk result (λ text. ReplayComes (O.meaning custom.now)
        (shelf_use H.holds H.ready H.fetches H.faults shelf.old shelf.new)
        (run_use (maker_use M.C.tells M.C.fault_count M.holds M.has_made M.fault_count
        stores.old stores.new)
        (N.tells ids.old))
        topology.now input.now schedule.now fates.new Status.Done (string_bytes text)) }
    ensures stop { IfErr result (Stops (ReplayComes (O.meaning custom.now)
        (shelf_use H.holds H.ready H.fetches H.faults shelf.old shelf.new)
        (run_use (maker_use M.C.tells M.C.fault_count M.holds M.has_made M.fault_count
        stores.old stores.new)
        (N.tells ids.old))
        topology.now input.now schedule.now fates.new)) }
    ensures finishes { ReplayMustCommitAll (O.meaning custom.now)
        (shelf_use H.holds H.ready H.fetches H.faults shelf.old shelf.new)
        (run_use (maker_use M.C.tells M.C.fault_count M.holds M.has_made M.fault_count
        stores.old stores.new)
        (N.tells ids.old))
        topology.now input.now schedule.now fates.new → IfErr result IsMemory }
    ensures never_falls { H.faults shelf.old ≤ H.faults shelf.new }
    ensures store_faults { M.fault_count stores.old ≤ M.fault_count stores.new }
{
    let files = read_files(alloc, topology, input, shelf)?;
    let events = read_events(alloc, schedule, &files.plan, shelf)?;
    replay_accepted(alloc, files, &events, stores, ids, custom, fates)
}

/// Carries out a schedule over the records of an input, and makes the report.
fn replay_accepted<M: StoreMaker, N: IdMaker, O: RowOp>(
    alloc: Global,
    files: Accepted,
    events: &Events,
    stores: &mut M,
    ids: &mut N,
    custom: &O,
    fates: &mut Fates,
) -> Result<String, EarlyEnd>
    requires fates { fates.old ≡ [] }
    requires rows { All (IsRow (length files.plan.spout_fields)) files.rows }
    requires fit { AllByRecursion (FitsEvent files.plan) events.now }
    ensures report { IfOk result (λ text. IsReplayReport (O.meaning custom.now)
        files.plan files.rows events.now
        (run_use (maker_use M.C.tells M.C.fault_count M.holds M.has_made M.fault_count
        stores.old stores.new)
        (N.tells ids.old)) fates.new (string_bytes text)) }
    ensures stop { IfErr result (Stops (WorkStops
        (ReplayEndsSo (O.meaning custom.now) files.plan files.rows events.now
        (run_use (maker_use M.C.tells M.C.fault_count M.holds M.has_made M.fault_count
        stores.old stores.new)
        (N.tells ids.old)) fates.new)
        (IsNotBegun
        (run_use (maker_use M.C.tells M.C.fault_count M.holds M.has_made M.fault_count
        stores.old stores.new)
        (N.tells ids.old)) fates.new
        ⊎ IsShort (O.meaning custom.now) files.plan files.rows
        (run_use (maker_use M.C.tells M.C.fault_count M.holds M.has_made M.fault_count
        stores.old stores.new)
        (N.tells ids.old)) fates.new))) }
    ensures finishes { IsUnhindered files.plan
        (maker_use M.C.tells M.C.fault_count M.holds M.has_made M.fault_count
        stores.old stores.new) fates.new
        → HasRounds files.plan
        (rounds_needed files.plan (O.meaning custom.now) (cut_by files.plan files.rows))
        (all_steps files.plan events.now)
        → ticks_of_schedule files.plan events.now < files.plan.buckets
        → (0 < files.plan.partitions → All ShutsNone (all_steps files.plan events.now))
        → IfErr result IsMemory }
    ensures store_faults { M.fault_count stores.old ≤ M.fault_count stores.new }
{
    let Accepted { plan, rows } = files;
    let offers = offers_of(&plan, rows)?;
    let records = offers.rows().len() as u64;
    let ending = replay_over(
        alloc,
        &plan,
        offers,
        events,
        ids,
        stores,
        custom,
        &mut NoFollow,
        fates,
    )?;
    text_of_end(alloc, &plan, records, fates, &ending)
}
