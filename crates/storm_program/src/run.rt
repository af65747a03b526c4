ghost use Rattle.std.specs.Prelude.{◌≡◌, ◌≤◌, ◌<◌, ◌⊎◌, ℕ, List, [], length, All, IfOk, IfErr, string_bytes, sum};
ghost use Rattle.event_worlds.specs.Rounds.{rounds_needed};
ghost use Rattle.storm_resume.specs.schedule_core.Runs.{first_answers};
ghost use Rattle.storm_resume.specs.storm_answers.declared.status.Status.{Status};
ghost use Rattle.storm_resume.specs.storm_answers.Outside.{run_use, shelf_use, ticks_use};
ghost use Rattle.storm_resume.specs.storm_answers.Reports.{EndsSo, IsReport, cut_by};
ghost use Rattle.storm_resume.specs.storm_answers.Runs.{IsNotBegun, IsShort, IsUnhindered, ticks_of_run};
ghost use Rattle.storm_program.specs.Run.{MustCommitAll, RunComes};
ghost use Rattle.storm_resume.specs.storm_answers.steps.Ended.{IsRoundsEnd, WorkStops};
ghost use Rattle.storm_resume.specs.storm_answers.steps.Stops.{IsMemory, Stops};
ghost use Rattle.event_worlds.specs.storm_values.Limits.{most_workers};
ghost use Rattle.event_worlds.specs.storm_values.Rows.{IsRow};
ghost use Rattle.storm_resume.specs.stored_runs.Makers.{maker_use};

use event_worlds::attempt_fates::Fates;
use event_worlds::bolt_ops::RowOp;
use event_worlds::commit_order::NoFollow;
use event_worlds::storm_ids::IdMaker;
use std::alloc::Global;
use std::sync::Wait;
use std::thread::Threads;
use storm_avail::Avail;
use storm_gates::Gate;
use storm_outside::Shelf;
use storm_resume::stored_runs::run_over;
use storm_resume::storm_answers::{Accepted, EarlyEnd, offers_of, read_files, text_of_end};
use storm_stores::StoreMaker;
use storm_ticks::Ticks;

/// Reads a topology and an input, and runs the one over the other.
pub fn run_files<
    R: Threads + Wait + Sync,
    H: Shelf,
    T: Ticks,
    V: Avail,
    M: StoreMaker,
    N: IdMaker,
    O: RowOp,
    G: Gate,
>(
    rt: &R,
    alloc: Global,
    topology: &str,
    input: &str,
    workers: u32,
    shelf: &mut H,
    ticks: &mut T,
    avail: &mut V,
    stores: &mut M,
    ids: &mut N,
    custom: &O,
    gate: &G,
    fates: &mut Fates,
) -> Result<String, EarlyEnd>
where
    N::I: Send,
    M::C: Send,
    requires fates { fates.old ≡ [] }
    requires some { 1 ≤ workers }
    requires few { workers ≤ most_workers }
    ensures done { IfOk result (λ text. RunComes (O.meaning custom.now)
        (shelf_use H.holds H.ready H.fetches H.faults shelf.old shelf.new)
        (run_use (maker_use M.C.tells M.C.fault_count M.holds M.has_made M.fault_count
        stores.old stores.new)
        (N.tells ids.old)) (ticks_use T.handed_out T.tells ticks.old ticks.new)
        topology.now input.now fates.new Status.Done (string_bytes text)) }
    ensures stop { IfErr result (Stops (RunComes (O.meaning custom.now)
        (shelf_use H.holds H.ready H.fetches H.faults shelf.old shelf.new)
        (run_use (maker_use M.C.tells M.C.fault_count M.holds M.has_made M.fault_count
        stores.old stores.new)
        (N.tells ids.old)) (ticks_use T.handed_out T.tells ticks.old ticks.new)
        topology.now input.now fates.new)) }
    ensures finishes { MustCommitAll (O.meaning custom.now)
        (shelf_use H.holds H.ready H.fetches H.faults shelf.old shelf.new)
        (run_use (maker_use M.C.tells M.C.fault_count M.holds M.has_made M.fault_count
        stores.old stores.new)
        (N.tells ids.old)) (ticks_use T.handed_out T.tells ticks.old ticks.new)
        (V.tells avail.old) topology.now input.now fates.new → IfErr result IsMemory }
    ensures never_falls { H.faults shelf.old ≤ H.faults shelf.new }
    ensures store_faults { M.fault_count stores.old ≤ M.fault_count stores.new }
{
    let files = read_files(alloc, topology, input, shelf)?;
    run_accepted(
        rt, alloc, files, workers, ticks, avail, stores, ids, custom, gate, fates,
    )
}

/// Runs a plan over the records of its input, and makes the report.
fn run_accepted<
    R: Threads + Wait + Sync,
    T: Ticks,
    V: Avail,
    M: StoreMaker,
    N: IdMaker,
    O: RowOp,
    G: Gate,
>(
    rt: &R,
    alloc: Global,
    files: Accepted,
    workers: u32,
    ticks: &mut T,
    avail: &mut V,
    stores: &mut M,
    ids: &mut N,
    custom: &O,
    gate: &G,
    fates: &mut Fates,
) -> Result<String, EarlyEnd>
where
    N::I: Send,
    M::C: Send,
    requires fates { fates.old ≡ [] }
    requires some { 1 ≤ workers }
    requires few { workers ≤ most_workers }
    requires rows { All (IsRow (length files.plan.spout_fields)) files.rows }
    ensures report { IfOk result (λ text. IsReport (O.meaning custom.now) files.plan files.rows
        (run_use (maker_use M.C.tells M.C.fault_count M.holds M.has_made M.fault_count
        stores.old stores.new)
        (N.tells ids.old))
        (ticks_of_run (ticks_use T.handed_out T.tells ticks.old ticks.new))
        fates.new (string_bytes text)) }
    ensures stop { IfErr result (Stops (WorkStops
        (λ ending text. IsRoundsEnd ending
        × EndsSo (O.meaning custom.now) files.plan files.rows
        (run_use (maker_use M.C.tells M.C.fault_count M.holds M.has_made M.fault_count
        stores.old stores.new)
        (N.tells ids.old))
        (ticks_of_run (ticks_use T.handed_out T.tells ticks.old ticks.new))
        fates.new ending text)
        (IsNotBegun
        (run_use (maker_use M.C.tells M.C.fault_count M.holds M.has_made M.fault_count
        stores.old stores.new)
        (N.tells ids.old)) fates.new
        ⊎ IsShort (O.meaning custom.now) files.plan files.rows
        (run_use (maker_use M.C.tells M.C.fault_count M.holds M.has_made M.fault_count
        stores.old stores.new)
        (N.tells ids.old)) fates.new))) }
    ensures finishes { (to_come : List ℕ) → T.tells ticks.old to_come
        → (0 < files.plan.partitions → V.tells avail.old [])
        → IsUnhindered files.plan
        (maker_use M.C.tells M.C.fault_count M.holds M.has_made M.fault_count
        stores.old stores.new) fates.new
        → sum (first_answers
        (rounds_needed files.plan (O.meaning custom.now) (cut_by files.plan files.rows)) to_come)
        < files.plan.buckets → IfErr result IsMemory }
    ensures store_faults { M.fault_count stores.old ≤ M.fault_count stores.new }
{
    let Accepted { plan, rows } = files;
    let offers = offers_of(&plan, rows)?;
    let records = offers.rows().len() as u64;
    let ending = run_over(
        rt,
        alloc,
        &plan,
        offers,
        workers,
        ticks,
        avail,
        ids,
        stores,
        custom,
        gate,
        &mut NoFollow,
        fates,
    )?;
    text_of_end(alloc, &plan, records, fates, &ending)
}
