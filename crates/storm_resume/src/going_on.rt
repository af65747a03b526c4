//! The files of a run that goes on, and the run over them.
ghost use Rattle.std.specs.Prelude.{◌≡◌, ◌≤◌, ◌<◌, ℕ, List, [], length, All, IfOk, IfErr, string_bytes, sum};
ghost use Rattle.event_worlds.specs.Rounds.{rounds_needed};
ghost use Rattle.event_worlds.specs.storm_values.Limits.{most_lines, most_workers};
ghost use Rattle.event_worlds.specs.storm_values.Rows.{IsRow};
ghost use Rattle.kept_commits.specs.Kept.{WasKept};
ghost use Rattle.resume_meta.specs.Keepers.{Held};
ghost use Rattle.storm_answers.specs.Outside.{run_use, shelf_use, ticks_use};
ghost use Rattle.storm_answers.specs.Runs.{ticks_of_run};
ghost use Rattle.storm_answers.specs.declared.status.Status.{Status};
ghost use Rattle.storm_answers.specs.schedule_core.Runs.{first_answers};
ghost use Rattle.storm_answers.specs.steps.Stops.{IsMemory, Stops};
ghost use Rattle.storm_answers.specs.stored_runs.Makers.{maker_use};
ghost use Rattle.storm_answers.specs.stored_runs.StoredRuns.{NothingIsInTheWay};
ghost use Rattle.storm_resume.specs.Keeping.{KeeperFailed, keeper_use};
ghost use Rattle.storm_resume.specs.Resume.{AcceptedComes, GoesFree, IsOfInput, ResumeComes, ResumeMustCommitAll, cut_after, keep_fault_line};

use crate::start::{offers_after, start_of};
use crate::text::{last_txid, text_of_resume};
use event_worlds::attempt_fates::Fates;
use event_worlds::bolt_ops::RowOp;
use event_worlds::storm_ids::IdMaker;
use event_worlds::storm_values::Rows;
use event_worlds::topology_plan::Plan;
use kept_commits::KeptCommits;
use resume_meta::{Keeper, Meta, metas_have_texts_of_their_own};
use std::alloc::Global;
use std::sync::Wait;
use std::thread::Threads;
use storm_answers::stored_runs::resume_over;
use storm_answers::{Accepted, EarlyEnd, read_files};
use storm_avail::Avail;
use storm_gates::Gate;
use storm_outside::Shelf;
use storm_stores::StoreMaker;
use storm_ticks::Ticks;

/// Reads a topology and an input, and goes on with a run of the one over the other.
pub fn resume_files<
    R: Threads + Wait + Sync,
    H: Shelf,
    T: Ticks,
    V: Avail,
    M: StoreMaker,
    N: IdMaker,
    O: RowOp,
    G: Gate,
    P: Keeper,
>(
    rt: &R,
    alloc: Global,
    topology: &str,
    input: &str,
    workers: u32,
    shelf: &mut H,
    ticks: &mut T,
    avail: &mut V,
    stores: &mut M,
    ids: &mut N,
    custom: &O,
    gate: &G,
    keeper: &mut KeptCommits<P>,
    fates: &mut Fates,
) -> Result<String, EarlyEnd>
where
    N::I: Send,
    M::C: Send,
    requires fates { fates.old ≡ [] }
    requires some { 1 ≤ workers }
    requires few { workers ≤ most_workers }
    ensures done { IfOk result (λ text. ResumeComes (O.meaning custom.now)
        (shelf_use H.holds H.ready H.fetches H.faults shelf.old shelf.new)
        (run_use (maker_use M.C.tells M.C.fault_count M.holds M.has_made M.fault_count
        stores.old stores.new)
        (N.tells ids.old))
        (keeper_use P.holds P.fault_count keeper.old.keeper keeper.new.keeper)
        (ticks_use T.handed_out T.tells ticks.old ticks.new)
        topology.now input.now fates.new Status.Done (string_bytes text)) }
    ensures stop { IfErr result (Stops (ResumeComes (O.meaning custom.now)
        (shelf_use H.holds H.ready H.fetches H.faults shelf.old shelf.new)
        (run_use (maker_use M.C.tells M.C.fault_count M.holds M.has_made M.fault_count
        stores.old stores.new)
        (N.tells ids.old))
        (keeper_use P.holds P.fault_count keeper.old.keeper keeper.new.keeper)
        (ticks_use T.handed_out T.tells ticks.old ticks.new)
        topology.now input.now fates.new)) }
    ensures finishes { ResumeMustCommitAll (O.meaning custom.now)
        (shelf_use H.holds H.ready H.fetches H.faults shelf.old shelf.new)
        (run_use (maker_use M.C.tells M.C.fault_count M.holds M.has_made M.fault_count
        stores.old stores.new)
        (N.tells ids.old))
        (keeper_use P.holds P.fault_count keeper.old.keeper keeper.new.keeper)
        (ticks_use T.handed_out T.tells ticks.old ticks.new)
        (V.tells avail.old) topology.now input.now fates.new → IfErr result IsMemory }
    ensures never_falls { H.faults shelf.old ≤ H.faults shelf.new }
    ensures store_faults { M.fault_count stores.old ≤ M.fault_count stores.new }
    ensures keep_faults { P.fault_count keeper.old.keeper ≤ P.fault_count keeper.new.keeper }
{
    let files = read_files(alloc, topology, input, shelf)?;
    resume_accepted(
        rt, alloc, files, workers, ticks, avail, stores, ids, custom, gate, keeper, fates,
    )
}

/// Goes on with a run of a plan over the records of its input, and makes the report.
fn resume_accepted<
    R: Threads + Wait + Sync,
    T: Ticks,
    V: Avail,
    M: StoreMaker,
    N: IdMaker,
    O: RowOp,
    G: Gate,
    P: Keeper,
>(
    rt: &R,
    alloc: Global,
    files: Accepted,
    workers: u32,
    ticks: &mut T,
    avail: &mut V,
    stores: &mut M,
    ids: &mut N,
    custom: &O,
    gate: &G,
    keeper: &mut KeptCommits<P>,
    fates: &mut Fates,
) -> Result<String, EarlyEnd>
where
    N::I: Send,
    M::C: Send,
    requires fates { fates.old ≡ [] }
    requires some { 1 ≤ workers }
    requires few { workers ≤ most_workers }
    requires rows { All (IsRow (length files.plan.spout_fields)) files.rows }
    requires few_rows { length files.rows ≤ most_lines }
    ensures report { IfOk result (λ text. AcceptedComes (O.meaning custom.now)
        (run_use (maker_use M.C.tells M.C.fault_count M.holds M.has_made M.fault_count
        stores.old stores.new)
        (N.tells ids.old))
        (keeper_use P.holds P.fault_count keeper.old.keeper keeper.new.keeper)
        (ticks_of_run (ticks_use T.handed_out T.tells ticks.old ticks.new))
        fates.new Status.Done (string_bytes text) files.plan files.rows) }
    ensures stop { IfErr result (Stops (λ ending text. AcceptedComes (O.meaning custom.now)
        (run_use (maker_use M.C.tells M.C.fault_count M.holds M.has_made M.fault_count
        stores.old stores.new)
        (N.tells ids.old))
        (keeper_use P.holds P.fault_count keeper.old.keeper keeper.new.keeper)
        (ticks_of_run (ticks_use T.handed_out T.tells ticks.old ticks.new))
        fates.new ending text files.plan files.rows)) }
    ensures finishes { GoesFree (O.meaning custom.now) files.plan files.rows
        (maker_use M.C.tells M.C.fault_count M.holds M.has_made M.fault_count
        stores.old stores.new)
        (keeper_use P.holds P.fault_count keeper.old.keeper keeper.new.keeper)
        (T.tells ticks.old) (V.tells avail.old) fates.new → IfErr result IsMemory }
    ensures store_faults { M.fault_count stores.old ≤ M.fault_count stores.new }
    ensures keep_faults { P.fault_count keeper.old.keeper ≤ P.fault_count keeper.new.keeper }
{
    // a law: a meta is told by its text
    metas_have_texts_of_their_own();
    let Accepted { plan, rows } = files;
    // made before the keeper is asked, so that a fault of it is told whatever memory is left
    let fault = String::from_str(alloc, "keep fault\n")?;
    let (start, fault) = start_of(alloc, &plan, &rows, keeper, fault)?;
    resume_from(
        rt, alloc, &plan, rows, start, fault, workers, ticks, avail, stores, ids, custom, gate,
        keeper, fates,
    )
}

/// Runs a plan over the records that were not gone at a start, and makes the report.
fn resume_from<
    R: Threads + Wait + Sync,
    T: Ticks,
    V: Avail,
    M: StoreMaker,
    N: IdMaker,
    O: RowOp,
    G: Gate,
    P: Keeper,
>(
    rt: &R,
    alloc: Global,
    plan: &Plan,
    rows: Rows,
    start: Meta,
    fault: String,
    workers: u32,
    ticks: &mut T,
    avail: &mut V,
    stores: &mut M,
    ids: &mut N,
    custom: &O,
    gate: &G,
    keeper: &mut KeptCommits<P>,
    fates: &mut Fates,
) -> Result<String, EarlyEnd>
where
    N::I: Send,
    M::C: Send,
    requires fates { fates.old ≡ [] }
    requires some { 1 ≤ workers }
    requires few { workers ≤ most_workers }
    requires rows { All (IsRow (length plan.now.spout_fields)) rows }
    requires few_rows { length rows ≤ most_lines }
    requires kept { (held : Held) → P.holds keeper.old.keeper held → WasKept held start }
    requires of_input { IsOfInput plan.now rows start }
    requires line { string_bytes fault ≡ keep_fault_line }
    ensures report { IfOk result (λ text. AcceptedComes (O.meaning custom.now)
        (run_use (maker_use M.C.tells M.C.fault_count M.holds M.has_made M.fault_count
        stores.old stores.new)
        (N.tells ids.old))
        (keeper_use P.holds P.fault_count keeper.old.keeper keeper.new.keeper)
        (ticks_of_run (ticks_use T.handed_out T.tells ticks.old ticks.new))
        fates.new Status.Done (string_bytes text) plan.now rows) }
    ensures stop { IfErr result (Stops (λ ending text. AcceptedComes (O.meaning custom.now)
        (run_use (maker_use M.C.tells M.C.fault_count M.holds M.has_made M.fault_count
        stores.old stores.new)
        (N.tells ids.old))
        (keeper_use P.holds P.fault_count keeper.old.keeper keeper.new.keeper)
        (ticks_of_run (ticks_use T.handed_out T.tells ticks.old ticks.new))
        fates.new ending text plan.now rows)) }
    ensures finishes { (to_come : List ℕ) → T.tells ticks.old to_come
        → (0 < plan.now.partitions → V.tells avail.old [])
        → NothingIsInTheWay plan.now (O.meaning custom.now) (cut_after plan.now rows start)
        (maker_use M.C.tells M.C.fault_count M.holds M.has_made M.fault_count
        stores.old stores.new) fates.new
        → (KeeperFailed
        (keeper_use P.holds P.fault_count keeper.old.keeper keeper.new.keeper) → ⊥)
        → sum (first_answers
        (rounds_needed plan.now (O.meaning custom.now) (cut_after plan.now rows start)) to_come)
        < plan.now.buckets → IfErr result IsMemory }
    ensures store_faults { M.fault_count stores.old ≤ M.fault_count stores.new }
    ensures keep_faults { P.fault_count keeper.old.keeper ≤ P.fault_count keeper.new.keeper }
{
    let records = rows.len() as u64;
    let offers = offers_after(plan, rows, &start)?;
    let txid = start.txid;
    keeper.start(start);
    let ending = resume_over(
        rt, alloc, plan, offers, workers, ticks, avail, ids, stores, custom, gate, keeper, fates,
    )?;
    let batches = last_txid(txid, fates.as_slice());
    text_of_resume(alloc, plan, records, batches, fates, &ending, fault)
}
