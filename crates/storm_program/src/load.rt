ghost use Rattle.std.specs.Prelude.{◌≡◌, ◌≤◌, ◌<◌, ◌⊎◌, ◌+◌, ◌-◌, ◌*◌, ◌^◌, ◌∷◌, [], length, All, IfOk, IfErr, IfSome, string_bytes};
ghost use Rattle.load_source.specs.File.{load_text};
ghost use Rattle.storm_resume.specs.storm_answers.declared.status.Status.{Status};
ghost use Rattle.storm_program.specs.Load.{IsLoadLine, LoadComes, LoadMustCommitAll, cells_in, first_half, line_of, load_events, load_line, values_in, with_values};
ghost use Rattle.storm_resume.specs.storm_answers.Outside.{run_use};
ghost use Rattle.storm_program.specs.Replay.{ReplayEndsSo};
ghost use Rattle.storm_resume.specs.storm_answers.Runs.{IsNotBegun, IsShort, IsUnhindered};
ghost use Rattle.storm_resume.specs.storm_answers.steps.Ended.{WorkStops};
ghost use Rattle.storm_program.specs.steps.Lines.{IsLineOfEnd};
ghost use Rattle.storm_resume.specs.storm_answers.steps.Stops.{IsMemory, Stops};
ghost use Rattle.storm_resume.specs.stored_runs.Makers.{maker_use};
ghost use Rattle.schedule_reader.specs.declared.event.Event.TheVariants.{Rounds};
ghost use Rattle.storm_resume.specs.stored_runs.StoredRuns.{IsAll};
ghost use Rattle.event_worlds.specs.storm_values.Rows.{IsRow};
ghost use Rattle.event_worlds.specs.topology_plan.Wired.{width_of};
ghost use Rattle.event_worlds.specs.tree_model.Trees.{node_count};
ghost use Rattle.topology_reader.specs.FirstFault.{IsFilePlan};

use event_worlds::attempt_fates::Fates;
use event_worlds::bolt_ops::RowOp;
use event_worlds::commit_order::NoFollow;
use event_worlds::storm_ids::IdMaker;
use event_worlds::storm_values::{Memory, Rows};
use event_worlds::topology_plan::{Origin, Plan};
use event_worlds::tree_model::{Pair, Table, count_nodes};
use load_source::{load_file_is_fit, load_plan, load_records, load_records_are_rows};
use schedule_reader::{Event, Events};
use std::alloc::{AllocError, Global};
use std::fmt::Write;
use storm_resume::stored_runs::{RunEnd, replay_over};
use storm_resume::storm_answers::{
    Accepted, Counted, EarlyEnd, counted_in, offers_of, text_of_end,
};
use storm_stores::StoreMaker;

/// Makes so many records of a seed, carries them through the topology of `load`, and makes its
/// line.
pub fn load_records_of<M: StoreMaker, N: IdMaker, O: RowOp>(
    alloc: Global,
    count: u32,
    seed: u32,
    stores: &mut M,
    ids: &mut N,
    custom: &O,
    fates: &mut Fates,
) -> Result<String, EarlyEnd>
    requires seed { seed < 65537 }
    requires fates { fates.old ≡ [] }
    ensures done { IfOk result (λ text. LoadComes (O.meaning custom.now)
        (run_use (maker_use M.C.tells M.C.fault_count M.holds M.has_made M.fault_count
        stores.old stores.new)
        (N.tells ids.old)) count seed fates.new Status.Done (string_bytes text)) }
    ensures stop { IfErr result (Stops (LoadComes (O.meaning custom.now)
        (run_use (maker_use M.C.tells M.C.fault_count M.holds M.has_made M.fault_count
        stores.old stores.new)
        (N.tells ids.old)) count seed fates.new)) }
    ensures finishes { LoadMustCommitAll
        (run_use (maker_use M.C.tells M.C.fault_count M.holds M.has_made M.fault_count
        stores.old stores.new)
        (N.tells ids.old)) fates.new → IfErr result IsMemory }
    ensures store_faults { M.fault_count stores.old ≤ M.fault_count stores.new }
{
    load_file_is_fit();
    load_records_are_rows();
    let plan = load_plan(alloc)?;
    let rows = load_records(alloc, count, seed)?;
    load_accepted(alloc, Accepted { plan, rows }, stores, ids, custom, fates)
}

/// Carries records through a plan by rounds enough, and makes the line.
fn load_accepted<M: StoreMaker, N: IdMaker, O: RowOp>(
    alloc: Global,
    files: Accepted,
    stores: &mut M,
    ids: &mut N,
    custom: &O,
    fates: &mut Fates,
) -> Result<String, EarlyEnd>
    requires fates { fates.old ≡ [] }
    requires rows { All (IsRow (length files.plan.spout_fields)) files.rows }
    ensures line { IfOk result (λ text. IsLoadLine (O.meaning custom.now) files.plan files.rows
        (load_events files.plan (O.meaning custom.now) files.rows)
        (run_use (maker_use M.C.tells M.C.fault_count M.holds M.has_made M.fault_count
        stores.old stores.new)
        (N.tells ids.old)) fates.new (string_bytes text)) }
    ensures stop { IfErr result (Stops (WorkStops
        (ReplayEndsSo (O.meaning custom.now) files.plan files.rows
        (load_events files.plan (O.meaning custom.now) files.rows)
        (run_use (maker_use M.C.tells M.C.fault_count M.holds M.has_made M.fault_count
        stores.old stores.new)
        (N.tells ids.old)) fates.new)
        (IsNotBegun
        (run_use (maker_use M.C.tells M.C.fault_count M.holds M.has_made M.fault_count
        stores.old stores.new)
        (N.tells ids.old)) fates.new
        ⊎ IsShort (O.meaning custom.now) files.plan files.rows
        (run_use (maker_use M.C.tells M.C.fault_count M.holds M.has_made M.fault_count
        stores.old stores.new)
        (N.tells ids.old)) fates.new))) }
    ensures finishes { IsUnhindered files.plan
        (maker_use M.C.tells M.C.fault_count M.holds M.has_made M.fault_count
        stores.old stores.new) fates.new
        → files.plan.attempts ≡ 4 → files.plan.buckets ≡ 3 → IfErr result IsMemory }
    ensures store_faults { M.fault_count stores.old ≤ M.fault_count stores.new }
{
    let Accepted { plan, rows } = files;
    let offers = offers_of(&plan, rows)?;
    let counted = counted_in(&offers);
    let events = rounds_enough(alloc, &plan, offers.rows(), counted.batches, custom)?;
    let ending = replay_over(
        alloc,
        &plan,
        offers,
        &events,
        ids,
        stores,
        custom,
        &mut NoFollow,
        fates,
    )?;
    let _ = text_of_end(alloc, &plan, counted.records, fates, &ending)?;
    let line = line_of_end(alloc, counted, &ending)?;
    Ok(line)
}

/// The line in place of a report.
fn line_of_end(alloc: Global, counted: Counted, ending: &RunEnd) -> Result<String, Memory>
    requires { IsAll ending.now }
    ensures { IfOk result (λ text.
        IsLineOfEnd counted.records counted.batches ending.now (string_bytes text)) }
{
    match ending {
        RunEnd::All(tables) => line_of(alloc, counted, tables.as_slice()),
        _ => Err(AllocError),
    }
}

/// The one event of rounds enough for some records, in so many batches.
fn rounds_enough<O: RowOp>(
    alloc: Global,
    plan: &Plan,
    rows: &Rows,
    batches: u64,
    custom: &O,
) -> Result<Events, Memory>
    requires { All (IsRow (width_of plan.now Origin.Spout)) rows.now }
    ensures { IfOk result (λ events. events
        ≡ Rounds (64 * (node_count plan.now (O.meaning custom.now) rows.now + batches + 1)) ∷ []) }
{
    let nodes = count_nodes(alloc, plan, rows, custom)?;
    let Some(rounds) = rounds_for(nodes, batches) else {
        return Err(AllocError);
    };
    let mut events = Events::new(alloc);
    events.push(Event::Rounds(rounds))?;
    Ok(events)
}

// More rounds than a u32 holds are for trees that no memory has.
fn rounds_for(nodes: u64, batches: u64) -> Option<u32>
    ensures { IfSome result (λ rounds.
        (nodes < 2 ^ 64 - 1) × (rounds ≡ 64 * (nodes + batches + 1))) }
{
    let all = u128::from(nodes) + u128::from(batches) + 1;
    u32::try_from(64 * all).ok()
}

/// The line of a load with these tables.
fn line_of(alloc: Global, counted: Counted, tables: &[Table]) -> Result<String, Memory>
    ensures { IfOk result (λ text.
        string_bytes text ≡ line_of counted.records counted.batches tables.now) }
{
    let Some(keys) = cells_in(tables) else {
        return Err(AllocError);
    };
    load_line(
        alloc,
        counted.records,
        counted.batches,
        keys,
        values_in(tables),
    )
}

#[tactic(auto, unfolding(crate::specs::Load::load_line))]
fn load_line(
    alloc: Global,
    records: u64,
    batches: u64,
    keys: u64,
    words: i128,
) -> Result<String, Memory>
    ensures { IfOk result (λ text. string_bytes text ≡ load_line records batches keys words) }
{
    let mut text = first_half(alloc, records, batches)?;
    writeln!(text, " batches {keys} keys {words} words")?;
    Ok(text)
}

fn first_half(alloc: Global, records: u64, batches: u64) -> Result<String, Memory>
    ensures { IfOk result (λ text. string_bytes text ≡ first_half records batches) }
{
    let mut text = String::new(alloc);
    write!(text, "load {records} records {batches}")?;
    Ok(text)
}

fn cells_in(tables: &[Table]) -> Option<u64>
    ensures { IfSome result (λ count. count ≡ cells_in tables.now) }
{
    let mut count: u64 = 0;
    for table in tables {
        count = count.checked_add(table.pairs.len() as u64)?;
    }
    Some(count)
}

fn values_in(tables: &[Table]) -> i128
    ensures { result ≡ values_in tables.now }
{
    let mut sum = 0;
    for table in tables {
        sum = with_values(sum, table.pairs.as_slice());
    }
    sum
}

fn with_values(sum: i128, pairs: &[Pair]) -> i128
    ensures { result ≡ with_values sum pairs.now }
{
    let mut all = sum;
    for pair in pairs {
        all = all.saturating_add(pair.value);
    }
    all
}
