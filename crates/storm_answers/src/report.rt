ghost use Rattle.std.specs.Prelude.{◌≡◌, All, IfOk, IfErr, length, string_bytes};
ghost use Rattle.event_worlds.specs.Accounted.{IsInput};
ghost use Rattle.event_worlds.specs.record_offers.Offers.{batch_count};
ghost use Rattle.event_worlds.specs.storm_values.Rows.{IsRow};
ghost use Rattle.storm_answers.specs.Reports.{IsEndText, cut_by};
ghost use Rattle.storm_answers.specs.steps.Ended.{IsStopOfEnd, IsUnfollowed};
ghost use Rattle.stored_runs.specs.StoredRuns.{IsAll};

use crate::early_end::{EarlyEnd, told};
use crate::status::Status;
use event_worlds::attempt_fates::Fates;
use event_worlds::record_offers::Offers;
use event_worlds::storm_values::{Memory, Rows};
use event_worlds::topology_plan::Plan;
use run_report::{Tail, report_text};
use schedule_core::committed_in;
use std::alloc::Global;
use stored_runs::RunEnd;

/// How many records and batches an input has.
#[derive(Clone, Copy)]
pub struct Counted {
    pub records: u64,
    pub batches: u64,
}

/// The records of an input, offered as a plan says. None of them is gone.
pub fn offers_of(plan: &Plan, rows: Rows) -> Result<Offers, Memory>
    requires { All (IsRow (length plan.now.spout_fields)) rows }
    ensures cut { IfOk result (λ offers. offers ≡ cut_by plan.now rows) }
    ensures input { IfOk result (IsInput plan.now) }
{
    plan.facts();
    Offers::new(rows, plan.batch(), plan.partitions())
}

/// How many of each there are.
pub fn counted_in(offers: &Offers) -> Counted
    ensures records { result.records ≡ length offers.now.records }
    ensures batches { result.batches ≡ batch_count (length offers.now.records) offers.now.size }
{
    Counted {
        records: offers.rows().len() as u64,
        batches: offers.count(),
    }
}

/// What is written of a run that ended so: its report where every batch is committed, and else why
/// it stopped. No follower failed.
pub fn text_of_end(
    alloc: Global,
    plan: &Plan,
    records: u64,
    fates: &Fates,
    ending: &RunEnd,
) -> Result<String, EarlyEnd>
    requires { IsUnfollowed ending.now }
    ensures all { IfOk result (λ _. IsAll ending.now) }
    ensures done { IfOk result (λ text.
        IsEndText plan.now records fates.now ending.now (string_bytes text)) }
    ensures stop { IfErr result (IsStopOfEnd plan.now records fates.now ending.now) }
{
    match ending {
        RunEnd::All(tables) => {
            let tail = Tail::Ok {
                records,
                batches: committed_in(fates.as_slice()),
            };
            let text = report_text(alloc, plan, fates.as_slice(), tables.as_slice(), tail)?;
            Ok(text)
        }
        RunEnd::Exhausted(txid) => {
            let text = report_text(alloc, plan, fates.as_slice(), &[], Tail::Exhausted(*txid))?;
            Err(EarlyEnd::Told(Status::Exhausted, text))
        }
        RunEnd::Unfinished(count) => {
            let text = report_text(alloc, plan, fates.as_slice(), &[], Tail::Unfinished(*count))?;
            Err(EarlyEnd::Told(Status::Unfinished, text))
        }
        RunEnd::StoreFault => Err(told(alloc, Status::StoreFault, "store fault\n")),
        RunEnd::BadCell(_) => Err(told(alloc, Status::BadCell, "bad cell\n")),
        RunEnd::Follow(_) => unreachable!(),
    }
}
