//! What is written of a run that went on.
ghost use Rattle.std.specs.Prelude.{◌≡◌, ◌⊎◌, IfOk, IfErr, string_bytes};
ghost use Rattle.event_worlds.specs.attempt_fates.Fates.{is_committed};
ghost use Rattle.storm_answers.specs.stored_runs.StoredRuns.{IsAll};
ghost use Rattle.storm_resume.specs.Resume.{keep_fault_line};
ghost use Rattle.storm_resume.specs.steps.Going.{IsNoFault, IsResumeText, IsStopOfResume, IsTold, last_txid};

use event_worlds::attempt_fates::{Attempt, End, Fates};
use event_worlds::topology_plan::Plan;
use std::alloc::Global;
use storm_answers::run_report::{Tail, report_text};
use storm_answers::stored_runs::RunEnd;
use storm_answers::{EarlyEnd, Status, text_of_end};

/// The text of a run that ended so: its report where no record is left, whose last line counts the
/// batches of earlier runs too, and else why it stopped. The line of a keeper's fault is handed in,
/// so that it can be told without memory.
pub fn text_of_resume(
    alloc: Global,
    plan: &Plan,
    records: u64,
    batches: u64,
    fates: &Fates,
    ending: &RunEnd,
    fault: String,
) -> Result<String, EarlyEnd>
    requires { string_bytes fault ≡ keep_fault_line }
    ensures all { IfOk result (λ _. IsAll ending.now) }
    ensures done { IfOk result (λ text.
        IsResumeText plan.now records batches fates.now ending.now (string_bytes text)) }
    ensures stop { IfErr result (IsStopOfResume plan.now records batches fates.now ending.now) }
    ensures told { IfErr result (λ stop. IsNoFault ending.now ⊎ IsTold stop) }
{
    match ending {
        RunEnd::All(tables) => {
            let tail = Tail::Ok { records, batches };
            let text = report_text(alloc, plan, fates.as_slice(), tables.as_slice(), tail)?;
            Ok(text)
        }
        RunEnd::Follow(_) => Err(EarlyEnd::Told(Status::KeepFault, fault)),
        _ => text_of_end(alloc, plan, records, fates, ending),
    }
}

/// The transaction of the last commit, or this one where there was none.
pub fn last_txid(txid: u64, fates: &[Attempt]) -> u64
    ensures { result ≡ last_txid txid fates.now }
{
    let mut last = txid;
    for attempt in fates {
        if is_committed(&attempt.end) {
            last = attempt.root.txid;
        }
    }
    last
}

fn is_committed(end: &End) -> bool
    ensures { result ≡ is_committed end.now }
{
    matches!(end, End::Committed(_))
}
