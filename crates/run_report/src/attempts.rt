// The lines of attempts.
ghost use Rattle.std.specs.Prelude.{◌≡◌, ◌++◌, OnOk, string_bytes};
ghost use Rattle.run_report.specs.Fated.{name_at};
ghost use Rattle.report_grammar.specs.Report.{commit_failed, dropped, end_text, failed};
ghost use Rattle.run_report.specs.Steps.{heading_of, AddsCoincided, AddsEnd, AddsLine, AddsLines};

use crate::edges::push_open;
use attempt_fates::{Attempt, End};
use message_lists::Notes;
use report_lines::{push_path, push_root, push_spans};
use std::alloc::Global;
use std::fmt::Write;
use tree_model::storm_values::{Memory, Path, Root};
use tree_model::topology_plan::Plan;

pub fn push_attempts(
    alloc: Global,
    text: &mut String,
    plan: &Plan,
    fates: &[Attempt],
) -> Result<(), Memory>
    ensures { OnOk result
        (AddsLines plan.now fates.now (string_bytes text.old) (string_bytes text.new)) }
{
    for attempt in fates {
        push_attempt(alloc, text, plan, attempt)?;
    }
    Ok(())
}

fn push_attempt(
    alloc: Global,
    text: &mut String,
    plan: &Plan,
    attempt: &Attempt,
) -> Result<(), Memory>
    ensures { OnOk result
        (AddsLine plan.now attempt.now (string_bytes text.old) (string_bytes text.new)) }
{
    push_heading(text, attempt)?;
    push_end(alloc, text, plan, &attempt.end)?;
    writeln!(text)?;
    Ok(())
}

#[tactic(auto, unfolding(crate::specs::Steps::heading_of))]
fn push_heading(text: &mut String, attempt: &Attempt) -> Result<(), Memory>
    ensures { OnOk result
        (string_bytes text.new ≡ string_bytes text.old ++ heading_of attempt.now) }
{
    let (txid, number) = (attempt.root.txid, attempt.root.attempt);
    write!(text, "attempt {txid}.{number} records ")?;
    push_spans(text, attempt.spans.as_slice())?;
    let (start, finish) = (attempt.start, attempt.finish);
    write!(text, " ticks {start}-{finish} ")?;
    Ok(())
}

fn push_end(alloc: Global, text: &mut String, plan: &Plan, end: &End) -> Result<(), Memory>
    ensures { OnOk result
        (AddsEnd plan.now end.now (string_bytes text.old) (string_bytes text.new)) }
{
    match end {
        End::Committed(_) => text.push_str("committed"),
        End::Failed(path) => push_failed(text, path),
        End::TimedOut => text.push_str("timed out"),
        End::Coincided(list) => push_coincided(alloc, text, list),
        End::CommitFailed {
            component,
            part,
            ..
        } => push_commit_failed(text, name_of(plan, *component), *part),
        End::Dropped(by) => push_dropped(text, *by),
    }
}

fn push_failed(text: &mut String, path: &Path) -> Result<(), Memory>
    ensures { OnOk result
        (string_bytes text.new ≡ string_bytes text.old ++ end_text (failed path.now)) }
{
    text.push_str("failed ")?;
    push_path(text, path)
}

fn push_coincided(alloc: Global, text: &mut String, list: &Notes) -> Result<(), Memory>
    ensures { OnOk result (AddsCoincided list.now (string_bytes text.old) (string_bytes text.new)) }
{
    text.push_str("coincided ")?;
    push_open(alloc, text, list)
}

fn push_commit_failed(text: &mut String, state: &str, part: u32) -> Result<(), Memory>
    ensures { OnOk result (string_bytes text.new
        ≡ string_bytes text.old ++ end_text (commit_failed state.now part)) }
{
    write!(text, "commit failed {state} {part}")?;
    Ok(())
}

fn push_dropped(text: &mut String, by: Root) -> Result<(), Memory>
    ensures { OnOk result
        (string_bytes text.new ≡ string_bytes text.old ++ end_text (dropped by)) }
{
    text.push_str("dropped ")?;
    push_root(text, by)
}

/// The name of the component of a number, empty where there is none.
pub fn name_of(plan: &Plan, component: u32) -> &str
    ensures { result.now ≡ name_at plan.now component }
{
    if component < plan.components() {
        plan.component(component).name.as_str()
    } else {
        ""
    }
}
