ghost use Rattle.std.specs.Prelude.{◌≡◌, ◌++◌, length, IfOk, OnOk, string_bytes};
ghost use Rattle.track_report.specs.Lines.{acked_in, end_text, record_line, record_lines, state_lines, tail_line, tally_line, tally_lines, track_text};

use crate::ending::RecordEnd;
use state_tallies::KeyCount;
use std::alloc::Global;
use std::fmt::Write;
use tree_model::storm_values::{Memory, Seq};
use tree_model::topology_plan::Plan;

/// The text of a tracking, from the ends of all records in their order and the counts of each
/// component's keys. Those of a component stand in the order in which they are given. It takes time
/// in proportion to the records and the keys.
pub fn track_text(
    alloc: Global,
    plan: &Plan,
    ends: &[RecordEnd],
    tallies: &[Seq<KeyCount>],
) -> Result<String, Memory>
    requires { length tallies.now ≡ length plan.now.components }
    ensures { IfOk result (λ text. string_bytes text ≡ track_text plan.now ends.now tallies.now) }
{
    let mut text = String::new(alloc);
    push_records(&mut text, ends)?;
    push_tallies(&mut text, plan, tallies)?;
    push_tail(&mut text, ends.len(), acked_in(ends))?;
    Ok(text)
}

fn push_records(text: &mut String, ends: &[RecordEnd]) -> Result<(), Memory>
    ensures { OnOk result
        (string_bytes text.new ≡ string_bytes text.old ++ record_lines 1 ends.now) }
{
    for place in 0..ends.len() {
        push_record(text, place as u64 + 1, ends[place])?;
    }
    Ok(())
}

#[tactic(auto, unfolding(crate::specs::Lines::record_line))]
fn push_record(text: &mut String, number: u64, end: RecordEnd) -> Result<(), Memory>
    ensures { OnOk result
        (string_bytes text.new ≡ string_bytes text.old ++ record_line number end) }
{
    let attempts = end.attempts;
    write!(text, "record {number} attempts {attempts}")?;
    push_end(text, end.acked)
}

fn push_end(text: &mut String, acked: bool) -> Result<(), Memory>
    ensures { OnOk result (string_bytes text.new ≡ string_bytes text.old ++ end_text acked) }
{
    if acked {
        text.push_str(" acked\n")
    } else {
        text.push_str(" gave up\n")
    }
}

fn push_tallies(text: &mut String, plan: &Plan, tallies: &[Seq<KeyCount>]) -> Result<(), Memory>
    requires { length tallies.now ≡ length plan.now.components }
    ensures { OnOk result (string_bytes text.new
        ≡ string_bytes text.old ++ tally_lines plan.now.components tallies.now) }
{
    for number in 0..plan.components() {
        let state = plan.component(number).name.as_str();
        push_state(text, state, tallies[number as usize].as_slice())?;
    }
    Ok(())
}

fn push_state(text: &mut String, state: &str, counts: &[KeyCount]) -> Result<(), Memory>
    ensures { OnOk result
        (string_bytes text.new ≡ string_bytes text.old ++ state_lines state.now counts.now) }
{
    for counted in counts {
        push_tally(text, state, counted)?;
    }
    Ok(())
}

fn push_tally(text: &mut String, state: &str, counted: &KeyCount) -> Result<(), Memory>
    ensures { OnOk result
        (string_bytes text.new ≡ string_bytes text.old ++ tally_line state.now counted.now) }
{
    if counted.count == 0 {
        return Ok(());
    }
    let key = counted.key.as_str();
    let count = counted.count;
    writeln!(text, "tally {state} {key} {count}")?;
    Ok(())
}

fn push_tail(text: &mut String, records: usize, acked: usize) -> Result<(), Memory>
    ensures { OnOk result
        (string_bytes text.new ≡ string_bytes text.old ++ tail_line records acked) }
{
    writeln!(text, "tracked {records} records {acked} acked")?;
    Ok(())
}

/// How many records were acked.
fn acked_in(ends: &[RecordEnd]) -> usize
    ensures { result ≡ acked_in ends.now }
{
    ends.iter().filter(|end| end.acked).count()
}
