ghost use Rattle.std.specs.Prelude.{◌≡◌, ◌++◌, IfOk, OnOk, map, string_bytes};
ghost use Rattle.std.specs.List.{flat_map};
ghost use Rattle.run_report.specs.Cells.{cell_of, cells_of};
ghost use Rattle.report_grammar.specs.Report.{cell_text, tail_text};
ghost use Rattle.report_lines.specs.Told.{tail_told};
ghost use Rattle.run_report.specs.Fated.{IsReportText};

use crate::attempts::push_attempts;
use attempt_fates::Attempt;
use report_lines::Tail;
use std::alloc::Global;
use std::fmt::Write;
use tree_model::storm_values::Memory;
use tree_model::topology_plan::Plan;
use tree_model::{Pair, Table};

/// The text of a report. It takes time in proportion to its length, and besides to n log n for
/// the n edges of each attempt that coincided.
pub fn report_text(
    alloc: Global,
    plan: &Plan,
    fates: &[Attempt],
    tables: &[Table],
    tail: Tail,
) -> Result<String, Memory>
    ensures { IfOk result
        (λ text. IsReportText plan.now fates.now tables.now tail (string_bytes text)) }
{
    let mut text = String::new(alloc);
    push_attempts(alloc, &mut text, plan, fates)?;
    push_cells(&mut text, tables)?;
    push_tail(&mut text, tail)?;
    Ok(text)
}

fn push_cells(text: &mut String, tables: &[Table]) -> Result<(), Memory>
    ensures { OnOk result (string_bytes text.new
        ≡ string_bytes text.old ++ flat_map cell_text (cells_of tables.now)) }
{
    for table in tables {
        push_table(text, table.name.as_str(), table.pairs.as_slice())?;
    }
    Ok(())
}

fn push_table(text: &mut String, name: &str, pairs: &[Pair]) -> Result<(), Memory>
    ensures { OnOk result (string_bytes text.new
        ≡ string_bytes text.old ++ flat_map cell_text (map (cell_of name.now) pairs.now)) }
{
    for pair in pairs {
        let key = pair.key.as_str();
        let value = pair.value;
        writeln!(text, "cell {name} {key} {value}")?;
    }
    Ok(())
}

fn push_tail(text: &mut String, tail: Tail) -> Result<(), Memory>
    ensures { OnOk result
        (string_bytes text.new ≡ string_bytes text.old ++ tail_text (tail_told tail)) }
{
    match tail {
        Tail::Ok { records, batches } => {
            writeln!(text, "ok {records} records {batches} batches")?;
        }
        Tail::Exhausted(txid) => writeln!(text, "exhausted {txid}")?,
        Tail::Unfinished(committed) => writeln!(text, "unfinished {committed}")?,
    }
    Ok(())
}
