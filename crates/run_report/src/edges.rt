// The list of an attempt that coincided.
ghost use Rattle.std.specs.Prelude.{OnOk, string_bytes};
ghost use Rattle.run_report.specs.Steps.{AddsOpen};

use acker_core::{Check, check_list};
use message_lists::Notes;
use report_lines::push_edges;
use std::alloc::Global;
use tree_model::storm_values::Memory;

/// Adds the edges that a list leaves open.
pub fn push_open(alloc: Global, text: &mut String, list: &Notes) -> Result<(), Memory>
    ensures { OnOk result (AddsOpen list.now (string_bytes text.old) (string_bytes text.new)) }
{
    match check_list(alloc, list)? {
        Check::Closed(_) => Ok(()),
        Check::Left(edges) => push_edges(alloc, text, edges.as_slice()),
    }
}
