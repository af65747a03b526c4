//! The text of a report: the lines of attempts, the cells of tables, and how a run ended. It passes
//! on reports as values, which are printed and read back.
#![tactic(auto)]

mod attempts;
mod edges;
mod laws;
mod report;
mod values;

pub use laws::lines_are_one;
pub use report::report_text;
pub use report_lines::{
    AttemptLine, AttemptLines, CellLine, CellLines, EndLine, Report, ReportFault, Tail,
    print_report, read_report,
};
pub use values::report_of;
