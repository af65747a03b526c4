//! Reports line by line: their one text, and the report that a text is.
#![tactic(auto)]

mod cells;
mod checks;
mod cursor;
mod ends;
mod fault;
mod gathered;
mod lines;
mod lists;
mod printed;
mod reading;
mod report;
mod texts;

pub use fault::ReportFault;
pub use printed::print_report;
pub use reading::read_report;
pub use report::{AttemptLine, AttemptLines, CellLine, CellLines, EndLine, Report, Tail};
pub use report_grammar::reports_have_texts_of_their_own;
pub use texts::{push_edges, push_path, push_root, push_spans};
