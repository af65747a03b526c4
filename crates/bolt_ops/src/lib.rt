//! The operations of bolts.
#![tactic(auto)]

mod custom;
mod operation;
mod reverse;
mod stored;

pub use custom::RowOp;
pub use operation::{Outcome, exec, output_rows};
pub use reverse::{Reverse, reversed_row};
pub use stored::{RowFn, RowLaw, StoredOp};
