//! The form of a topology file: what it says, or the first fault of its form. One decoder an
//! object.
#![tactic(auto)]

mod fault;
mod format;
mod forms;
mod object;
mod operations;
mod parts;

pub use fault::TopoFault;
pub use format::{files_are_in_range, parts_from};
pub use forms::within;
pub use operations::Operation;
pub use parts::{BodyPart, ComponentPart, FileParts, GroupingPart, Input, SpoutPart, StatePart};
