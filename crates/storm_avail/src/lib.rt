//! Which partitions of a spout can be read: all of them, or by a script for tests and traces.
#![tactic(auto)]

mod avail;
mod script;

pub use avail::{AllOpen, Avail};
pub use script::ScriptAvail;
