//! Lists of messages of ackers in a compact form: what siblings share is kept once.
#![tactic(auto)]

mod lent;
mod packed;

pub use lent::{LentDone, LentNote};
pub use packed::{Notes, Room};
