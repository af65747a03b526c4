//! Values of roots in buckets that rotate, and the XOR word of each root.
#![tactic(auto)]

mod bucket;
mod dropped;
mod key;
mod ledger;
mod rotating;
mod slot;
mod state;

pub use dropped::Dropped;
pub use ledger::Ledger;
pub use rotating::Rotating;
pub use state::{AckState, Told};
