//! Operations of the user's own that tests share: two that turn rows round, of which one keeps the
//! first amount in a custom fold, and laws of rows that stand many times or not at all.
#![tactic(auto)]

mod first;
mod laws;
mod turned;

pub use first::First;
pub use laws::{Nothing, Sixteen, copies};
pub use turned::Backwards;
