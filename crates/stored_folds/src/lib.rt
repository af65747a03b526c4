//! Custom folds as closures that are stored beside their law.
#![tactic(auto)]

mod first;
mod stored;

pub use first::First;
pub use stored::{CombineFn, FoldLaw, OneFn, StoredFold};
