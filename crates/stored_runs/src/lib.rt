//! Runs over the stores of a maker: a given schedule, or with the ticks of a source rounds on one
//! thread or workers on many, also over stores that perhaps hold the cells of an earlier run. The parts of all states are made, run over, read and given back.
#![tactic(auto)]

mod closing;
mod ending;
mod given;
mod laws;
mod migrating;
mod over_parts;
mod resumed;
mod rounds;
mod runs;
mod workers;

pub use closing::{as_ended, close};
pub use ending::RunEnd;
pub use given::replay_over;
pub use laws::laws_of_runs;
pub use resumed::resume_over;
pub use rounds::run_over_rounds;
pub use runs::run_over;
pub use workers::run_over_workers;
