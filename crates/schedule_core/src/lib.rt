//! Given schedules: the engine of events over the parts of all states, step by step on one thread,
//! and the rest of a round whose commit goes to the parts side by side.
#![tactic(auto)]

mod answer;
mod beside;
mod committed;
mod drive;
mod ended;
mod fault;
mod follow;
mod given;
mod laws;
mod rounds;

pub use answer::end_run;
pub use beside::close_round_beside;
pub use committed::committed_in;
pub use ended::Ended;
pub use fault::RunFault;
pub use follow::tell;
pub use given::replay;
pub use laws::{laws_of_commits, laws_of_runs, laws_of_steps};
pub use rounds::run_rounds;
pub use schedule_reader::{Event, Events, ScheduleFault, read_schedule};
