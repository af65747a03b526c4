//! What the tests of workers share: desks of a plan, teams of workers with all of them, and their
//! stretches.
#![tactic(auto)]

mod team;

pub use team::{
    Hiring, TestDesk, TestWorker, acker_desk, hire, last_worker, stretch, task_desk, with_row,
};
