//! What a worker owns, and its stretches: tasks and ackers that take turns over boxes, in threads
//! side by side.
#![tactic(auto)]

mod acker;
mod crew;
mod desk;
mod outbox;
mod spares;
mod worker;

pub use acker::AckerDesk;
pub use desk::TaskDesk;
pub use outbox::{Outbox, Run};
pub use spares::Spares;
pub use worker::{Worker, stretch_all};
