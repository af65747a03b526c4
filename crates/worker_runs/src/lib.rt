//! A run of workers: stretches on threads, and between them rounds of the caller.
#![tactic(auto)]

mod by_workers;
mod laws;
mod run;

pub use by_workers::run_by_workers;
pub use run::run_workers;
