//! Tests of windows of records that are tracked by a shared ledger: several numbers of workers,
//! attempts that fail or stay mute, and ids that coincide.
#![tactic(auto)]

#[cfg(test)]
mod runs;
#[cfg(test)]
mod windows;
