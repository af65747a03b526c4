//! Tests of checks of topologies, and of the kit: a check of a call that answers otherwise fails.
#![tactic(auto)]

#[cfg(test)]
mod checks;
#[cfg(test)]
mod kit;
#[cfg(test)]
mod largest;
