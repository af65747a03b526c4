//! Tests of schedules over the plan of a topology file.
#![tactic(auto)]

#[cfg(test)]
mod checks;
#[cfg(test)]
mod schedules;
