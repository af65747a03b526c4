//! Calls over files that are cut short at every byte, and files of which a byte is left out: each call
//! ends, and each refusal is the first one in order.
#![tactic(auto)]

#[cfg(test)]
mod inputs;
#[cfg(test)]
mod pieces;
#[cfg(test)]
mod schedules;
#[cfg(test)]
mod topologies;
