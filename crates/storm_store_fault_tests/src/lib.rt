//! Two tables over every command: in the first one call of a store fails, in the second two calls
//! to the outside do.
#![tactic(auto)]

#[cfg(test)]
mod commands;
#[cfg(test)]
mod pairs;
#[cfg(test)]
mod singles;
