//! Tests of what operations make of a row: those of the table, and stored closures.
#![tactic(auto)]

#[cfg(test)]
mod folds;
#[cfg(test)]
mod stored;
#[cfg(test)]
mod table;
