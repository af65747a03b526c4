//! Tests of metas: their texts, and keepers in memory and in files.
#![tactic(auto)]

#[cfg(test)]
mod bad;
#[cfg(test)]
mod files;
#[cfg(test)]
mod keepers;
#[cfg(test)]
mod steps;
#[cfg(test)]
mod texts;
#[cfg(test)]
mod trouble;
