//! Tests of values, keys, rows, lists and lines.
#![tactic(auto)]

#[cfg(test)]
mod values;
