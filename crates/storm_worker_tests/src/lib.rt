//! Tests of runs by workers on threads: whatever their number and their order, the tables are those
//! of one worker, and so is each attempt's end that is no matter of order.
#![tactic(auto)]

#[cfg(test)]
mod ends;
#[cfg(test)]
mod gates;
#[cfg(test)]
mod numbers;
#[cfg(test)]
mod partitions_shut;
#[cfg(test)]
mod tables;
