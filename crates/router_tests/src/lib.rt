//! Tests of where rows go, by one grouping and in the plans of topology files.
#![tactic(auto)]

#[cfg(test)]
mod calls;
#[cfg(test)]
mod lanes;
#[cfg(test)]
mod routes;
