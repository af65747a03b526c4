//! Tests of spans and offers.
#![tactic(auto)]

#[cfg(test)]
mod inputs;
#[cfg(test)]
mod offers;
#[cfg(test)]
mod spans;
#[cfg(test)]
mod starts;
#[cfg(test)]
mod steps;
