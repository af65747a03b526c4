//! What an execution passes before it begins: nothing, or a gate that holds two executions until
//! both have come, for tests.
#![tactic(auto)]

mod gates;

pub use gates::{Gate, HoldUntil, OpenGate};
