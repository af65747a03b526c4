//! The ticks of a run: how many passed since the last look, by a script for tests and traces, or by
//! the system's clock.
#![tactic(auto)]

mod clock;
mod script;
mod ticks;

pub use clock::{ClockTicks, ticks_at};
pub use script::ScriptTicks;
pub use ticks::{Ticks, handed_out_is_the_sum_of_answers};
