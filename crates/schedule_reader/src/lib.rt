//! Schedules: from the bytes of a schedule file to its events, or its first fault.
#![tactic(auto)]

mod event;
mod fault;
mod limits;
mod reading;

pub use event::{Event, Events, lines_say_their_events};
pub use fault::ScheduleFault;
pub use limits::{
    MOST_DIGITS, MOST_ROUNDS, MOST_SCHEDULE_BYTES, schedule_limits_have_these_values,
};
pub use reading::{one_byte_past_the_limit_suffices, read_schedule};
