//! What the tests of boxes and workers share: a plan of three bolts with its first messages, which
//! are sent, a gate that counts executions, and verdicts that are counted.
#![tactic(auto)]

mod gates;
mod plans;
mod sends;
mod verdicts;

pub use gates::Counting;
pub use plans::{ACKERS_AT, LAST_BOX, LEVELS, chain, done_mail, first_mail, init_mail, wrong};
pub use sends::{send_first, send_firsts};
pub use verdicts::Verdicts;
