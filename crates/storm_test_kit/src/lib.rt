//! What the tests of whole calls share: files, an output, ticks, stores and ids in memory, calls of
//! `storm`, and what they answer.
//!
//! It passes on `storm_program`.
#![tactic(auto)]

mod calls;
mod outside;
mod scenes;

pub use calls::{
    Fate, Told, call, call_behind, call_custom, check_answer, check_call, check_faults,
    check_refusal, check_tables,
};
pub use outside::{
    CALM, Cell, Failing, Outside, Script, scripted_ids, scripted_ticks, shelf, sink, stores, taken,
    ticks_every,
};
pub use scenes::{
    CHECK, PLAIN, REPLAY, RUN, RUN_ALONE, Scene, owned, plain_of, reads_of, replay_of, run_alone,
    run_of, run_over,
};
pub use storm_program;
