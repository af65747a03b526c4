//! Topologies for tests, and records with their reports.
#![tactic(auto)]

mod examples;
mod topologies;

pub use examples::{
    Example, GROUPINGS, LONG_SCHEDULE, NEVER, OPERATIONS, SCALES, SEVERAL, Scale, scaled,
};
pub use topologies::{
    COPIES_TO_ALL, COUNTED_SENTENCES, DROPS_ALWAYS, DROPS_ONCE, DROPS_THEN_FAILS, FAILS_ALWAYS,
    FAILS_TWICE, LAST_VALUE, MUTE_ALWAYS, MUTE_ONCE, PAIRS, SENTENCES, SIDE_BY_SIDE,
    SMALL_WORD_COUNT, STEADY, TABLES_OF_SENTENCES, TURNED, TWO_PARTITIONS, WORD_COUNT, one_bolt,
};
