//! Values, rows and the lists of a storm topology.
#![tactic(auto)]

mod bytes;
mod few;
mod inside;
mod keys;
mod limits;
mod lines;
mod list;
mod path;
mod text;
mod value;

pub use bytes::Bytes;
pub use few::Few;
pub use keys::{key_hash, key_hash_in, key_text, key_text_in, plain_key, quoted_key};
pub use limits::{
    LEAST_BUCKETS, MOST_ACKERS, MOST_ATTEMPTS, MOST_BATCH, MOST_BELOW, MOST_BOLT_INPUTS,
    MOST_BOLTS, MOST_BUCKETS, MOST_CONSTANT_BYTES, MOST_CUSTOM_ROWS, MOST_FIELDS, MOST_INPUT_BYTES,
    MOST_LINE_BYTES, MOST_LINES, MOST_NAME_BYTES, MOST_PENDING, MOST_STATE_INPUTS, MOST_STATES,
    MOST_TASKS, MOST_TASKS_IN_ALL, MOST_TEXT_BYTES, MOST_TOPOLOGY_BYTES, MOST_WEIGHT, MOST_WORKERS,
    limits_have_these_values,
};
pub use lines::{
    InputFault, LineFault, find_byte, one_byte_past_the_limit_suffices, read_input, row_from_line,
    split_line,
};
pub use list::{Duplicate, Indexes, Memory, Seq};
pub use path::{Path, path_order_is_total};
pub use text::Txt;
pub use value::{Names, Root, Row, Rows, Value, value_order_is_total};
