//! The limits of what is read and run. `specs/Limits.antt` says what each of them bounds.

ghost use Rattle.std.specs.Prelude.{◌≡◌};
ghost use Rattle.storm_values.specs.Limits as limit;

pub const MOST_LINE_BYTES: usize = 4096;

pub const MOST_INPUT_BYTES: usize = 67_108_864;

pub const MOST_LINES: usize = 1_000_000;

pub const MOST_FIELDS: u32 = 8;

pub const MOST_TEXT_BYTES: usize = 4096;

pub const MOST_CUSTOM_ROWS: usize = 16;

pub const MOST_TOPOLOGY_BYTES: usize = 65_536;

pub const MOST_NAME_BYTES: usize = 32;

pub const MOST_CONSTANT_BYTES: u32 = 256;

pub const MOST_BOLTS: u32 = 32;

pub const MOST_STATES: u32 = 8;

pub const MOST_BOLT_INPUTS: u32 = 32;

pub const MOST_STATE_INPUTS: u32 = 33;

pub const MOST_TASKS: u32 = 64;

pub const MOST_TASKS_IN_ALL: u32 = 1_024;

pub const MOST_WEIGHT: u64 = 4_096;

pub const MOST_BATCH: u32 = 100_000;

pub const MOST_ACKERS: u32 = 16;

pub const MOST_PENDING: u32 = 64;

pub const LEAST_BUCKETS: u32 = 2;

pub const MOST_BUCKETS: u32 = 16;

pub const MOST_ATTEMPTS: u32 = 100;

pub const MOST_BELOW: u32 = 100;

pub const MOST_WORKERS: u32 = 64;

/// A law: the constants are the limits that contracts name.
pub fn limits_have_these_values()
    ensures line_bytes { MOST_LINE_BYTES ≡ limit.most_line_bytes }
    ensures input_bytes { MOST_INPUT_BYTES ≡ limit.most_input_bytes }
    ensures lines { MOST_LINES ≡ limit.most_lines }
    ensures fields { MOST_FIELDS ≡ limit.most_fields }
    ensures text_bytes { MOST_TEXT_BYTES ≡ limit.most_text_bytes }
    ensures custom_rows { MOST_CUSTOM_ROWS ≡ limit.most_custom_rows }
    ensures topology_bytes { MOST_TOPOLOGY_BYTES ≡ limit.most_topology_bytes }
    ensures name_bytes { MOST_NAME_BYTES ≡ limit.most_name_bytes }
    ensures constant_bytes { MOST_CONSTANT_BYTES ≡ limit.most_constant_bytes }
    ensures bolts { MOST_BOLTS ≡ limit.most_bolts }
    ensures states { MOST_STATES ≡ limit.most_states }
    ensures bolt_inputs { MOST_BOLT_INPUTS ≡ limit.most_bolt_inputs }
    ensures state_inputs { MOST_STATE_INPUTS ≡ limit.most_state_inputs }
    ensures tasks { MOST_TASKS ≡ limit.most_tasks }
    ensures tasks_in_all { MOST_TASKS_IN_ALL ≡ limit.most_tasks_in_all }
    ensures weight { MOST_WEIGHT ≡ limit.most_weight }
    ensures batch { MOST_BATCH ≡ limit.most_batch }
    ensures ackers { MOST_ACKERS ≡ limit.most_ackers }
    ensures pending { MOST_PENDING ≡ limit.most_pending }
    ensures fewest_buckets { LEAST_BUCKETS ≡ limit.least_buckets }
    ensures buckets { MOST_BUCKETS ≡ limit.most_buckets }
    ensures attempts { MOST_ATTEMPTS ≡ limit.most_attempts }
    ensures below { MOST_BELOW ≡ limit.most_below }
    ensures workers { MOST_WORKERS ≡ limit.most_workers }
{}
