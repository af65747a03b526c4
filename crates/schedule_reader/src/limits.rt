//! The limits of a schedule. `specs/Limits.antt` says what each of them bounds.

ghost use Rattle.std.specs.Prelude.{◌≡◌};
ghost use Rattle.schedule_reader.specs.Limits as limit;

pub const MOST_SCHEDULE_BYTES: usize = 1_048_576;

pub const MOST_DIGITS: usize = 8;

pub const MOST_ROUNDS: u32 = 10_000_000;

/// A law: the constants are the limits that contracts name.
pub fn schedule_limits_have_these_values()
    ensures schedule_bytes { MOST_SCHEDULE_BYTES ≡ limit.most_schedule_bytes }
    ensures digits { MOST_DIGITS ≡ limit.most_digits }
    ensures rounds { MOST_ROUNDS ≡ limit.most_rounds }
{}
