//! The limit of a plan that no other crate bounds. `specs/Limits.antt` says what it bounds.

ghost use Rattle.std.specs.Prelude.{◌≡◌};
ghost use Rattle.topology_plan.specs.Limits as limit;

pub const MOST_PARTITIONS: u32 = 16;

/// A law: the constant is the limit that contracts name.
pub fn plan_limits_have_these_values()
    ensures { MOST_PARTITIONS ≡ limit.most_partitions }
{}
