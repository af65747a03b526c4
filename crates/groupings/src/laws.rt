ghost use Rattle.std.specs.Prelude.{◌≡◌, List, All};
ghost use Rattle.std.specs.List.{flat_map};
ghost use Rattle.storm_values.specs.declared.value.Value.{Value};
ghost use Rattle.topology_plan.specs.declared.parts.Grouping.TheVariants as grouping;
ghost use Rattle.groupings.specs.declared.lane.Lane.{Lane};
ghost use Rattle.groupings.specs.Allowed.{IsAllowed, IsEven, IsLane, routed, told};
ghost use Rattle.groupings.specs.Routing.{targets};

/// A law: a row goes to tasks that the grouping allows alone.
pub fn targets_are_allowed()
    ensures { (lane : Lane) (row : List Value) → IsLane lane
        → All (IsAllowed lane row) (told (targets lane row)) }
{}

/// A law: over any number of calls on one shuffle subscription, any two tasks are given numbers of
/// tuples that differ by at most one.
pub fn shuffles_are_even()
    ensures { (lane : Lane) (rows : List (List Value)) → IsLane lane → lane.by ≡ grouping.Shuffle
        → IsEven lane.first lane.tasks (flat_map told (routed lane rows)) }
{}
