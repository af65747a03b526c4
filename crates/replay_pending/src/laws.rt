ghost use Rattle.std.specs.Prelude.{◌≡◌, ◌+◌, ◌<◌, ◌==◌, false, is_some, List};
ghost use Rattle.std.specs.List.{list_any};
ghost use Rattle.record_spans.specs.declared.span.Span.{Span};
ghost use Rattle.storm_values.specs.declared.value.Root.{Root};
ghost use Rattle.replay_pending.specs.Calls.{Call, Tick, after_all, begins, is_of, one_tells, tells, ticks_in};
ghost use Rattle.replay_pending.specs.InFlight.{InFlight, begun, is_pending, timed_of};

/// A law: of a root that begins, and whatever calls come after it that are not of this root, with
/// fewer ticks than there are buckets: none of them tells the root, and one more tick tells it
/// exactly where it is that of the number of buckets since the begin.
pub fn roots_are_told_at_their_last_tick<L>()
    ensures not_before { (root : Root) (spans : List Span) (p : InFlight L)
        (calls : List (Call L))
        → is_pending root p.pending ≡ false → list_any (is_of root) calls ≡ false
        → ticks_in calls < p.buckets → one_tells root calls (begun root spans p) ≡ false }
    ensures at_last { (root : Root) (spans : List Span) (p : InFlight L)
        (calls : List (Call L))
        → is_pending root p.pending ≡ false → list_any (is_of root) calls ≡ false
        → ticks_in calls < p.buckets
        → tells root Tick (after_all calls (begun root spans p))
        ≡ (ticks_in calls + 1 == p.buckets) }
{}

/// A law: a root that is not timed, since it was settled, has ended or did not begin, is told by no
/// call until it begins.
pub fn roots_that_are_not_timed_are_not_told<L>()
    ensures { (root : Root) (p : InFlight L) (calls : List (Call L))
        → is_some (timed_of root p.pending) ≡ false → list_any (begins root) calls ≡ false
        → one_tells root calls p ≡ false }
{}
