ghost use Rattle.std.specs.Prelude.{◌≡◌, ◌≤◌, ℕ, List, All, length};
ghost use Rattle.tuple_account.specs.storm_values.declared.value.Root.{Root};
ghost use Rattle.tuple_account.specs.storm_values.declared.value.Value.{Value};
ghost use Rattle.tuple_account.specs.topology_plan.declared.parts.Origin.{Origin};
ghost use Rattle.tuple_account.specs.topology_plan.Topology.{Topology, subs_of};
ghost use Rattle.tuple_account.specs.topology_plan.Valid.{IsValid};
ghost use Rattle.tuple_account.specs.topology_plan.Wired.{IsWired};
ghost use Rattle.groupings.specs.declared.lane.Lane.{Lane};
ghost use Rattle.groupings.specs.Allowed.{IsLane};
ghost use Rattle.tuple_account.specs.tree_model.Trees.{kids};
ghost use Rattle.tuple_account.specs.Issued.{tuples_from};
ghost use Rattle.tuple_account.specs.Histories.{GoTo};
ghost use Rattle.output_collector.specs.Outlets.{AreLanesOf, lanes_after, tasks_for};

/// A law: over its own lanes a source's rows have a task for each of their tuples, and the lanes
/// stay its own.
pub fn emitted_tuples_have_tasks()
    ensures tasks { (t : Topology) (from : Origin) (lanes : List Lane) (rows : List (List Value))
        → AreLanesOf t from lanes → length (tasks_for lanes rows) ≡ length (kids t from rows) }
    ensures kept { (t : Topology) (from : Origin) (lanes : List Lane) (rows : List (List Value))
        → AreLanesOf t from lanes → AreLanesOf t from (lanes_after lanes rows) }
    ensures sound { (lanes : List Lane) (rows : List (List Value))
        → All IsLane lanes → All IsLane (lanes_after lanes rows) }
{}

/// A law: each emitted tuple goes to a task of its component.
pub fn emitted_tuples_go_to_their_components()
    ensures { (t : Topology) (from : Origin) (lanes : List Lane) → IsValid t → IsWired t
        → AreLanesOf t from lanes → All IsLane lanes
        → (root : Root) (path : List ℕ) (rows : List (List Value)) (ids : List ℕ)
        → length ids ≡ length (kids t from rows)
        → GoTo t (tuples_from root path 0 (kids t from rows) ids) (tasks_for lanes rows) }
{}

/// A law: a source has at most 40 subscriptions, and so a collector as many start words.
pub fn start_words_are_few()
    ensures { (t : Topology) (from : Origin) → IsValid t → IsWired t
        → length (subs_of t from) ≤ 40 }
{}
