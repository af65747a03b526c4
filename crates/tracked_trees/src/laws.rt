//! Laws of what is reached, each a call that does nothing.
ghost use Rattle.std.specs.Prelude.{◌≡◌, ◌≤◌, ◌↔◌, ◌⊎◌, ℕ, suc, ◌+◌, ◌-◌, ◌^◌, true, List, [], ◌∷◌, length, Some};
ghost use Rattle.std.specs.List.{flat_map};
ghost use Rattle.tree_model.specs.bolt_ops.RowOp.{Custom};
ghost use Rattle.tree_model.specs.counted_items.Weights.{weigh};
ghost use Rattle.tree_model.specs.storm_values.declared.value.Value.{Value};
ghost use Rattle.tree_model.specs.topology_plan.declared.parts.Origin.TheVariants.{Spout};
ghost use Rattle.tree_model.specs.topology_plan.Topology.{Topology};
ghost use Rattle.tree_model.specs.topology_plan.Valid.{IsValid};
ghost use Rattle.tree_model.specs.tuple_tickets.Trees.{goes};
ghost use Rattle.tree_model.specs.Courses.{course_at};
ghost use Rattle.tree_model.specs.Trees.{Node, kids, node_at, nodes_of};
ghost use Rattle.tracked_trees.specs.Reached.{kids_at, reached, reached_from, is_good};
ghost use Rattle.tracked_trees.specs.Tries.{acked_writes, tally, tallied};

/// A law: a good attempt reaches all nodes of the record's tree.
pub fn good_attempts_reach_all()
    ensures { (t : Topology) (custom : Custom) (attempt : ℕ) (row : List Value)
        → is_good t custom attempt row ≡ true
        → reached t custom attempt row ≡ nodes_of t custom (row ∷ []) }
{}

/// A law: an attempt is good exactly where each node of the record's tree comes to rows.
pub fn good_trees_go()
    ensures { (t : Topology) (custom : Custom) (attempt : ℕ) (row : List Value) → IsValid t
        → is_good t custom attempt row ≡ true ↔ ((path : List ℕ) (node : Node)
        → node_at t custom (row ∷ []) path ≡ Some node
        → course_at t custom attempt node ≡ goes) }
{}

/// A law: a tally that has not ended at 2^64 - 1 is at least the number of writes of its state and
/// key in the trees of the acked records. So what was acked was written at least once.
pub fn tallies_are_enough()
    ensures { (t : Topology) (custom : Custom) (state : ℕ) (key : List ℕ) (most : ℕ)
        (rows : List (List Value))
        → (tally t custom state key most rows ≡ 2 ^ 64 - 1)
        ⊎ (acked_writes t custom state key most rows ≤ tally t custom state key most rows) }
{}

/// A law: nodes and what is reached below them, counted depth by depth: the nodes themselves, and
/// then what is reached from all their children.
pub fn depths_add_up()
    ensures { (t : Topology) (custom : Custom) (attempt levels : ℕ) (nodes : List Node)
        (f : Node → ℕ)
        → weigh f (flat_map (reached_from (suc levels) t custom attempt) nodes)
        ≡ weigh f nodes + weigh f (flat_map (reached_from levels t custom attempt)
        (flat_map (kids_at t custom attempt) nodes)) }
{}

/// A law: what is reached in the trees of all records, counted from their first nodes, is what is
/// reached record by record.
pub fn reached_counts_end()
    ensures { (t : Topology) (custom : Custom) (attempt : ℕ) (rows : List (List Value))
        (f : Node → ℕ)
        → weigh f (flat_map (reached_from (length t.components) t custom attempt)
        (kids t Spout rows))
        ≡ weigh (λ row. weigh f (reached t custom attempt row)) rows }
{}

/// A law: no path of a tree has more numbers than the topology has components, and so none is left
/// after as many depths.
pub fn paths_are_short()
    ensures { (t : Topology) (custom : Custom) (rows : List (List Value)) (path : List ℕ)
        (node : Node)
        → IsValid t → node_at t custom rows path ≡ Some node
        → length path ≤ length t.components }
{}
