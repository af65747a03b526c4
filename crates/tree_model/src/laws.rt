ghost use Rattle.std.specs.Prelude.{◌≡◌, ◌≢◌, ◌≤◌, ℕ, ◌+◌, List, [], ◌∷◌, ◌++◌, All, length, slice_get, slice_range, option_and_then, Some};
ghost use Rattle.std.specs.List.{filter_map};
ghost use Rattle.storm_values.specs.declared.value.Root.{Root};
ghost use Rattle.storm_values.specs.declared.value.Value.{Value};
ghost use Rattle.topology_plan.specs.Topology.{Topology};
ghost use Rattle.tree_model.specs.declared.write.Table.{Table};
ghost use Rattle.tree_model.specs.declared.write.Write.{Write};
ghost use Rattle.topology_plan.specs.Valid.{IsValid};
ghost use Rattle.topology_plan.specs.Wired.{IsWired, width_of, width_to};
ghost use Rattle.bolt_ops.specs.RowOp.{Custom, IsCustom};
ghost use Rattle.storm_values.specs.Rows.{IsRow};
ghost use Rattle.counted_items.specs.Weights.{weigh};
ghost use Rattle.tuple_tickets.specs.Lists as tickets;
ghost use Rattle.tree_model.specs.declared.messages.AckMsg.{AckMsg};
ghost use Rattle.tree_model.specs.Courses.{growth_of};
ghost use Rattle.tree_model.specs.Lists.{all_said, is_init, is_failed, consumes, AreTrueOf};
ghost use Rattle.tree_model.specs.Paths.{ArePathsOf, write_at};
ghost use Rattle.tree_model.specs.Tables.{AreTables};
ghost use Rattle.tree_model.specs.Trees.{Node, exec_at, kids, kids_of, node_at, node_count, writes};

use bolt_ops::Outcome;
use topology_plan::Origin;

/// A law: the writes of joined rows are the joined writes.
pub fn writes_of_joined_rows()
    ensures { (t : Topology) (custom : Custom) (xs ys : List (List Value))
        → writes t custom (xs ++ ys) ≡ writes t custom xs ++ writes t custom ys }
{}

/// A law: joined rows have as many nodes as the rows of each, and so a batch of
/// rows has no more than all.
pub fn nodes_of_joined_rows()
    ensures sum { (t : Topology) (custom : Custom) (xs ys : List (List Value))
        → node_count t custom (xs ++ ys) ≡ node_count t custom xs + node_count t custom ys }
    ensures part { (t : Topology) (custom : Custom) (rows : List (List Value)) (first last : ℕ)
        → node_count t custom (slice_range rows first last) ≤ node_count t custom rows }
{}

/// A law: in the tree of rows within limits each node's row is within limits, and as wide
/// as its component's input.
pub fn rows_of_nodes_are_within_limits()
    ensures { (t : Topology) (custom : Custom) (rows : List (List Value)) (path : List ℕ)
        (node : Node)
        → IsValid t → IsWired t → IsCustom custom → All (IsRow (width_of t Origin.Spout)) rows
        → node_at t custom rows path ≡ Some node → IsRow (width_to t node.component) node.row }
{}

/// A law: where an attempt at a node comes to rows, its children are what these rows make.
pub fn children_are_made_of_rows()
    ensures { (t : Topology) (custom : Custom) (attempt : ℕ) (node : Node)
        (rows : List (List Value))
        → exec_at t custom attempt node ≡ Outcome.Rows rows
        → kids_of t custom node ≡ kids t (Origin.Component node.component) rows }
{}

/// A law: writes leave one list of tables alone.
pub fn tables_are_one()
    ensures { (t : Topology) (custom : Custom) (made : List Write) (a b : List Table)
        → AreTables t custom made a → AreTables t custom made b → a ≡ b }
{}

/// A law: a path of one number leads to a node that the rows make, and one more number leads
/// from a node to a child.
pub fn paths_lead_to_children()
    ensures first { (t : Topology) (custom : Custom) (rows : List (List Value)) (i : ℕ)
        → node_at t custom rows (i ∷ []) ≡ slice_get (kids t Origin.Spout rows) i }
    ensures next { (t : Topology) (custom : Custom) (rows : List (List Value)) (path : List ℕ)
        (j : ℕ)
        → path ≢ [] → node_at t custom rows (path ++ j ∷ [])
        ≡ option_and_then (λ node. slice_get (kids_of t custom node) j)
        (node_at t custom rows path) }
{}

/// A law: the paths of a tree stand in one order, the writes stand in the order of their nodes'
/// paths, and there are as many nodes as paths.
pub fn writes_stand_in_path_order()
    ensures paths { (t : Topology) (custom : Custom) (rows : List (List Value))
        → IsValid t → (paths : List (List ℕ)) × ArePathsOf t custom rows paths }
    ensures writes { (t : Topology) (custom : Custom) (rows : List (List Value))
        (paths : List (List ℕ))
        → IsValid t → ArePathsOf t custom rows paths
        → writes t custom rows ≡ filter_map (write_at t custom rows) paths }
    ensures count { (t : Topology) (custom : Custom) (rows : List (List Value))
        (paths : List (List ℕ))
        → IsValid t → ArePathsOf t custom rows paths → node_count t custom rows ≡ length paths }
{}

/// A law: what a true list says is true of its root's tree, as that grows from these rows. So the
/// laws of lists in `tuple_tickets` hold of what it says. What a list says has as many inits and
/// failures as the list has, and consumes each path as often.
pub fn true_lists_say_what_is_true()
    ensures says_true { (t : Topology) (custom : Custom) (rows : List (List Value)) (root : Root)
        (list : List AckMsg)
        → AreTrueOf t custom rows root list
        → tickets.AreTrueOf (growth_of t custom (λ r. rows)) root (all_said list) }
    ensures inits { (list : List AckMsg)
        → weigh tickets.is_init (all_said list) ≡ weigh is_init list }
    ensures failures { (list : List AckMsg)
        → weigh tickets.is_failed (all_said list) ≡ weigh is_failed list }
    ensures consumed { (list : List AckMsg) (path : List ℕ)
        → weigh (tickets.consumes path) (all_said list) ≡ weigh (consumes path) list }
{}
