//! The writes that a commit carries are the writes of the batch's tuple tree.
#![tactic(auto)]

ghost use Rattle.std.specs.Prelude.{◌≡◌, List};
ghost use Rattle.tree_model.specs.bolt_ops.RowOp.{Custom};
ghost use Rattle.tree_model.specs.storm_values.declared.value.Root.{Root};
ghost use Rattle.tree_model.specs.storm_values.declared.value.Value.{Value};
ghost use Rattle.tree_model.specs.topology_plan.Topology.{Topology};
ghost use Rattle.tree_model.specs.topology_plan.Valid.{IsValid};
ghost use Rattle.tree_model.specs.declared.messages.AckMsg.{AckMsg};
ghost use Rattle.tree_model.specs.declared.write.Write.{Write};
ghost use Rattle.tree_model.specs.Lists.{AreTrueOf, IsSingle, Covers};
ghost use Rattle.tree_model.specs.Trees.{writes};
ghost use Rattle.commit_writes.specs.Writes.{AreWritesOf};

/// A law: of a true, single list that covers a tree, the writes in path order are those of the
/// tree's state nodes.
pub fn writes_of_whole_lists()
    ensures { (t : Topology) (custom : Custom) (rows : List (List Value)) (root : Root)
        (list : List AckMsg) (made : List Write)
        → IsValid t → AreTrueOf t custom rows root list → IsSingle list
        → Covers t custom rows list
        → AreWritesOf list made → made ≡ writes t custom rows }
{}
