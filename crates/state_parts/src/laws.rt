ghost use Rattle.std.specs.Prelude.{◌≡◌, ◌+◌, ◌++◌, ℕ, List, [], All};
ghost use Rattle.std.specs.List.{AllZip};
ghost use Rattle.tree_model.specs.bolt_ops.RowOp.{Custom};
ghost use Rattle.tree_model.specs.storm_values.declared.value.Root.{Root};
ghost use Rattle.tree_model.specs.storm_values.declared.value.Value.{Value};
ghost use Rattle.tree_model.specs.topology_plan.Topology.{Topology};
ghost use Rattle.tree_model.specs.topology_plan.Wired.{IsWired};
ghost use Rattle.tree_model.specs.Tables.{AreTables, states_of};
ghost use Rattle.tree_model.specs.Trees.{writes};
ghost use Rattle.tree_model.specs.declared.write.Table.{Table};
ghost use Rattle.tree_model.specs.declared.write.Write.{Write};
ghost use Rattle.state_parts.specs.Commits.{AreCommitted, ArePerhapsCommitted};
ghost use Rattle.state_parts.specs.PartPlans.{AreParts};
ghost use Rattle.state_parts.specs.PartTables.{IsTableOver};
ghost use Rattle.state_parts.specs.Standing.{AllAreAt, AllStand, ArePlaced, HaveOnePart, IsEmpty};
ghost use Rattle.state_parts.specs.declared.parts.StatePart.{StatePart};

use storm_stores::CellStore;

/// A law: parts over empty stores stand at 0.
pub fn parts_over_empty_stores_begin<C: CellStore>()
    ensures { (t : Topology) (custom : Custom) (next : List Write) (parts : List (StatePart C))
        → All (IsEmpty C.tells) parts → AllAreAt C.tells t custom 0 [] next parts }
{}

/// A law: where each part stands at n, a commit of batch n + 1 that is done moves each part to
/// n + 1, and no cell has a larger transaction then; and one that was broken off, in whatever part,
/// leaves each part at n.
pub fn commits_move_all_parts_on<C: CellStore>()
    ensures moved { (t : Topology) (custom : Custom) (n : ℕ) (root : Root)
        (done next more : List Write) (old new : List (StatePart C))
        → root.txid ≡ n + 1 → AllStand C.tells t custom n done next old → ArePlaced t next
        → AreCommitted C.tells custom root next old new
        → AllAreAt C.tells t custom (n + 1) (done ++ next) more new }
    ensures begun { (t : Topology) (custom : Custom) (n : ℕ) (root : Root) (done next : List Write)
        (old new : List (StatePart C))
        → root.txid ≡ n + 1 → AllStand C.tells t custom n done next old → ArePlaced t next
        → ArePerhapsCommitted C.tells custom root next old new
        → AllStand C.tells t custom n done next new }
    ensures stand { (t : Topology) (custom : Custom) (n : ℕ) (done next : List Write)
        (parts : List (StatePart C))
        → AllAreAt C.tells t custom n done next parts
        → AllStand C.tells t custom n done next parts }
{}

/// A law: where each part stands at n and no cell has a larger transaction, the tables of the parts
/// are those of the writes of the batches 1 to n.
pub fn tables_of_parts_are_tables_of_writes<C: CellStore>()
    ensures { (t : Topology) (custom : Custom) (n : ℕ) (done next : List Write)
        (parts : List (StatePart C)) (tables : List Table)
        → IsWired t → AreParts t parts → ArePlaced t done → HaveOnePart done
        → AllAreAt C.tells t custom n done next parts
        → AllZip (IsTableOver C.tells parts) (states_of t custom) tables
        → AreTables t custom done tables }
{}

/// A law: the writes of the tree of some rows go to the parts that the hashes of their keys choose,
/// and writes that do, of whatever trees, have one part for one key of a state.
pub fn writes_of_trees_are_placed()
    ensures placed { (t : Topology) (custom : Custom) (rows : List (List Value))
        → ArePlaced t (writes t custom rows) }
    ensures one_part { (t : Topology) (custom : Custom) (rows : List (List Value))
        → HaveOnePart (writes t custom rows) }
    ensures all_have_one_part { (t : Topology) (made : List Write)
        → ArePlaced t made → HaveOnePart made }
{}
