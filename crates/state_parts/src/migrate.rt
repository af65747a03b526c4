ghost use Rattle.std.specs.Prelude.{◌≡◌, ◌≤◌, ℕ, List, IfOk, OnOk, OnErr, IsErrOf};
ghost use Rattle.tree_model.specs.storm_values.Counts.{raised};
ghost use Rattle.tree_model.specs.Tables.{StateOf};
ghost use Rattle.tree_model.specs.topology_plan.Topology.{Topology};
ghost use Rattle.tree_model.specs.declared.write.Table.{Table};
ghost use Rattle.tree_model.specs.declared.write.Write.{Write};
ghost use Rattle.storm_stores.specs.CellMaps.{CellMap, cell_at};
ghost use Rattle.state_cells.specs.Migrate.{old_count};
ghost use Rattle.state_cells.specs.Rows.{IsBadRow};
ghost use Rattle.state_parts.specs.Commits.{SameCounts};
ghost use Rattle.state_parts.specs.Migrate.{AreKept, AreMigrated, IsBrokenOff, IsMigrated, StopAt, StopsBefore, old_sum};
ghost use Rattle.state_parts.specs.PartPlans.{plans_of};
ghost use Rattle.state_parts.specs.PartTables.{IsBadRowAt, IsTableOver, OneRaised, Tell};
ghost use Rattle.tree_model.specs.bolt_ops.RowOp.{Custom};
ghost use Rattle.state_parts.specs.Standing.{AllAreAt, AllStand};
ghost use Rattle.state_parts.specs.declared.parts.StatePart.{StatePart};

use crate::parts::StatePart;
use state_cells::PartFault;
use storm_stores::CellStore;

/// Brings the cells of a part to format 2, and tells how many were of format 1.
fn migrate_part<C: CellStore>(at: &mut StatePart<C>) -> Result<u64, PartFault>
    ensures counted { IfOk result (λ count. (cells : CellMap) → C.tells at.old.over.store cells →
        count ≡ old_count cells) }
    ensures done { OnOk result (IsMigrated C.tells C.fault_count at.old at.new) }
    ensures reached { IsBrokenOff C.tells C.fault_count at.old at.new }
    ensures stopped { (key : List ℕ) → IsErrOf result (PartFault.BadCell key) →
        StopsBefore C.tells key at.old at.new }
    ensures failed { IsErrOf result PartFault.Store →
        C.fault_count at.new.over.store ≡ raised (C.fault_count at.old.over.store) }
    ensures quiet { (IsErrOf result PartFault.Store → ⊥) →
        C.fault_count at.new.over.store ≡ C.fault_count at.old.over.store }
    ensures bad { (key : List ℕ) → IsErrOf result (PartFault.BadCell key) → (cells : CellMap) →
        C.tells at.old.over.store cells → IsBadRow at.old.over.kind key (cell_at cells key) }
{
    at.over.migrate()
}

/// Brings the cells of all parts to format 2, one part after another, and tells how many were of
/// format 1, up to 2^64 - 1.
pub(crate) fn migrate_parts<C: CellStore>(parts: &mut Vec<StatePart<C>>) -> Result<u64, PartFault>
    ensures counted { IfOk result (λ count. (maps : List CellMap) →
        Tell C.tells parts.old.items maps → count ≡ old_sum maps) }
    ensures done { OnOk result
        (AreMigrated C.tells C.fault_count parts.old.items parts.new.items) }
    ensures broken { OnErr result (StopAt C.tells C.fault_count
        (IsBrokenOff C.tells C.fault_count) parts.old.items parts.new.items) }
    ensures stopped { (key : List ℕ) → IsErrOf result (PartFault.BadCell key) →
        StopAt C.tells C.fault_count (StopsBefore C.tells key) parts.old.items parts.new.items }
    ensures kept { AreKept C.tells C.fault_count parts.old.items parts.new.items }
    ensures plans { plans_of parts.new.items ≡ plans_of parts.old.items }
    ensures tables { (state : StateOf) (table : Table) →
        IsTableOver C.tells parts.new.items state table →
        IsTableOver C.tells parts.old.items state table }
    ensures failed { IsErrOf result PartFault.Store →
        OneRaised C.fault_count parts.old.items parts.new.items }
    ensures quiet { (IsErrOf result PartFault.Store → ⊥) →
        SameCounts C.fault_count parts.old.items parts.new.items }
    ensures bad { (key : List ℕ) → IsErrOf result (PartFault.BadCell key) →
        IsBadRowAt C.tells parts.old.items key }
{
    let mut total: u64 = 0;
    for i in 0..parts.len() {
        match migrate_part(&mut parts[i]) {
            Ok(count) => total = total.saturating_add(count),
            Err(fault) => return Err(fault),
        }
    }
    Ok(total)
}

/// A law: parts that have the same cells as before stand at the number of commits at which they
/// stood.
pub fn parts_with_the_same_cells_stand<C: CellStore>()
    ensures stand { (t : Topology) (custom : Custom) (n : ℕ) (done next : List Write)
        (old new : List (StatePart C))
        → AreKept C.tells C.fault_count old new → AllStand C.tells t custom n done next old
        → AllStand C.tells t custom n done next new }
    ensures are_at { (t : Topology) (custom : Custom) (n : ℕ) (done next : List Write)
        (old new : List (StatePart C))
        → AreKept C.tells C.fault_count old new → AllAreAt C.tells t custom n done next old
        → AllAreAt C.tells t custom n done next new }
{}
