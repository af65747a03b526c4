ghost use Rattle.std.specs.Prelude.{◌≡◌, ◌-◌, ◌^◌, All, min, IfOk};
ghost use Rattle.storm_values.specs.Rows.{IsRow};
ghost use Rattle.topology_plan.specs.Wired.{width_of};
ghost use Rattle.tree_model.specs.Tables.{AreTables};
ghost use Rattle.tree_model.specs.Trees.{node_count, writes};

use crate::fold::FoldsOf;
use crate::running::{Filling, RunningTables};
use crate::tree::{Tree, Visitor};
use crate::write::Tables;
use bolt_ops::RowOp;
use std::alloc::Global;
use storm_values::{Memory, Row, Rows};
use topology_plan::{Origin, Plan};

/// The tables that the rows' tuple tree leaves. Each write is folded in where it is made, and none
/// is held.
pub fn plain_tables<O: RowOp>(
    alloc: Global,
    plan: &Plan,
    rows: &Rows,
    custom: &O,
) -> Result<Tables, Memory>
    requires { All (IsRow (width_of plan.now Origin.Spout)) rows.now }
    ensures { IfOk result
        (AreTables plan.now (O.meaning custom.now)
        (writes plan.now (O.meaning custom.now) rows.now)) }
{
    let mut filling = Filling {
        tables: RunningTables::new(alloc, plan)?,
        folds: FoldsOf { custom },
    };
    let tree = Tree {
        alloc,
        plan,
        custom,
    };
    tree.visit_rows(
        &mut filling,
        plan.components(),
        Origin::Spout,
        rows.as_slice(),
    )?;
    filling.tables.tables(alloc, plan)
}

/// How many nodes the rows' tuple tree has, or `u64::MAX` where there are more.
pub fn count_nodes<O: RowOp>(
    alloc: Global,
    plan: &Plan,
    rows: &Rows,
    custom: &O,
) -> Result<u64, Memory>
    requires { All (IsRow (width_of plan.now Origin.Spout)) rows.now }
    ensures { IfOk result
        (λ count. count ≡ min (node_count plan.now (O.meaning custom.now) rows.now) (2 ^ 64 - 1)) }
{
    let mut counter = NodeCounter { count: 0 };
    let tree = Tree {
        alloc,
        plan,
        custom,
    };
    tree.visit_rows(
        &mut counter,
        plan.components(),
        Origin::Spout,
        rows.as_slice(),
    )?;
    Ok(counter.count)
}

#[derive(Clone, Copy)]
struct NodeCounter {
    count: u64,
}

impl Visitor for NodeCounter {
    ghost use Rattle.std.specs.Prelude.{◌+◌, ◌-◌, ◌^◌, min};

    ghost visited = { λ t counter node. record { count = min (counter.count + 1) (2 ^ 64 - 1) } };

    fn visit(
        &mut self,
        _alloc: Global,
        _plan: &Plan,
        _component: u32,
        _row: &Row,
    ) -> Result<(), Memory> {
        self.count = self.count.saturating_add(1);
        Ok(())
    }
}
