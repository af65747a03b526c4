// Plans, rows, ids and parcels of these tests.
ghost use Rattle.tree_model.specs.storm_values.Rows.{IsRow};
ghost use Rattle.std.specs.Prelude.{IfOk};

use std::alloc::Global;
use storm_ids::{IdMaker, ScriptIds, ScriptSource, Words};
use test_kit::Mismatch;
use topology_reader::read_topology;
use tree_model::storm_values::{Row, Value, row_from_line};
use tree_model::topology_plan::Plan;
use tree_model::{Parcel, Tuple};

// A tuple that is to be sent: the task that it goes to, its component, the numbers of its path, its
// id, and its first value as a line of an input.
pub struct Sent {
    pub task: u32,
    pub component: u32,
    pub path: &'static [u32],
    pub id: u64,
    pub first: &'static str,
}

pub fn case_of(alloc: Global, of: &str) -> Mismatch {
    match String::from_str(alloc, of) {
        Ok(text) => Mismatch::Case(text),
        Err(_) => Mismatch::Memory,
    }
}

pub fn plan_of(alloc: Global, file: &str) -> Result<Plan, Mismatch> {
    match read_topology(alloc, file.as_bytes()) {
        Ok(plan) => Ok(plan),
        Err(_) => Err(case_of(alloc, file)),
    }
}

// A row of so many values.
pub fn row_of(alloc: Global, line: &str, width: u32) -> Result<Row, Mismatch>
    ensures { IfOk result (IsRow width) }
{
    match row_from_line(alloc, line.as_bytes(), width) {
        Ok(row) => Ok(row),
        Err(_) => Err(case_of(alloc, line)),
    }
}

// A source of these words.
pub fn ids_of(alloc: Global, source: u32, words: &[u64]) -> Result<ScriptSource, Mismatch> {
    let mut maker = ScriptIds::new(alloc);
    maker.add(source, Words::from_vec(Vec::from_slice(alloc, words)?))?;
    Ok(maker.make(source)?)
}

fn begins_with(tuple: &Tuple, first: &Value) -> bool {
    match tuple.row.as_slice().first() {
        Some(value) => value.compare(first).is_eq(),
        None => false,
    }
}

// Whether a parcel is this tuple on its way to its task.
fn is_sent(parcel: &Parcel, want: &Sent, first: &Value) -> bool {
    let Parcel::ToTask(task, tuple) = parcel else {
        return false;
    };
    let routed = (*task == want.task) & (tuple.component == want.component);
    let placed = tuple.edge.path.as_slice() == want.path;
    let named = tuple.edge.id == want.id;
    let filled = begins_with(tuple, first);
    routed & placed & named & filled
}

pub fn check_sent(alloc: Global, parcel: &Parcel, want: &Sent) -> Result<(), Mismatch> {
    let row = row_of(alloc, want.first, 1)?;
    let Some(first) = row.as_slice().first() else {
        return Err(case_of(alloc, want.first));
    };
    if is_sent(parcel, want, first) {
        Ok(())
    } else {
        Err(case_of(alloc, want.first))
    }
}
