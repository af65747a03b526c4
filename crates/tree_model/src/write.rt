ghost use Rattle.std.specs.Prelude.{◌≡◌, ◌≤◌, All, Some, IfOk, slice_get, option_and_then, option_copied};
ghost use Rattle.storm_values.specs.Rows.{IsRow};
ghost use Rattle.topology_plan.specs.Wired.{width_of};
ghost use Rattle.tree_model.specs.Trees.{amount_by, int_of, write_by, writes};

use crate::tree::{Tree, Visitor};
use bolt_ops::RowOp;
use std::alloc::Global;
use storm_values::{Duplicate, Memory, Row, Seq, Txt, Value, key_hash_in, key_text_in};
use topology_plan::{Body, Fold, Origin, Plan, StateSpec};

/// What a state is to add to the value of a key.
#[derive(Debug, Drop)]
pub struct Write {
    /// The state's component number.
    pub state: u32,
    /// The part of the state that has the key, counted from 0.
    pub part: u32,
    /// The key's values as a JSON array.
    pub key: Txt,
    pub amount: i64,
}

impl Duplicate for Write {
    fn copy(&self) -> Result<Write, Memory> {
        Ok(Write {
            state: self.state,
            part: self.part,
            key: self.key.copy()?,
            amount: self.amount,
        })
    }
}

pub type Writes = Seq<Write>;

/// A key of a state, and its value.
#[derive(Debug, Drop)]
pub struct Pair {
    pub key: Txt,
    pub value: i128,
}

pub type Pairs = Seq<Pair>;

/// A state's keys and values.
#[derive(Debug, Drop)]
pub struct Table {
    pub name: Txt,
    pub pairs: Pairs,
}

pub type Tables = Seq<Table>;

/// The writes of the state nodes of the rows' tuple tree, in path order. Each node's rows are made
/// once, so that the time grows with the nodes and their bytes.
pub fn writes_of<O: RowOp>(
    alloc: Global,
    plan: &Plan,
    rows: &[Row],
    custom: &O,
) -> Result<Writes, Memory>
    requires { All (IsRow (width_of plan.now Origin.Spout)) rows.now }
    ensures { IfOk result (λ made. made ≡ writes plan.now (O.meaning custom.now) rows.now) }
{
    let mut writes = Writes::new(alloc);
    let tree = Tree {
        alloc,
        plan,
        custom,
    };
    tree.visit_rows(&mut writes, plan.components(), Origin::Spout, rows)?;
    Ok(writes)
}

impl Visitor for Writes {
    ghost use Rattle.std.specs.Prelude.{◌++◌};
    ghost use Rattle.std.specs.Option.{option_to_list};
    ghost use Rattle.tree_model.specs.Trees.{write_of};

    ghost visited = { λ t writes node. writes ++ option_to_list (write_of t node) };

    fn visit(
        &mut self,
        alloc: Global,
        plan: &Plan,
        component: u32,
        row: &Row,
    ) -> Result<(), Memory> {
        let at = plan.component(component);
        if let Body::State(spec) = &at.body {
            let mut room = String::new(alloc);
            self.push(write_at(alloc, &mut room, component, at.tasks, spec, row)?)?;
        }
        Ok(())
    }
}

/// What a state with this many parts is to add for a row. The key is written in `room` first, which
/// serves again and again.
pub fn write_at(
    alloc: Global,
    room: &mut String,
    state: u32,
    parts: u32,
    spec: &StateSpec,
    row: &Row,
) -> Result<Write, Memory>
    requires { 1 ≤ parts }
    ensures { IfOk result
        (λ write. Some write ≡ write_by state parts (Body.State spec.now) row.now) }
{
    let (values, key) = (row.as_slice(), spec.key.as_slice());
    let part = key_hash_in(values, key) % u64::from(parts);
    Ok(Write {
        state,
        part: part as u32,
        key: key_text_in(alloc, room, values, key)?,
        amount: amount(spec, row),
    })
}

pub(crate) fn amount(spec: &StateSpec, row: &Row) -> i64
    ensures { result
        ≡ amount_by spec.now.fold (option_and_then (slice_get row.now) spec.now.amount) }
{
    match spec.fold {
        Fold::Count => 1,
        Fold::Sum | Fold::Last | Fold::Max | Fold::Custom => number_at(row, spec.amount),
    }
}

/// The number in a field, 0 where it is a text or not there.
fn number_at(row: &Row, field: Option<u32>) -> i64
    ensures { result ≡ int_of (option_and_then (slice_get row.now) field) }
{
    let Some(field) = field else {
        return 0;
    };
    match field_of(row, field) {
        Some(Value::Int(number)) => *number,
        _ => 0,
    }
}

/// The value of a field, if the row has the field.
fn field_of(row: &Row, field: u32) -> Option<&Value>
    ensures { option_copied result ≡ slice_get row.now field }
{
    row.as_slice().get(field as usize)
}
