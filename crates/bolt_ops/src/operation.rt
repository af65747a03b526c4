ghost use Rattle.std.specs.Prelude.{◌≡◌, ◌∷◌, ◌++◌, [], All, length, map, pos, IfOk, IsTrue, if◌then◌else◌, slice_set, Some};
ghost use Rattle.std.specs.List.{filter_map};
ghost use Rattle.std.specs.Option.{option_copied};
ghost use Rattle.storm_values.specs.Rows.{IsShort};
ghost use Rattle.topology_plan.specs.Wired.{IsWithin};
ghost use Rattle.bolt_ops.specs.Operations.{value_at, text_at, bytes_of, words, passes, keeps, out, exec_of};

use crate::custom::RowOp;
use std::alloc::Global;
use std::cmp::Ordering;
use storm_values::{Duplicate, Memory, Row, Rows, Txt, Value};
use topology_plan::{Attempts, Function, Op, Test};

/// The room for words that is asked for at once.
const WORD_ROOM: usize = 16;

/// What an attempt at a row comes to.
#[derive(Debug, Drop)]
pub enum Outcome {
    Rows(Rows),
    Fail,
    /// Nothing is answered.
    Mute,
}

/// What an attempt at a row comes to. Attempts are counted from 1. A failed or mute attempt costs
/// nothing, another what [`output_rows`] costs.
pub fn exec<O: RowOp>(
    alloc: Global,
    op: &Op,
    row: &Row,
    attempt: u32,
    custom: &O,
) -> Result<Outcome, Memory>
    requires short { All IsShort row.now }
    requires op { IsWithin op.now (length row.now) }
    ensures { IfOk result
        (λ outcome. outcome ≡ exec_of (O.meaning custom.now) op.now row.now attempt) }
{
    match op.function.shape().attempts {
        Attempts::FailBelow(below) if attempt < below => Ok(Outcome::Fail),
        Attempts::MuteBelow(below) if attempt < below => Ok(Outcome::Mute),
        _ => Ok(Outcome::Rows(output_rows(alloc, op, row, custom)?)),
    }
}

/// The rows that an operation makes of a row, whatever the attempt, in a time that grows with the
/// bytes of the row and of the rows made.
pub fn output_rows<O: RowOp>(alloc: Global, op: &Op, row: &Row, custom: &O) -> Result<Rows, Memory>
    requires short { All IsShort row.now }
    requires op { IsWithin op.now (length row.now) }
    ensures { IfOk result (λ rows. rows ≡ out (O.meaning custom.now) op.now row.now) }
{
    match &op.function {
        Function::Split => word_rows(alloc, text_of_field(row, op.field())),
        Function::Project => one_row(alloc, project(alloc, op.reads.as_slice(), row)?),
        Function::Filter { test, value } => {
            if is_kept(op.field(), *test, value, row) {
                one_row(alloc, row.copy()?)
            } else {
                Ok(Rows::new(alloc))
            }
        }
        Function::Set { value } => one_row(alloc, with_field(alloc, op.field(), value, row)?),
        Function::Len => one_row(alloc, with_len(op.field(), row)?),
        Function::Route => one_row(alloc, row.copy()?),
        Function::Flaky { .. } => one_row(alloc, row.copy()?),
        Function::Mute { .. } => one_row(alloc, row.copy()?),
        Function::Custom => custom.rows(alloc, row),
    }
}

fn one_row(alloc: Global, row: Row) -> Result<Rows, Memory>
    ensures { IfOk result (λ rows. rows ≡ row ∷ []) }
{
    let mut rows = Rows::new(alloc);
    rows.push(row)?;
    Ok(rows)
}

fn value_of_field(row: &Row, field: u32) -> Option<&Value>
    ensures { option_copied result ≡ value_at row.now field }
{
    row.as_slice().get(field as usize)
}

/// The empty text where the field is a number or not there.
fn text_of_field(row: &Row, field: u32) -> &str
    ensures { result.now ≡ text_at row.now field }
{
    match value_of_field(row, field) {
        Some(Value::Text(text)) => text.as_str(),
        _ => "",
    }
}

/// A row of one value for each word.
fn word_rows(alloc: Global, text: &str) -> Result<Rows, Memory>
    ensures { IfOk result (λ rows. rows ≡ map (λ word. Value.Text word ∷ []) (words text.now)) }
{
    let mut rows = Rows::from_vec(Vec::with_capacity(alloc, WORD_ROOM)?);
    for word in text.split(' ') {
        if !word.is_empty() {
            let row = Row::one(alloc, Value::Text(Txt::from_str(alloc, word)?));
            rows.push(row)?;
        }
    }
    Ok(rows)
}

fn project(alloc: Global, fields: &[u32], row: &Row) -> Result<Row, Memory>
    ensures { IfOk result (λ made. made ≡ filter_map (value_at row.now) fields.now) }
{
    let mut made = Row::new(alloc);
    for field in fields {
        if let Some(value) = value_of_field(row, *field) {
            made.push(value.copy()?)?;
        }
    }
    Ok(made)
}

fn is_kept(field: u32, test: Test, value: &Value, row: &Row) -> bool
    ensures { result ≡ keeps field test value.now row.now }
{
    match value_of_field(row, field) {
        Some(found) => passes(test, found.compare(value)),
        None => false,
    }
}

fn with_field(alloc: Global, field: u32, value: &Value, row: &Row) -> Result<Row, Memory>
    ensures { IfOk result (λ made. made ≡ slice_set row.now field value.now) }
{
    let mut values = row.copy()?.into_vec()?;
    if let Some(place) = values.get_mut(field as usize) {
        *place = value.copy()?;
    }
    Ok(Row::from_vec(alloc, values))
}

fn with_len(field: u32, row: &Row) -> Result<Row, Memory>
    ensures { IfOk result
        (λ made. made ≡ row.now ++ Value.Int (pos (length (text_at row.now field))) ∷ []) }
{
    let mut made = row.copy()?;
    made.push(Value::Int(text_of_field(row, field).len() as i64))?;
    Ok(made)
}

fn passes(test: Test, order: Ordering) -> bool
    ensures { result ≡ passes test order }
{
    match test {
        Test::Eq => order.is_eq(),
        Test::Ne => order.is_ne(),
        Test::Lt => order.is_lt(),
    }
}
