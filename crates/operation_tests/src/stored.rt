ghost use Rattle.std.specs.Prelude.{◌≡◌, ◌∷◌, [], All, IfOk, reverse, replicate};
ghost use Rattle.storm_values.specs.Rows.{IsShort};
ghost use Rattle.bolt_ops.specs.Stored.{Keeps};
ghost use Rattle.bolt_ops.specs.declared.operation.Outcome.{Outcome};

use bolt_ops::{Outcome, Reverse, RowFn, RowLaw, StoredOp, exec, reversed_row};
use sample_operations::{Nothing, Sixteen, copies};
use std::alloc::Global;
use std::test::Fail;
use storm_values::{Indexes, Memory, Row, Rows, Value};
use topology_plan::{Function, Op};

fn pair(alloc: Global) -> Result<Row, Memory>
    ensures { IfOk result (All IsShort) }
{
    let mut row = Row::new(alloc);
    row.push(Value::Int(7))?;
    row.push(Value::Int(8))?;
    Ok(row)
}

/// What a bolt of the operation `custom` makes by a closure that is stored with its law.
fn made_by<L: RowLaw + Sync, F: RowFn + Sync + Drop>(
    alloc: Global,
    row: &Row,
    make: F,
) -> Result<Outcome, Memory>
    requires short { All IsShort row.now }
    requires keeps { Keeps L.law (F.may_make make) (F.makes make) }
    ensures { IfOk result (λ outcome. outcome ≡ Outcome.Rows (L.law row.now)) }
{
    let op = StoredOp::<L, F>::new(make);
    let custom = Op {
        reads: Indexes::new(alloc),
        function: Function::Custom,
    };
    exec(alloc, &custom, row, 1, &op)
}

// The closure catches a number.
fn sixteen(alloc: Global, row: &Row, count: usize) -> Result<Outcome, Memory>
    requires same { count ≡ 16 }
    requires short { All IsShort row.now }
    ensures { IfOk result (λ outcome. outcome ≡ Outcome.Rows (replicate 16 row.now)) }
{
    made_by::<Sixteen, _>(
        alloc,
        row,
        |alloc: Global, row: &Row| copies(alloc, row, count),
    )
}

fn none(alloc: Global, row: &Row) -> Result<Outcome, Memory>
    requires { All IsShort row.now }
    ensures { IfOk result (λ outcome. outcome ≡ Outcome.Rows []) }
{
    made_by::<Nothing, _>(alloc, row, |alloc: Global, _: &Row| Ok(Rows::new(alloc)))
}

fn turned(alloc: Global, row: &Row) -> Result<Outcome, Memory>
    requires { All IsShort row.now }
    ensures { IfOk result (λ outcome. outcome ≡ Outcome.Rows (reverse row.now ∷ [])) }
{
    made_by::<Reverse, _>(
        alloc,
        row,
        |alloc: Global, row: &Row| reversed_row(alloc, row),
    )
}

/// The integers of the rows, row by row.
fn integers(alloc: Global, outcome: &Outcome) -> Result<Vec<i64>, Memory> {
    let mut found = Vec::new(alloc);
    if let Outcome::Rows(rows) = outcome {
        for row in rows.as_slice() {
            for value in row.as_slice() {
                if let Value::Int(number) = value {
                    found.push(*number)?;
                }
            }
        }
    }
    Ok(found)
}

#[test]
fn stored_closures_answer_their_laws(rt: HostRuntime) -> Result<(), Fail> {
    let alloc = rt.alloc();
    let row = pair(alloc)?;
    assert!(rt; integers(alloc, &turned(alloc, &row)?)?.as_slice() == [8, 7].as_slice());
    assert!(rt; matches!(none(alloc, &row)?, Outcome::Rows(rows) if rows.len() == 0));
    let found = integers(alloc, &sixteen(alloc, &row, 16)?)?;
    assert_eq!(rt; found.len(), 32);
    for (k, number) in found.iter().enumerate() {
        assert!(rt; *number == if k % 2 == 0 { 7 } else { 8 });
    }
    Ok(())
}
