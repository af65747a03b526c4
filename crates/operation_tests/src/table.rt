ghost use Rattle.std.specs.Prelude.{◌≡◌, ◌≤◌, ◌<◌, ℕ, [], ◌∷◌, length, IfOk};
ghost use Rattle.storm_values.specs.Rows.{IsRow};
ghost use Rattle.topology_plan.specs.Functions.{AreRead, IsFunctionInRange};
ghost use Rattle.topology_plan.specs.Wired.{IsWithin};
ghost use Rattle.topology_plan.specs.declared.function.Function.{Function};

use bolt_ops::{Outcome, RowOp, exec, output_rows};
use sample_operations::Backwards;
use std::alloc::Global;
use std::test::Fail;
use storm_values::{Indexes, Memory, Row, Rows, Txt, Value};
use topology_plan::{Function, Op, Test};

/// The operation of one field of two.
fn of_field(alloc: Global, field: u32, function: Function) -> Result<Op, Memory>
    requires field { field < 2 }
    requires read { AreRead function (field ∷ []) }
    requires range { IsFunctionInRange function }
    ensures { IfOk result (λ op. IsWithin op 2) }
{
    let mut reads = Indexes::new(alloc);
    reads.push(field)?;
    Ok(Op { reads, function })
}

/// The operation of no field.
fn of_none(alloc: Global, function: Function) -> Op
    requires read { AreRead {A = ℕ} function [] }
    requires range { IsFunctionInRange function }
    ensures { IsWithin result 2 }
{
    Op {
        reads: Indexes::new(alloc),
        function,
    }
}

fn text(alloc: Global, text: &str) -> Result<Value, Memory>
    ensures { IfOk result (λ value. value ≡ Value.Text text.now) }
{
    Ok(Value::Text(Txt::from_str(alloc, text)?))
}

/// The row of the number 7 and a text.
fn row_of(alloc: Global, last: &str) -> Result<Row, Memory>
    requires { length last.now ≤ 4096 }
    ensures { IfOk result (IsRow 2) }
{
    let mut row = Row::new(alloc);
    row.push(Value::Int(7))?;
    row.push(text(alloc, last)?)?;
    Ok(row)
}

/// Each value with a comma after it, and each row with a semicolon.
fn shown(alloc: Global, rows: &Rows) -> Result<String, Memory> {
    let mut shown = String::new(alloc);
    for row in rows.as_slice() {
        for value in row.as_slice() {
            match value {
                Value::Int(number) => write!(shown, "{number},")?,
                Value::Text(text) => {
                    shown.push_str(text.as_str())?;
                    shown.push_str(",")?;
                }
            }
        }
        shown.push_str(";")?;
    }
    Ok(shown)
}

#[test]
fn splits_into_words(rt: HostRuntime) -> Result<(), Fail> {
    let alloc = rt.alloc();
    for (given, expected) in [("", ""), ("the cow  jumped ", "the,;cow,;jumped,;")] {
        let row = row_of(alloc, given)?;
        let split = of_field(alloc, 1, Function::Split)?;
        let rows = output_rows(alloc, &split, &row, &Backwards)?;
        assert_eq!(rt; shown(alloc, &rows)?.as_str(), expected);
    }
    Ok(())
}

/// What an operation makes of the row of 7 and `cow`.
fn made(alloc: Global, op: &Op) -> Result<String, Memory>
    requires { IsWithin op.now 2 }
{
    let rows = output_rows(alloc, op, &row_of(alloc, "cow")?, &Backwards)?;
    shown(alloc, &rows)
}

// Whether an operation makes these rows of the row of 7 and `cow`.
fn makes(alloc: Global, op: &Op, want: &str) -> Result<bool, Memory>
    requires { IsWithin op.now 2 }
{
    let rows = made(alloc, op)?;
    Ok(rows.as_str() == want)
}

#[test]
fn keeps_rows_by_a_test(rt: HostRuntime) -> Result<(), Fail> {
    let alloc = rt.alloc();
    let empty = text(alloc, "")?;
    assert!(rt; makes(alloc, &filter(alloc, Test::Eq, Value::Int(7))?, "7,cow,;")?);
    assert!(rt; makes(alloc, &filter(alloc, Test::Ne, Value::Int(7))?, "")?);
    assert!(rt; makes(alloc, &filter(alloc, Test::Lt, Value::Int(7))?, "")?);
    assert!(rt; makes(alloc, &filter(alloc, Test::Lt, empty)?, "7,cow,;")?);
    Ok(())
}

#[test]
fn changes_fields(rt: HostRuntime) -> Result<(), Fail> {
    let alloc = rt.alloc();
    let project = Op {
        reads: Indexes::from_vec(vec![in alloc; 1, 0]?),
        function: Function::Project,
    };
    let set = of_field(
        alloc,
        1,
        Function::Set {
            value: Value::Int(-4),
        },
    )?;
    assert!(rt; makes(alloc, &project, "cow,7,;")?);
    assert!(rt; makes(alloc, &set, "7,-4,;")?);
    Ok(())
}

#[test]
fn makes_rows(rt: HostRuntime) -> Result<(), Fail> {
    let alloc = rt.alloc();
    assert!(rt; makes(alloc, &of_field(alloc, 0, Function::Split)?, "")?);
    assert!(rt; makes(alloc, &of_field(alloc, 1, Function::Len)?, "7,cow,3,;")?);
    assert!(rt; makes(alloc, &of_field(alloc, 0, Function::Len)?, "7,cow,0,;")?);
    assert!(rt; makes(alloc, &of_field(alloc, 0, Function::Route)?, "7,cow,;")?);
    assert!(rt; makes(alloc, &of_none(alloc, Function::Custom), "cow,7,;")?);
    Ok(())
}

fn filter(alloc: Global, test: Test, value: Value) -> Result<Op, Memory>
    requires { IsFunctionInRange (Function.Filter test value) }
    ensures { IfOk result (λ op. IsWithin op 2) }
{
    of_field(alloc, 0, Function::Filter { test, value })
}

#[test]
fn fails_below(rt: HostRuntime) -> Result<(), Fail> {
    let alloc = rt.alloc();
    let row = row_of(alloc, "cow")?;
    let flaky = of_none(alloc, Function::Flaky { below: 3 });
    let mute = of_none(alloc, Function::Mute { below: 3 });
    assert!(rt; matches!(exec(alloc, &flaky, &row, 2, &Backwards)?, Outcome::Fail));
    assert!(rt; matches!(exec(alloc, &flaky, &row, 3, &Backwards)?, Outcome::Rows(_)));
    assert!(rt; matches!(exec(alloc, &mute, &row, 2, &Backwards)?, Outcome::Mute));
    assert!(rt; matches!(exec(alloc, &mute, &row, 3, &Backwards)?, Outcome::Rows(_)));
    Ok(())
}

#[test]
fn reverses(rt: HostRuntime) -> Result<(), Fail> {
    let alloc = rt.alloc();
    let rows = Backwards.rows(alloc, &row_of(alloc, "cow")?)?;
    assert_eq!(rt; shown(alloc, &rows)?.as_str(), "cow,7,;");
    Ok(())
}
