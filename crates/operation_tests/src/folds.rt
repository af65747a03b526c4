ghost use Rattle.std.specs.Prelude.{◌≡◌, ◌∷◌, [], ℤ, pos, negsuc, All, IfOk, reverse};
ghost use Rattle.storm_values.specs.Rows.{IsShort};
ghost use Rattle.stored_folds.specs.Folds.{Keeps};

use bolt_ops::RowOp;
use sample_operations::Backwards;
use std::alloc::Global;
use std::test::Fail;
use stored_folds::{CombineFn, First, FoldLaw, OneFn, StoredFold};
use storm_values::{Memory, Row, Value};

/// What an operation with a stored fold makes of them.
#[derive(Drop)]
struct Made {
    rows: usize,
    one: i128,
    both: i128,
}

fn made_by<L: FoldLaw + Sync, F: OneFn + Sync + Drop, G: CombineFn + Sync + Drop>(
    alloc: Global,
    row: &Row,
    one: F,
    combine: G,
) -> Result<Made, Memory>
    requires short { All IsShort row.now }
    requires keeps { Keeps L.one L.combine (F.may_make one) (F.makes one)
        (G.may_make combine) (G.makes combine) }
    ensures one { IfOk result (λ made. made.one ≡ L.one (negsuc 4)) }
    ensures both { IfOk result (λ made. made.both ≡ L.combine (pos 2) (pos 3)) }
{
    let op = StoredFold::<L, Backwards, F, G>::new(Backwards, one, combine);
    let rows = op.rows(alloc, row)?;
    Ok(Made {
        rows: rows.len(),
        one: op.one(-5),
        both: op.combine(2, 3),
    })
}

#[test]
fn stored_folds_answer_their_law(rt: HostRuntime) -> Result<(), Fail> {
    let alloc = rt.alloc();
    let mut row = Row::new(alloc);
    row.push(Value::Int(7))?;
    let made = made_by::<First, _, _>(
        alloc,
        &row,
        |amount: i64| i128::from(amount),
        |earlier: i128, _later: i128| earlier,
    )?;
    assert_eq!(rt; made.rows, 1);
    assert!(rt; made.one == -5);
    assert!(rt; made.both == 2);
    Ok(())
}
