// The topology and the records that `load` makes.
use load_source::{load_plan, load_records};
use std::test::Fail;
use storm_values::Value;

#[test]
fn two_records_of_the_seed_one(rt: HostRuntime) -> Result<(), Fail> {
    let alloc = rt.alloc();
    let rows = load_records(alloc, 2, 1)?;
    let want = ["w49 w49 w5 w44 w33 w19", "w13 w39 w22 w1 w42 w36"];
    for (row, text) in rows.as_slice().iter().zip(want.iter()) {
        for value in row.as_slice() {
            assert!(rt; matches!(value, Value::Text(_)));
            if let Value::Text(found) = value {
                assert_eq!(rt; found.as_str(), *text);
            }
        }
    }
    Ok(())
}

#[test]
fn the_plan_is_a_word_count(rt: HostRuntime) -> Result<(), Fail> {
    let plan = load_plan(rt.alloc())?;
    assert!(rt; plan.batch() == 100);
    assert!(rt; plan.components() == 2);
    Ok(())
}
