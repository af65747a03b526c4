// A key's value after one more amount, by each fold.
use sample_operations::First;
use std::test::Fail;
use tree_model::fold_amount;
use tree_model::topology_plan::Fold;

#[test]
fn amounts_are_folded(rt: HostRuntime) -> Result<(), Fail> {
    assert_eq!(rt; fold_amount(&First, Fold::Count, Some(4), 1), 5);
    assert_eq!(rt; fold_amount(&First, Fold::Sum, None, -3), -3);
    assert_eq!(rt;
        fold_amount(&First, Fold::Sum, Some(i128::MAX), 2),
        i128::MAX
    );
    assert_eq!(rt; fold_amount(&First, Fold::Last, Some(4), 7), 7);
    assert_eq!(rt; fold_amount(&First, Fold::Max, Some(4), -7), 4);
    assert_eq!(rt; fold_amount(&First, Fold::Custom, None, 2), 2);
    assert_eq!(rt; fold_amount(&First, Fold::Custom, Some(2), 5), 2);
    Ok(())
}
