ghost use Rattle.std.specs.Prelude.{◌≡◌};
ghost use Rattle.bolt_ops.specs.RowOp.{Custom};
ghost use Rattle.tree_model.specs.Tables.{folded};

use bolt_ops::RowOp;
use topology_plan::Fold;

/// A key's value after one more amount, from its value before, if it has one.
pub fn fold_amount<O: RowOp>(custom: &O, by: Fold, old: Option<i128>, amount: i64) -> i128
    ensures { result ≡ folded (O.meaning custom.now) by old amount }
{
    FoldsOf { custom }.fold(by, old, amount)
}

/// What folds amounts into values.
pub(crate) trait Folds {
    ghost meaning: { Self → Custom };

    fn fold(&self, by: Fold, old: Option<i128>, amount: i64) -> i128
        ensures { result ≡ folded (meaning self.now) by old amount };
}

/// The folds of a topology, by the user-supplied operation.
#[derive_where(Clone, Copy)]
pub(crate) struct FoldsOf<'a, O> {
    pub(crate) custom: &'a O,
}

impl<O: RowOp> Folds for FoldsOf<'_, O> {
    ghost meaning = { λ folds. O.meaning folds.custom.now };

    fn fold(&self, by: Fold, old: Option<i128>, amount: i64) -> i128 {
        match by {
            Fold::Count | Fold::Sum => old.unwrap_or(0).saturating_add(i128::from(amount)),
            Fold::Last => i128::from(amount),
            Fold::Max => {
                let amount = i128::from(amount);
                old.map_or(amount, |old| old.max(amount))
            }
            Fold::Custom => {
                let one = self.custom.one(amount);
                match old {
                    Some(old) => self.custom.combine(old, one),
                    None => one,
                }
            }
        }
    }
}
