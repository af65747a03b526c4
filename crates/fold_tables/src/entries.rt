//! The values of a state by key.
ghost use Rattle.std.specs.Prelude.{◌≡◌, IfOk, OnOk};
ghost use Rattle.tree_model.specs.Inside.{entries_of};
ghost use Rattle.tree_model.specs.Tables.{AreSorted, folded};
ghost use Rattle.fold_tables.specs.Merging.{IsPut, AreMergedIn, joined, joined_onto};

use indexmap::IndexMap;
use std::alloc::Global;
use tree_model::bolt_ops::RowOp;
use tree_model::storm_values::{Memory, Seq, Txt};
use tree_model::topology_plan::Fold;
use tree_model::{Pair, Pairs, fold_amount};

/// Values by key text, found by hash.
pub(crate) type Entries = IndexMap<Txt, i128>;

/// The value of two of a key, of which the first comes from earlier amounts.
fn joined_value<O: RowOp>(custom: &O, by: Fold, earlier: i128, later: i128) -> i128
    ensures { result ≡ joined (O.meaning custom.now) by earlier later }
{
    match by {
        Fold::Count | Fold::Sum => earlier.saturating_add(later),
        Fold::Last => later,
        Fold::Max => earlier.max(later),
        Fold::Custom => custom.combine(earlier, later),
    }
}

/// Folds an amount into the value of a key, with one search where the key has one.
pub(crate) fn fold_in<O: RowOp>(
    entries: &mut Entries,
    custom: &O,
    by: Fold,
    key: Txt,
    amount: i64,
) -> Result<(), Memory>
    ensures { OnOk result (IsPut (λ old. folded (O.meaning custom.now) by old amount)
        (entries_of entries.old) key (entries_of entries.new)) }
{
    match entries.get_mut(&key) {
        Some(value) => {
            *value = fold_amount(custom, by, Some(*value), amount);
            Ok(())
        }
        None => {
            entries.insert(key, fold_amount(custom, by, None, amount))?;
            Ok(())
        }
    }
}

/// Merges a later value of a key into the one that it has, with one search where it has one.
fn merge_in<O: RowOp>(
    entries: &mut Entries,
    custom: &O,
    by: Fold,
    key: Txt,
    later: i128,
) -> Result<(), Memory>
    ensures { OnOk result (IsPut (λ old. joined_onto (joined (O.meaning custom.now) by) old later)
        (entries_of entries.old) key (entries_of entries.new)) }
{
    match entries.get_mut(&key) {
        Some(value) => {
            *value = joined_value(custom, by, *value, later);
            Ok(())
        }
        None => {
            entries.insert(key, later)?;
            Ok(())
        }
    }
}

/// Merges later values into those that are there.
pub(crate) fn merge_all<O: RowOp>(
    entries: &mut Entries,
    custom: &O,
    by: Fold,
    others: Entries,
) -> Result<(), Memory>
    ensures { OnOk result (AreMergedIn (joined (O.meaning custom.now) by)
        (entries_of entries.old) (entries_of others) (entries_of entries.new)) }
{
    for (key, later) in others {
        merge_in(entries, custom, by, key, later)?;
    }
    Ok(())
}

/// The pairs of a state in the order of their keys.
pub(crate) fn sorted_pairs(alloc: Global, mut entries: Entries) -> Result<Pairs, Memory>
    ensures { IfOk result (AreSorted (entries_of entries)) }
{
    entries.sort_keys()?;
    pairs(alloc, entries)
}

fn pairs(alloc: Global, entries: Entries) -> Result<Pairs, Memory>
    ensures { IfOk result (λ pairs. pairs ≡ entries_of entries) }
{
    let pairs = entries
        .into_iter()
        .map(|(key, value)| Pair { key, value })
        .collect(alloc)?;
    Ok(Seq::from_vec(pairs))
}
