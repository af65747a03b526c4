//! What the amounts of each key come to.
ghost use Rattle.std.specs.Prelude.{◌≡◌, ◌<◌, ◌++◌, ◌∷◌, [], ℕ, List, cond, length, Some, OnErr, OnOk, option_map, slice_get};
ghost use Rattle.std.specs.Map.{lookup};
ghost use Rattle.std.specs.Str.{bytes_eq};
ghost use Rattle.tree_model.specs.Tables.{base};
ghost use Rattle.tree_model.specs.declared.write.Write.{Write};
ghost use Rattle.state_reader.specs.Totals.{entries_at, folding, grown, total_by};
ghost use Rattle.state_reader.specs.Kept.{AreTotals, AreAlike, total_at};

use crate::key_text::KeyText;
use indexmap::IndexMap;
use std::alloc::Global;
use tree_model::Write;
use tree_model::storm_values::{Memory, Txt};
use tree_model::topology_plan::Fold;

/// What the amounts of a key come to by each fold. Sums end at the ends of 128 bits.
#[derive(Clone, Copy, Debug)]
pub struct Total {
    sum: i128,
    last: i64,
    max: i64,
}

/// The totals of a state's keys. A key of up to 30 bytes lies where it is found.
#[derive(Debug, Drop)]
pub struct Keys {
    totals: IndexMap<Txt, Total>,
}

/// The totals of each state's keys, by the state's component number.
#[derive(Debug, Drop)]
pub struct Totals {
    states: Vec<Keys>,
}

impl Totals {
    /// No totals.
    pub fn new(alloc: Global) -> Self
        ensures { AreTotals [] result }
    {
        Totals {
            states: Vec::new(alloc),
        }
    }

    /// Adds one more write.
    pub fn add(&mut self, write: &Write) -> Result<(), Memory>
        ensures ok { OnOk result ((before : List Write) → AreTotals before self.old
            → AreTotals (before ++ write.now ∷ []) self.new) }
        ensures err { OnErr result ((before : List Write) → AreTotals before self.old
            → AreTotals before self.new) }
    {
        self.make_place(write.state)?;
        put(
            &mut self.states[write.state as usize].totals,
            &write.key,
            write.amount,
        )
    }

    /// A key's value by the fold of its state, where something is written for it.
    pub fn value(&self, by: Fold, state: u32, key: &str) -> Option<i128>
        ensures { (writes : List Write) → AreTotals writes self.now
            → result ≡ base (folding by) writes state key.now }
    {
        Some(self.total(state, key)?.by(by))
    }

    /// The total of a key.
    fn total(&self, state: u32, key: &str) -> Option<Total>
        ensures { result ≡ total_at self.now state key.now }
    {
        let keys = self.states.get(state as usize)?;
        keys.totals.get(KeyText { text: key }).copied()
    }

    /// Makes place for the keys of a state.
    fn make_place(&mut self, state: u32) -> Result<(), Memory>
        ensures place { OnOk result (state < length self.new.states.items) }
        ensures same { AreAlike self.old self.new }
    {
        let alloc = *self.states.allocator();
        for _ in self.states.len()..=state as usize {
            self.states.push(Keys {
                totals: IndexMap::new(alloc),
            })?;
        }
        Ok(())
    }
}

impl Total {
    /// The value by a fold.
    fn by(&self, by: Fold) -> i128
        ensures { result ≡ total_by by self.now }
    {
        match by {
            Fold::Count | Fold::Sum => self.sum,
            Fold::Last | Fold::Custom => i128::from(self.last),
            Fold::Max => i128::from(self.max),
        }
    }
}

/// A key's total with one more amount.
fn grown(old: Option<Total>, amount: i64) -> Total
    ensures { result ≡ grown old amount }
{
    match old {
        Some(old) => Total {
            sum: old.sum.saturating_add(i128::from(amount)),
            last: amount,
            max: old.max.max(amount),
        },
        None => Total {
            sum: i128::from(amount),
            last: amount,
            max: amount,
        },
    }
}

/// Adds an amount to the total of a key, with one search where the key has one.
fn put(totals: &mut IndexMap<Txt, Total>, key: &Txt, amount: i64) -> Result<(), Memory>
    ensures ok { OnOk result ((at : List ℕ) → lookup (bytes_eq at) totals.new.entries
        ≡ cond (bytes_eq key.now at)
        (Some (grown (lookup (bytes_eq key.now) totals.old.entries) amount))
        (lookup (bytes_eq at) totals.old.entries)) }
    ensures err { OnErr result (totals.new.entries ≡ totals.old.entries) }
{
    match totals.get_mut(key) {
        Some(total) => {
            *total = grown(Some(*total), amount);
            Ok(())
        }
        None => {
            totals.insert(key.copy()?, grown(None, amount))?;
            Ok(())
        }
    }
}
