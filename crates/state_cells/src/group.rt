ghost use Rattle.std.specs.Prelude.{◌≡◌, ◌++◌, ◌∷◌, [], ℕ, List, filter, not, is_some, IfOk, OnOk};
ghost use Rattle.cell_format.specs.Commits.{amounts_at};
ghost use Rattle.state_cells.specs.Turns.{AreApart};
ghost use Rattle.tree_model.specs.declared.write.Write.{Write};
ghost use Rattle.state_cells.specs.Groups.{amounts_of, group_of, jobs_in};

use indexmap::IndexMap;
use smallvec::SmallVec;
use std::alloc::Global;
use storm_stores::KeyBytes;
use tree_model::storm_values::{Bytes, Memory};

/// What is written for a key, in order. Up to four amounts take no memory.
pub(crate) type Amounts = SmallVec<i64, 4>;

/// The amounts by key, found by hash, in the order in which the keys came first. The keys lie in
/// the writes.
pub(crate) type Groups<'w> = IndexMap<KeyBytes<'w>, Amounts>;

/// Writes of a batch, brought together by their keys. The keys are lent by the writes.
#[derive(Drop)]
pub struct GroupedWrites<'w> {
    groups: Groups<'w>,
}

impl<'w> GroupedWrites<'w> {
    /// No writes, with room for those of so many keys.
    pub fn with_capacity(alloc: Global, keys: usize) -> Result<Self, Memory>
        ensures { IfOk result (λ made. (key : List ℕ) → amounts_of made key ≡ []) }
    {
        let groups = IndexMap::with_capacity(alloc, keys)?;
        Ok(GroupedWrites { groups })
    }

    /// Adds the amount of a write behind those of its key, with one look-up.
    pub fn add(&mut self, key: &'w [u8], amount: i64) -> Result<(), Memory>
        ensures { OnOk result ((write : Write) → write.key ≡ key.now → write.amount ≡ amount
            → (k : List ℕ) → amounts_of self.new k
            ≡ amounts_of self.old k ++ amounts_at (write ∷ []) k) }
    {
        let amounts = self.groups.entry(KeyBytes { bytes: key })?.or_default();
        amounts.push(amount)?;
        Ok(())
    }

    /// The amounts by key. No key stands twice.
    pub(crate) fn groups(&self) -> &Groups<'w>
        ensures same { result.now ≡ self.now.groups }
        ensures apart { AreApart (jobs_in self.now.groups) }
    {
        // the length tells that no key stands twice
        let _count = self.groups.len();
        &self.groups
    }
}

/// Whether something is written for a key, with one look-up.
fn has_write(groups: &Groups<'_>, key: &[u8]) -> bool
    ensures { result ≡ is_some (group_of groups.now key.now) }
{
    groups.contains_key(KeyBytes { bytes: key })
}

/// Those of these keys for which nothing is written.
pub(crate) fn restores_of(
    alloc: Global,
    groups: &Groups<'_>,
    keys: Vec<Bytes>,
) -> Result<Vec<Bytes>, Memory>
    ensures { IfOk result (λ restores. restores.items
        ≡ filter (λ key. not (is_some (group_of groups.now key))) keys.items) }
{
    keys.into_iter()
        .filter(|key| !has_write(groups, key.as_slice()))
        .collect(alloc)
}
