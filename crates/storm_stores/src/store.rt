ghost use Rattle.std.specs.Prelude.{◌≡◌, ◌≢◌, ◌≤◌, ◌-◌, ◌^◌, ◌⊎◌, ℕ, List, length, Option, Some, slice_get, IfOk, OnOk, OnErr, IsErrOf};
ghost use Rattle.std.specs.Map.{keys_of};
ghost use Rattle.storm_values.specs.Counts.{raised, raised_by};
ghost use Rattle.storm_stores.specs.CellMaps.{CellMap, InKeyOrder, cell_at, with_cell};

use crate::fault::StoreFault;
use storm_values::{Bytes, Memory};

/// A finite map from keys to cells, both bytes, that may refuse a call. A store that tells no map
/// goes on to tell none.
pub trait CellStore: Drop {
    /// The store tells that its map is this one.
    ghost tells: { Self → CellMap → Type 0 };

    /// How often the store has failed. The count ends at 2^64 - 1.
    ghost fault_count: { Self → ℕ };

    /// The cell of a key.
    fn get(&mut self, key: &[u8]) -> Result<Option<Bytes>, StoreFault>
        ensures found { IfOk result (λ cell. (cells : CellMap) →
            tells self.old cells → cell ≡ cell_at cells key.now) }
        ensures same { (cells : CellMap) → tells self.old cells → tells self.new cells }
        ensures told_before { (cells : CellMap) → tells self.new cells → tells self.old cells }
        ensures failed { IsErrOf result StoreFault.Failed →
            fault_count self.new ≡ raised (fault_count self.old) }
        ensures quiet { (IsErrOf result StoreFault.Failed → ⊥) →
            fault_count self.new ≡ fault_count self.old }
        ensures never_falls { fault_count self.old ≤ fault_count self.new };

    /// Gives a key a cell. Where the call fails the key has its old cell or the new one.
    fn put(&mut self, key: &[u8], cell: &[u8]) -> Result<(), StoreFault>
        ensures done { OnOk result ((cells : CellMap) →
            tells self.old cells → tells self.new (with_cell cells key.now cell.now)) }
        ensures perhaps_done { IsErrOf result StoreFault.Failed → (cells : CellMap) →
            tells self.old cells →
            tells self.new cells ⊎ tells self.new (with_cell cells key.now cell.now) }
        ensures not_done { IsErrOf result StoreFault.Memory → (cells : CellMap) →
            tells self.old cells → tells self.new cells }
        ensures told_before { (cells : CellMap) → tells self.new cells →
            (before : CellMap) × tells self.old before }
        ensures failed { IsErrOf result StoreFault.Failed →
            fault_count self.new ≡ raised (fault_count self.old) }
        ensures quiet { (IsErrOf result StoreFault.Failed → ⊥) →
            fault_count self.new ≡ fault_count self.old }
        ensures never_falls { fault_count self.old ≤ fault_count self.new };

    /// The number of keys.
    fn count(&mut self) -> Result<u64, StoreFault>
        ensures counted { IfOk result (λ count. (cells : CellMap) →
            tells self.old cells → count ≡ length cells) }
        ensures same { (cells : CellMap) → tells self.old cells → tells self.new cells }
        ensures told_before { (cells : CellMap) → tells self.new cells → tells self.old cells }
        ensures failed { IsErrOf result StoreFault.Failed →
            fault_count self.new ≡ raised (fault_count self.old) }
        ensures quiet { (IsErrOf result StoreFault.Failed → ⊥) →
            fault_count self.new ≡ fault_count self.old }
        ensures never_falls { fault_count self.old ≤ fault_count self.new };

    /// The key of a number, the keys being numbered from 0 in the order of their bytes, and `None`
    /// where there are not so many.
    fn key_at(&mut self, i: u64) -> Result<Option<Bytes>, StoreFault>
        ensures key { IfOk result (λ key. (cells : CellMap) →
            tells self.old cells → key ≡ slice_get (keys_of cells) i) }
        ensures same { (cells : CellMap) → tells self.old cells → tells self.new cells }
        ensures told_before { (cells : CellMap) → tells self.new cells → tells self.old cells }
        ensures failed { IsErrOf result StoreFault.Failed →
            fault_count self.new ≡ raised (fault_count self.old) }
        ensures quiet { (IsErrOf result StoreFault.Failed → ⊥) →
            fault_count self.new ≡ fault_count self.old }
        ensures never_falls { fault_count self.old ≤ fault_count self.new };

    /// How often the store has failed. It takes no memory.
    fn faults(&self) -> u64
        ensures { result ≡ fault_count self.now };

    /// A store tells one map.
    ghost one_map: { (s : Self) (a b : CellMap) → tells s a → tells s b → a ≡ b };

    /// Its keys stand in order.
    ghost in_order: { (s : Self) (cells : CellMap) → tells s cells → InKeyOrder cells };

    /// The count ends at 2^64 - 1.
    ghost count_ends: { (s : Self) → fault_count s ≤ 2 ^ 64 - 1 };
}

/// Makes the store of each part of each state, and takes the stores back.
pub trait StoreMaker {
    type C: CellStore;

    /// The maker tells that it holds this map for a part of a component.
    ghost holds: { Self → ℕ → ℕ → CellMap → Type 0 };

    /// The maker has made a store for the part.
    ghost has_made: { Self → ℕ → ℕ → Type 0 };

    /// How often the outside has failed. The count ends at 2^64 - 1.
    ghost fault_count: { Self → ℕ };

    /// Makes the store of a part, with the map that the maker holds for it. What the maker holds
    /// for the part until the store comes back is left open.
    fn make(&mut self, component: u32, part: u32) -> Result<Self::C, Memory>
        ensures map { IfOk result (λ store. (cells : CellMap) →
            holds self.old component part cells → Self.C.tells store cells) }
        ensures no_fault { IfOk result (λ store. Self.C.fault_count store ≡ 0) }
        ensures made { OnOk result (has_made self.new component part) }
        ensures others { (c p : ℕ) (cells : CellMap) → ((c ≡ component) × (p ≡ part) → ⊥) →
            holds self.old c p cells → holds self.new c p cells }
        ensures not_made { OnErr result ((c p : ℕ) (cells : CellMap) →
            holds self.old c p cells → holds self.new c p cells) }
        ensures stays_made { (c p : ℕ) → has_made self.old c p → has_made self.new c p }
        ensures made_before { (c p : ℕ) → ((c ≡ component) × (p ≡ part) → ⊥) →
            has_made self.new c p → has_made self.old c p }
        ensures none_made { OnErr result
            ((c p : ℕ) → has_made self.new c p → has_made self.old c p) }
        ensures same_count { fault_count self.new ≡ fault_count self.old };

    /// Takes a store back, and then holds its map for the part. It takes no memory.
    fn give(&mut self, component: u32, part: u32, store: Self::C)
        requires { has_made self.old component part }
        ensures map { (cells : CellMap) →
            Self.C.tells store cells → holds self.new component part cells }
        ensures others { (c p : ℕ) (cells : CellMap) → ((c ≡ component) × (p ≡ part) → ⊥) →
            holds self.old c p cells → holds self.new c p cells }
        ensures stays_made { (c p : ℕ) → has_made self.old c p → has_made self.new c p }
        ensures made_before { (c p : ℕ) → has_made self.new c p → has_made self.old c p }
        ensures count { (let of_store = Self.C.fault_count store in
            fault_count self.new ≡ raised_by (fault_count self.old) of_store) }
        ensures never_falls { fault_count self.old ≤ fault_count self.new }
        ensures same_count { Self.C.fault_count store ≡ 0 →
            fault_count self.new ≡ fault_count self.old };

    /// A part has one map.
    ghost one_map: { (s : Self) (c p : ℕ) (a b : CellMap) → holds s c p a → holds s c p b → a ≡ b };

    /// The count ends at 2^64 - 1.
    ghost count_ends: { (s : Self) → fault_count s ≤ 2 ^ 64 - 1 };
}

/// A law: a put changes one key.
pub fn puts_change_one_key()
    ensures changed { (cells : CellMap) (key cell : List ℕ) →
        cell_at (with_cell cells key cell) key ≡ Some cell }
    ensures others { (cells : CellMap) (key cell other : List ℕ) → other ≢ key →
        cell_at (with_cell cells key cell) other ≡ cell_at cells other }
{}
