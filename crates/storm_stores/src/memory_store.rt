ghost use Rattle.std.specs.Prelude.{◌≡◌, ◌≤◌, ◌-◌, ◌^◌, ◌↔◌, ◌⊎◌, ℕ, List, [], length, Option, None, Some, true, false, IsTrue, IfNone, IsSome, IfOk, IsErrOf, OnOk, OnErr, slice_get, option_copied, IfSome, map};
ghost use Rattle.std.specs.Cmp.Lexicographic.{slice_cmp};
ghost use Rattle.std.specs.List.{IsDistinct};
ghost use Rattle.std.specs.List.Sorted.{IsPermutation, IsSorted};
ghost use Rattle.std.specs.Map.{keys_of};
ghost use Rattle.std.specs.Ordering.{nat_cmp};
ghost use Rattle.std.specs.Str.{bytes_eq};
ghost use Rattle.std.proofs.Common.{sym, ◌∙◌};
ghost use Rattle.std.proofs.Math.Nat.{min-le_right};
ghost use Rattle.storm_values.specs.Counts.{raised};
ghost use Rattle.call_log.specs.Calls.{counted, next_fate};
ghost use Rattle.storm_stores.specs.CellMaps.{CellMap, InKeyOrder, cell_at, with_cell};
ghost use Rattle.storm_stores.specs.MemoryStore.{Holds, cells_after, cells_of, ended, failing_of, store_of};

use crate::calls::{CallKind, FailAt, count_fault};
use crate::fault::StoreFault;
use crate::key::{Key, KeyBytes};
use crate::store::CellStore;
use call_log::Calls;
use indexmap::IndexMap;
use std::alloc::Global;
use std::marker::Model;
use storm_values::{Bytes, Memory};

/// The cells by key, found by hash.
type Cells = IndexMap<Key, Bytes>;

/// Cells in memory. A get and a put take one look-up by hash, a put of a new key two, and a put of
/// the key that was found last none. For a cell of up to 46 bytes they take no memory, and for a
/// new key of up to 30 bytes only where the table grows. The first `key_at` after a new key sorts
/// all keys, and each other one finds its key by its number.
#[derive(Debug, Drop)]
pub struct MemStore {
    cells: Cells,
    /// Where the last key lies that was found, so that a put of it takes no look-up.
    last: usize,
    /// The keys in order, until there is a new one.
    order: Option<Vec<Bytes>>,
    gets: Calls<bool>,
    puts: Calls<bool>,
    counts: Calls<bool>,
    keys: Calls<bool>,
    faults: u64,
    alloc: Global,
}

impl Model for MemStore {
    ghost use Rattle.std.specs.Prelude.{◌≡◌, IfSome};
    ghost use Rattle.std.specs.Map.{keys_of};
    ghost use Rattle.storm_stores.specs.MemoryStore.{StoreState, cells_of};

    ghost Value = { StoreState };

    ghost view = { λ s. record {
      cells = cells_of s.cells.entries;
      gets = s.gets;
      puts = s.puts;
      counts = s.counts;
      keys = s.keys;
      faults = s.faults;
    } };

    ghost invariant = { λ s.
        IfSome s.order (λ order. order.items ≡ keys_of (cells_of s.cells.entries)) };
}

/// The cell of a key. Where the key lies is noted.
fn find_cell(cells: &Cells, last: &mut usize, key: &[u8]) -> Result<Option<Bytes>, Memory>
    ensures { IfOk result (λ cell. cell ≡ cell_at (cells_of cells.now.entries) key.now) }
{
    match cells.get_full(KeyBytes { bytes: key }) {
        Some((at, _, cell)) => {
            *last = at;
            Ok(Some(cell.copy()?))
        }
        None => Ok(None),
    }
}

/// Whether a key lies here.
fn is_key_at(cells: &Cells, at: usize, key: &[u8]) -> bool
    ensures { IsTrue result →
        (cell : List ℕ) × (slice_get cells.now.entries at ≡ Some (key.now, cell)) }
{
    match cells.get_index(at) {
        Some((held, _)) => held.as_slice() == key,
        None => false,
    }
}

/// Gives the key that lies here a cell.
fn set_cell(cells: &mut Cells, at: usize, key: &[u8], cell: Bytes)
    requires { (cell : List ℕ) × (slice_get cells.old.entries at ≡ Some (key.now, cell)) }
    ensures cells { cells_of cells.new.entries
        ≡ with_cell (cells_of cells.old.entries) key.now cell }
    ensures keys { keys_of (cells_of cells.new.entries) ≡ keys_of (cells_of cells.old.entries) }
{
    match cells.get_index_mut(at) {
        Some(old) => *old = cell,
        None => unreachable!(),
    }
}

/// Gives a key a cell, and tells whether the key is new. A new key is copied.
fn put_cell(
    alloc: Global,
    cells: &mut Cells,
    last: usize,
    key: &[u8],
    cell: &[u8],
) -> Result<bool, Memory>
    ensures ok { OnOk result
        (cells_of cells.new.entries ≡ with_cell (cells_of cells.old.entries) key.now cell.now) }
    ensures known { IfOk result
        (λ new. new ≡ false
        → keys_of (cells_of cells.new.entries) ≡ keys_of (cells_of cells.old.entries)) }
    ensures ordered { OnOk result (InKeyOrder (cells_of cells.new.entries)) }
    ensures ordered_before { OnOk result (InKeyOrder (cells_of cells.old.entries)) }
    ensures err { OnErr result (cells_of cells.new.entries ≡ cells_of cells.old.entries) }
{
    let cell = Bytes::from_slice(alloc, cell)?;
    if is_key_at(cells, last, key) {
        set_cell(cells, last, key, cell);
        return Ok(false);
    }
    match cells.get_mut(KeyBytes { bytes: key }) {
        Some(old) => {
            *old = cell;
            Ok(false)
        }
        None => {
            cells.insert(Key::from_slice(alloc, key)?, cell)?;
            Ok(true)
        }
    }
}

/// The number of keys.
fn count_cells(cells: &Cells) -> u64
    ensures { result ≡ length (cells_of cells.now.entries) }
{
    cells.len() as u64
}

/// The keys, in order.
fn sorted_keys(alloc: Global, cells: &Cells) -> Result<Vec<Bytes>, Memory>
    ensures { IfOk result (λ keys. keys.items ≡ keys_of (cells_of cells.now.entries)) }
{
    let mut keys = copy_keys(alloc, cells)?;
    sort_keys(&mut keys);
    Ok(keys)
}

/// The keys, in the order in which they came.
fn copy_keys(alloc: Global, cells: &Cells) -> Result<Vec<Bytes>, Memory>
    ensures keys { IfOk result (λ keys. keys.items ≡ keys_of cells.now.entries) }
    ensures distinct { IsDistinct bytes_eq (keys_of cells.now.entries) }
{
    let mut keys = Vec::with_capacity(alloc, cells.len())?;
    for key in cells.keys() {
        keys.push(Bytes::from_slice(alloc, key.as_slice())?)?;
    }
    Ok(keys)
}

/// Puts keys in the order of their bytes.
fn sort_keys(keys: &mut Vec<Bytes>)
    ensures same { IsPermutation keys.old.items keys.new.items }
    ensures sorted { IsSorted (slice_cmp nat_cmp) keys.new.items }
{
    keys.sort_unstable_by(|a, b| a.as_slice().cmp(&b.as_slice()));
}

impl MemStore {
    /// A store with no cell, whose calls do not fail.
    pub fn new(alloc: Global) -> Self
        ensures state { result ≡ store_of [] }
        ensures told { ⟦<MemStore as CellStore>⟧.tells result [] }
    {
        MemStore {
            cells: IndexMap::new(alloc),
            last: 0,
            order: None,
            gets: Calls::new(alloc),
            puts: Calls::new(alloc),
            counts: Calls::new(alloc),
            keys: Calls::new(alloc),
            faults: 0,
            alloc,
        }
    }

    /// Gives a key a cell. This is no call of the trait, and does not fail.
    pub fn set(&mut self, key: Bytes, cell: Bytes) -> Result<(), Memory>
        ensures ok { OnOk result (self.new ≡ record self.old {
          cells = with_cell self.old.cells key cell;
        }) }
        ensures ordered { OnOk result (InKeyOrder self.new.cells) }
        ensures err { OnErr result (self.new ≡ self.old) }
    {
        self.write(key.as_slice(), cell.as_slice())
    }

    /// Lets a call fail.
    pub fn fail(&mut self, at: FailAt) -> Result<(), Memory>
        ensures ok { OnOk result
            (self.new
            ≡ failing_of at.kind (record { number = at.number; happened = at.happened }) self.old) }
        ensures err { OnErr result (self.new ≡ self.old) }
    {
        match at.kind {
            CallKind::Get => self.gets.fail(at.number, at.happened),
            CallKind::Put => self.puts.fail(at.number, at.happened),
            CallKind::Count => self.counts.fail(at.number, at.happened),
            CallKind::KeyAt => self.keys.fail(at.number, at.happened),
        }
    }
}

impl MemStore {
    /// Begins to count the faults anew.
    pub(crate) fn forget_faults(&mut self)
        ensures { self.new ≡ record self.old { faults = 0 } }
    {
        self.faults = 0;
    }

    /// Gives a key a cell.
    fn write(&mut self, key: &[u8], cell: &[u8]) -> Result<(), Memory>
        ensures ok { OnOk result (self.new ≡ record self.old {
          cells = with_cell self.old.cells key.now cell.now;
        }) }
        ensures ordered { OnOk result (InKeyOrder self.new.cells) }
        ensures ordered_before { OnOk result (InKeyOrder self.old.cells) }
        ensures err { OnErr result (self.new ≡ self.old) }
    {
        let new = put_cell(self.alloc, &mut self.cells, self.last, key, cell)?;
        if new {
            self.order = None;
        }
        Ok(())
    }

    /// The key of a number.
    fn key_of(&mut self, i: u64) -> Result<Option<Bytes>, Memory>
        ensures same { self.new ≡ self.old }
        ensures key { IfOk result (λ key. key ≡ slice_get (keys_of self.old.cells) i) }
    {
        let order = match self.order.take() {
            Some(order) => order,
            None => sorted_keys(self.alloc, &self.cells)?,
        };
        let key = copy_key(&order, i);
        self.order = Some(order);
        key
    }
}

/// A copy of the key of a number.
fn copy_key(order: &[Bytes], i: u64) -> Result<Option<Bytes>, Memory>
    ensures { IfOk result (λ key. key ≡ slice_get order.now i) }
{
    match order.get(i as usize) {
        Some(key) => Ok(Some(key.copy()?)),
        None => Ok(None),
    }
}

impl CellStore for MemStore {
    ghost tells = { Holds };

    ghost fault_count = { λ s. ended s.faults };

    ghost one_map = { λ s a b is_a is_b. is_a.0 ∙ sym is_b.0 };

    ghost in_order = { λ s cells is. is.1 };

    ghost count_ends = { λ s. min-le_right s.faults (2 ^ 64 - 1) };

    fn get(&mut self, key: &[u8]) -> Result<Option<Bytes>, StoreFault>
        ensures fails { IsErrOf result StoreFault.Failed ↔ IsSome (next_fate self.old.gets) }
        ensures found { IfOk result (λ cell. cell ≡ cell_at self.old.cells key.now) }
        ensures state { IfNone (next_fate self.old.gets) (self.new ≡ record self.old {
          gets = counted self.old.gets;
        }) }
        ensures refused { IsErrOf result StoreFault.Failed → self.new ≡ record self.old {
          gets = counted self.old.gets;
          faults = raised self.old.faults;
        } }
        ensures failed { IsErrOf result StoreFault.Failed →
            ended self.new.faults ≡ raised (ended self.old.faults) }
        ensures quiet { (IsErrOf result StoreFault.Failed → ⊥) →
            self.new.faults ≡ self.old.faults }
        ensures never_falls { ended self.old.faults ≤ ended self.new.faults }
    {
        if self.gets.next().is_some() {
            return Err(count_fault(&mut self.faults));
        }
        Ok(find_cell(&self.cells, &mut self.last, key)?)
    }

    fn put(&mut self, key: &[u8], cell: &[u8]) -> Result<(), StoreFault>
        ensures fails { IsErrOf result StoreFault.Failed → IsSome (next_fate self.old.puts) }
        ensures does_not_fail { OnOk result (next_fate self.old.puts ≡ None) }
        ensures ok { OnOk result (self.new ≡ record self.old {
          cells = with_cell self.old.cells key.now cell.now;
          puts = counted self.old.puts;
        }) }
        ensures refused { IsErrOf result StoreFault.Failed → self.new ≡ record self.old {
          cells = cells_after (next_fate self.old.puts) self.old.cells key.now cell.now;
          puts = counted self.old.puts;
          faults = raised self.old.faults;
        } }
        ensures no_memory { IsErrOf result StoreFault.Memory → self.new ≡ record self.old {
          puts = counted self.old.puts;
        } }
        ensures done { OnOk result ((cells : CellMap) →
            Holds self.old cells → Holds self.new (with_cell cells key.now cell.now)) }
        ensures perhaps_done { IsErrOf result StoreFault.Failed → (cells : CellMap) →
            Holds self.old cells →
            Holds self.new cells ⊎ Holds self.new (with_cell cells key.now cell.now) }
        ensures told_before { (cells : CellMap) → Holds self.new cells →
            (before : CellMap) × Holds self.old before }
        ensures failed { IsErrOf result StoreFault.Failed →
            ended self.new.faults ≡ raised (ended self.old.faults) }
        ensures quiet { (IsErrOf result StoreFault.Failed → ⊥) →
            self.new.faults ≡ self.old.faults }
        ensures never_falls { ended self.old.faults ≤ ended self.new.faults }
    {
        match self.puts.next() {
            None => Ok(self.write(key, cell)?),
            Some(happened) => {
                if happened {
                    self.write(key, cell)?;
                }
                Err(count_fault(&mut self.faults))
            }
        }
    }

    fn count(&mut self) -> Result<u64, StoreFault>
        ensures fails { IsErrOf result StoreFault.Failed ↔ IsSome (next_fate self.old.counts) }
        ensures counted { IfOk result (λ count. count ≡ length self.old.cells) }
        ensures state { IfNone (next_fate self.old.counts) (self.new ≡ record self.old {
          counts = counted self.old.counts;
        }) }
        ensures refused { IsErrOf result StoreFault.Failed → self.new ≡ record self.old {
          counts = counted self.old.counts;
          faults = raised self.old.faults;
        } }
        ensures failed { IsErrOf result StoreFault.Failed →
            ended self.new.faults ≡ raised (ended self.old.faults) }
        ensures quiet { (IsErrOf result StoreFault.Failed → ⊥) →
            self.new.faults ≡ self.old.faults }
        ensures never_falls { ended self.old.faults ≤ ended self.new.faults }
    {
        if self.counts.next().is_some() {
            return Err(count_fault(&mut self.faults));
        }
        Ok(count_cells(&self.cells))
    }

    fn key_at(&mut self, i: u64) -> Result<Option<Bytes>, StoreFault>
        ensures fails { IsErrOf result StoreFault.Failed ↔ IsSome (next_fate self.old.keys) }
        ensures key { IfOk result (λ key. key ≡ slice_get (keys_of self.old.cells) i) }
        ensures state { IfNone (next_fate self.old.keys) (self.new ≡ record self.old {
          keys = counted self.old.keys;
        }) }
        ensures refused { IsErrOf result StoreFault.Failed → self.new ≡ record self.old {
          keys = counted self.old.keys;
          faults = raised self.old.faults;
        } }
        ensures failed { IsErrOf result StoreFault.Failed →
            ended self.new.faults ≡ raised (ended self.old.faults) }
        ensures quiet { (IsErrOf result StoreFault.Failed → ⊥) →
            self.new.faults ≡ self.old.faults }
        ensures never_falls { ended self.old.faults ≤ ended self.new.faults }
    {
        if self.keys.next().is_some() {
            return Err(count_fault(&mut self.faults));
        }
        Ok(self.key_of(i)?)
    }

    fn faults(&self) -> u64 {
        self.faults
    }
}
