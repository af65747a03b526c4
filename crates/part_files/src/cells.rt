// The cells that a store keeps in memory beside its log.
ghost use Rattle.std.specs.Prelude.{◌≡◌, [], length, slice_get, IfOk, OnOk, OnErr};
ghost use Rattle.std.specs.Map.{keys_of};
ghost use Rattle.storm_stores.specs.CellMaps.{cell_at, with_cell};
ghost use Rattle.part_files.specs.PartStores.{NeverFails};

use std::alloc::{AllocError, Global};
use std::marker::Model;
use storm_stores::{CellStore, MemStore, StoreFault};
use storm_values::{Bytes, Memory};

/// Cells by key, in a store that refuses no call.
#[derive(Debug, Drop)]
pub(crate) struct Cells {
    store: MemStore,
}

impl Model for Cells {
    ghost use Rattle.storm_stores.specs.CellMaps.{CellMap};
    ghost use Rattle.part_files.specs.PartStores.{NeverFails};

    ghost Value = { CellMap };

    ghost view = { λ c. c.store.cells };

    ghost invariant = { λ c. NeverFails c.store };
}

impl Cells {
    pub fn new(alloc: Global) -> Self
        ensures { result ≡ [] }
    {
        Cells {
            store: MemStore::new(alloc),
        }
    }

    /// The cells of a store.
    pub fn from_store(store: MemStore) -> Self
        requires { NeverFails store }
        ensures { result ≡ store.cells }
    {
        Cells { store }
    }

    pub fn get(&mut self, key: &[u8]) -> Result<Option<Bytes>, Memory>
        ensures cell { IfOk result (λ cell. cell ≡ cell_at self.old key.now) }
        ensures same { self.new ≡ self.old }
    {
        match self.store.get(key) {
            Ok(cell) => Ok(cell),
            Err(StoreFault::Memory) => Err(AllocError),
            Err(StoreFault::Failed) => unreachable!(),
        }
    }

    /// Gives a key a cell. Both are copied.
    pub fn set(&mut self, alloc: Global, key: &[u8], cell: &[u8]) -> Result<(), Memory>
        ensures ok { OnOk result (self.new ≡ with_cell self.old key.now cell.now) }
        ensures err { OnErr result (self.new ≡ self.old) }
    {
        let key = Bytes::from_slice(alloc, key)?;
        let cell = Bytes::from_slice(alloc, cell)?;
        self.store.set(key, cell)
    }

    pub fn count(&mut self) -> Result<u64, Memory>
        ensures count { IfOk result (λ count. count ≡ length self.old) }
        ensures same { self.new ≡ self.old }
    {
        match self.store.count() {
            Ok(count) => Ok(count),
            Err(StoreFault::Memory) => Err(AllocError),
            Err(StoreFault::Failed) => unreachable!(),
        }
    }

    pub fn key_at(&mut self, i: u64) -> Result<Option<Bytes>, Memory>
        ensures key { IfOk result (λ key. key ≡ slice_get (keys_of self.old) i) }
        ensures same { self.new ≡ self.old }
    {
        match self.store.key_at(i) {
            Ok(key) => Ok(key),
            Err(StoreFault::Memory) => Err(AllocError),
            Err(StoreFault::Failed) => unreachable!(),
        }
    }
}
