ghost use Rattle.std.specs.Prelude.{◌≡◌, ◌≤◌, ◌-◌, ◌^◌, ◌↔◌, ◌⊎◌, ◌++◌, ℕ, List, length, false, slice_get, IsTrue, IfOk, OnOk, IsErrOf};
ghost use Rattle.std.specs.Map.{keys_of};
ghost use Rattle.std.proofs.Common.{ap, sym, ◌∙◌};
ghost use Rattle.std.proofs.Math.Nat.{min-le_right};
ghost use Rattle.storm_values.specs.Counts.{raised};
ghost use Rattle.storm_stores.specs.CellMaps.{CellMap, cell_at, with_cell};
ghost use Rattle.storm_stores.specs.MemoryStore.{ended};
ghost use Rattle.part_files.specs.Logs.{HoldsFirst, TellsMapOf};
ghost use Rattle.part_files.specs.PartFiles.{map_of, piece_of};
ghost use Rattle.part_files.specs.PartStores.{refused};

use crate::cells::Cells;
use crate::lines::{put_piece, read_cells};
use crate::log::Log;
use std::alloc::{AllocError, Global};
use std::marker::Model;
use storm_outside::InFault;
use storm_stores::{CellStore, StoreFault};
use storm_values::{Bytes, Memory};

/// Cells in a log: each put appends a line. All cells are kept in memory too, which every other
/// call reads. After an append that failed every call fails, as nobody knows what came of the line.
#[derive(Drop)]
pub struct PartStore<L: Log> {
    log: L,
    cells: Cells,
    broken: bool,
    faults: u64,
    alloc: Global,
}

impl<L: Log> Model for PartStore<L> {
    ghost use Rattle.std.specs.Prelude.{◌≡◌, ℕ, List, false};
    ghost use Rattle.part_files.specs.PartFiles.{map_of};
    ghost use Rattle.part_files.specs.PartStores.{PartState};

    ghost Value = { PartState L };

    ghost view = { λ s. record {
      log = s.log;
      cells = s.cells;
      is_broken = s.broken;
      faults = s.faults;
    } };

    ghost invariant = { λ s. (bytes : List ℕ) →
        L.holds s.log bytes → s.broken ≡ false → s.cells ≡ map_of bytes };
}

/// Counts a fault, up to 2^64 - 1.
fn count_fault(faults: &mut u64) -> StoreFault
    ensures raised { faults.new ≡ raised faults.old }
    ensures ended { ended faults.new ≡ raised (ended faults.old) }
    ensures never_falls { ended faults.old ≤ ended faults.new }
    ensures fault { result ≡ StoreFault.Failed }
{
    *faults = faults.saturating_add(1);
    StoreFault::Failed
}

impl<L: Log> PartStore<L> {
    /// The store of a log, which is read once. Where it cannot be read, each call of the store
    /// fails.
    pub fn open(alloc: Global, mut log: L) -> Result<Self, Memory>
        ensures told { IfOk result (λ store. (bytes : List ℕ) → L.holds log bytes →
            ⟦<PartStore<L> as CellStore>⟧.tells store (map_of bytes)) }
        ensures no_fault { IfOk result (λ store.
            ⟦<PartStore<L> as CellStore>⟧.fault_count store ≡ 0) }
        ensures held { IfOk result (λ store. (bytes : List ℕ) →
            L.holds log bytes → L.holds store.log bytes) }
        ensures broken { IfOk result (λ store. IsTrue store.is_broken →
            L.fault_count store.log ≡ raised (L.fault_count log)) }
        ensures quiet { IfOk result (λ store. store.is_broken ≡ false →
            L.fault_count store.log ≡ L.fault_count log) }
    {
        let (cells, broken) = match log.read(alloc) {
            Ok(bytes) => (
                Cells::from_store(read_cells(alloc, bytes.as_slice())?),
                false,
            ),
            Err(InFault::Memory) => return Err(AllocError),
            Err(InFault::Failed) => (Cells::new(alloc), true),
        };
        Ok(PartStore {
            log,
            cells,
            broken,
            faults: 0,
            alloc,
        })
    }

    /// Whether each call fails.
    pub fn is_broken(&self) -> bool
        ensures { result ≡ self.now.is_broken }
    {
        self.broken
    }

    /// The log, which takes no memory.
    pub fn into_log(self) -> L
        ensures { result ≡ self.log }
    {
        self.log
    }
}

impl<L: Log> CellStore for PartStore<L> {
    ghost tells = { λ s cells. TellsMapOf (L.holds s.log) cells };

    ghost fault_count = { λ s. ended s.faults };

    ghost one_map = { λ s a b is_a is_b.
        is_a.is ∙ ap map_of (L.one_content s.log is_a.bytes is_b.bytes is_a.held is_b.held)
        ∙ sym is_b.is };

    ghost in_order = { λ s cells is. is.ordered };

    ghost count_ends = { λ s. min-le_right s.faults (2 ^ 64 - 1) };

    fn get(&mut self, key: &[u8]) -> Result<Option<Bytes>, StoreFault>
        ensures fails { IsErrOf result StoreFault.Failed ↔ IsTrue self.old.is_broken }
        ensures cell { IfOk result (λ cell. cell ≡ cell_at self.old.cells key.now) }
        ensures state { (IsErrOf result StoreFault.Failed → ⊥) → self.new ≡ self.old }
        ensures refused { IsErrOf result StoreFault.Failed → self.new ≡ refused self.old }
        ensures found { IfOk result (λ cell. (cells : CellMap) →
            TellsMapOf (L.holds self.old.log) cells → cell ≡ cell_at cells key.now) }
        ensures failed { IsErrOf result StoreFault.Failed →
            ended self.new.faults ≡ raised (ended self.old.faults) }
        ensures never_falls { ended self.old.faults ≤ ended self.new.faults }
    {
        if self.broken {
            return Err(count_fault(&mut self.faults));
        }
        Ok(self.cells.get(key)?)
    }

    fn put(&mut self, key: &[u8], cell: &[u8]) -> Result<(), StoreFault>
        ensures broken { IsTrue self.old.is_broken → IsErrOf result StoreFault.Failed }
        ensures fails { IsErrOf result StoreFault.Failed → IsTrue self.old.is_broken
            ⊎ (L.fault_count self.new.log ≡ raised (L.fault_count self.old.log)) }
        ensures breaks { IsErrOf result StoreFault.Failed → IsTrue self.new.is_broken }
        ensures ok { OnOk result (self.new ≡ record self.old {
          log = self.new.log;
          cells = with_cell self.old.cells key.now cell.now;
        }) }
        ensures appended { OnOk result ((held : List ℕ) → L.holds self.old.log held →
            L.holds self.new.log (held ++ piece_of key.now cell.now)) }
        ensures cut { IsErrOf result StoreFault.Failed → self.old.is_broken ≡ false →
            (held : List ℕ) → L.holds self.old.log held →
            HoldsFirst (L.holds self.new.log) held (piece_of key.now cell.now) }
        ensures refused { IsTrue self.old.is_broken → self.new ≡ refused self.old }
        ensures no_memory { IsErrOf result StoreFault.Memory → self.new ≡ self.old }
        ensures done { OnOk result ((cells : CellMap) → TellsMapOf (L.holds self.old.log) cells →
            TellsMapOf (L.holds self.new.log) (with_cell cells key.now cell.now)) }
        ensures perhaps_done { IsErrOf result StoreFault.Failed → (cells : CellMap) →
            TellsMapOf (L.holds self.old.log) cells → TellsMapOf (L.holds self.new.log) cells
            ⊎ TellsMapOf (L.holds self.new.log) (with_cell cells key.now cell.now) }
        ensures told_before { (cells : CellMap) → TellsMapOf (L.holds self.new.log) cells →
            (before : CellMap) × TellsMapOf (L.holds self.old.log) before }
        ensures failed { IsErrOf result StoreFault.Failed →
            ended self.new.faults ≡ raised (ended self.old.faults) }
        ensures quiet { (IsErrOf result StoreFault.Failed → ⊥) →
            self.new.faults ≡ self.old.faults }
        ensures never_falls { ended self.old.faults ≤ ended self.new.faults }
    {
        if self.broken {
            return Err(count_fault(&mut self.faults));
        }
        let piece = put_piece(self.alloc, key, cell)?;
        self.cells.set(self.alloc, key, cell)?;
        match self.log.append(piece.as_slice()) {
            Ok(()) => Ok(()),
            Err(_) => {
                self.broken = true;
                Err(count_fault(&mut self.faults))
            }
        }
    }

    fn count(&mut self) -> Result<u64, StoreFault>
        ensures fails { IsErrOf result StoreFault.Failed ↔ IsTrue self.old.is_broken }
        ensures number { IfOk result (λ count. count ≡ length self.old.cells) }
        ensures state { (IsErrOf result StoreFault.Failed → ⊥) → self.new ≡ self.old }
        ensures refused { IsErrOf result StoreFault.Failed → self.new ≡ refused self.old }
        ensures counted { IfOk result (λ count. (cells : CellMap) →
            TellsMapOf (L.holds self.old.log) cells → count ≡ length cells) }
        ensures failed { IsErrOf result StoreFault.Failed →
            ended self.new.faults ≡ raised (ended self.old.faults) }
        ensures never_falls { ended self.old.faults ≤ ended self.new.faults }
    {
        if self.broken {
            return Err(count_fault(&mut self.faults));
        }
        Ok(self.cells.count()?)
    }

    fn key_at(&mut self, i: u64) -> Result<Option<Bytes>, StoreFault>
        ensures fails { IsErrOf result StoreFault.Failed ↔ IsTrue self.old.is_broken }
        ensures held { IfOk result (λ key. key ≡ slice_get (keys_of self.old.cells) i) }
        ensures state { (IsErrOf result StoreFault.Failed → ⊥) → self.new ≡ self.old }
        ensures refused { IsErrOf result StoreFault.Failed → self.new ≡ refused self.old }
        ensures key { IfOk result (λ key. (cells : CellMap) →
            TellsMapOf (L.holds self.old.log) cells → key ≡ slice_get (keys_of cells) i) }
        ensures failed { IsErrOf result StoreFault.Failed →
            ended self.new.faults ≡ raised (ended self.old.faults) }
        ensures never_falls { ended self.old.faults ≤ ended self.new.faults }
    {
        if self.broken {
            return Err(count_fault(&mut self.faults));
        }
        Ok(self.cells.key_at(i)?)
    }

    fn faults(&self) -> u64 {
        self.faults
    }
}
