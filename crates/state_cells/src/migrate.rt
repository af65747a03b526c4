ghost use Rattle.std.specs.Prelude.{◌≡◌, ◌≤◌, ◌<◌, ◌⊎◌, true, false, ℕ, List, length, IsSome, IsTrue, Some, MatchOption, IfOk, OnOk, OnErr, IsErrOf};
ghost use Rattle.std.specs.Str.{IsUtf8};
ghost use Rattle.tree_model.specs.storm_values.Counts.{raised};
ghost use Rattle.storm_stores.specs.CellMaps.{CellMap, cell_at};
ghost use Rattle.cell_format.specs.Layout.{AreBytesOf, IsCell, bytes_of};
ghost use Rattle.cell_format.specs.declared.cell.Cell.{Cell};
ghost use Rattle.state_cells.specs.Migrate.{IsBadKey, IsRowCell, Migrates, MigratesAt, MigratesBefore, MigratesSome, is_old, migrated, old_count};
ghost use Rattle.state_cells.specs.Rows.{IsBadRow};

use crate::commit::{bad_cell, put_cell};
use crate::fault::PartFault;
use cell_format::{CELL_BYTES, Cell, cell_for};
use std::alloc::Global;
use storm_stores::CellStore;
use tree_model::topology_plan::Kind;

/// Whether a table takes a cell at a key: without a value at any, with one at a text.
fn is_row_at(cell: &Cell, key: &[u8]) -> bool
    ensures taken { IsTrue result → IsSome cell.now.value → IsUtf8 key.now }
    ensures not { (IsTrue result → ⊥) → IsSome cell.now.value × (¬ (IsUtf8 key.now)) }
{
    match cell.value {
        None => true,
        Some(_) => str::from_utf8(key).is_ok(),
    }
}

/// The cell that the bytes are, where a table takes it at this key.
fn row_cell(kind: Kind, key: &[u8], bytes: &[u8]) -> Option<Cell>
    ensures { MatchOption result (IsBadRow kind key.now (Some bytes.now))
        (λ cell. IsRowCell kind key.now bytes.now cell) }
{
    match cell_for(kind, bytes) {
        None => None,
        Some(cell) => {
            if is_row_at(&cell, key) {
                Some(cell)
            } else {
                None
            }
        }
    }
}

/// Brings the cell of the key of a number to format 2, with one put where it is of format 1, and
/// tells whether it was.
fn migrate_key<C: CellStore>(
    alloc: Global,
    store: &mut C,
    kind: Kind,
    i: u64,
) -> Result<bool, PartFault>
    ensures ok { IfOk result (λ was_old. (cells : CellMap) → C.tells store.old cells →
        i < length cells → MigratesAt C.tells kind i was_old cells store.new) }
    ensures err { OnErr result ((cells : CellMap) → C.tells store.old cells →
        C.tells store.new cells ⊎ MigratesAt C.tells kind i true cells store.new) }
    ensures told_before { (cells : CellMap) → C.tells store.new cells →
        (before : CellMap) × C.tells store.old before }
    ensures failed { IsErrOf result PartFault.Store →
        C.fault_count store.new ≡ raised (C.fault_count store.old) }
    ensures quiet { (IsErrOf result PartFault.Store → ⊥) →
        C.fault_count store.new ≡ C.fault_count store.old }
    ensures bad { (k : List ℕ) → IsErrOf result (PartFault.BadCell k) →
        (cells : CellMap) → C.tells store.old cells →
        IsBadKey kind i k cells × C.tells store.new cells }
    ensures never_falls { C.fault_count store.old ≤ C.fault_count store.new }
{
    let Some(key) = store.key_at(i)? else {
        return Ok(false);
    };
    let Some(bytes) = store.get(key.as_slice())? else {
        return Ok(false);
    };
    let Some(cell) = row_cell(kind, key.as_slice(), bytes.as_slice()) else {
        return Err(bad_cell(alloc, key.as_slice()));
    };
    if bytes.as_slice().len() == CELL_BYTES {
        return Ok(false);
    }
    match put_cell(store, key.as_slice(), &cell) {
        Ok(()) => Ok(true),
        Err(fault) => Err(fault),
    }
}

/// Brings each cell to format 2, in the order of keys, and tells how many were of format 1.
pub(crate) fn migrate<C: CellStore>(
    alloc: Global,
    store: &mut C,
    kind: Kind,
) -> Result<u64, PartFault>
    ensures counted { IfOk result (λ count. (cells : CellMap) → C.tells store.old cells →
        count ≡ old_count cells) }
    ensures done { OnOk result ((cells : CellMap) → C.tells store.old cells →
        Migrates C.tells kind (length cells) cells store.new) }
    ensures reached { (cells : CellMap) → C.tells store.old cells →
        MigratesSome C.tells kind cells store.new }
    ensures stopped { (k : List ℕ) → IsErrOf result (PartFault.BadCell k) →
        (cells : CellMap) → C.tells store.old cells →
        MigratesBefore C.tells kind k cells store.new }
    ensures told_before { (cells : CellMap) → C.tells store.new cells →
        (before : CellMap) × C.tells store.old before }
    ensures failed { IsErrOf result PartFault.Store →
        C.fault_count store.new ≡ raised (C.fault_count store.old) }
    ensures quiet { (IsErrOf result PartFault.Store → ⊥) →
        C.fault_count store.new ≡ C.fault_count store.old }
    ensures bad { (k : List ℕ) → IsErrOf result (PartFault.BadCell k) →
        (cells : CellMap) → C.tells store.old cells → IsBadRow kind k (cell_at cells k) }
    ensures never_falls { C.fault_count store.old ≤ C.fault_count store.new }
{
    let mut migrated = 0;
    let count = store.count()?;
    for i in 0..count {
        match migrate_key(alloc, store, kind, i) {
            Ok(was_old) => migrated += u64::from(was_old),
            Err(fault) => return Err(fault),
        }
    }
    Ok(migrated)
}

/// A law: the bytes of a cell are brought to those that are written for the same cell, which are
/// not of format 1. Bytes of another length than that of format 1 stay, be they a cell or none.
pub fn cells_are_brought_to_format_2()
    ensures same { (cell : Cell) (bytes : List ℕ) → IsCell cell → AreBytesOf cell bytes
        → migrated bytes ≡ bytes_of cell }
    ensures none_old { (bytes : List ℕ) → is_old (migrated bytes) ≡ false }
    ensures kept { (bytes : List ℕ) → is_old bytes ≡ false → migrated bytes ≡ bytes }
{}
