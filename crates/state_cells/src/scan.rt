ghost use Rattle.std.specs.Prelude.{◌≡◌, ◌≤◌, ◌<◌, ◌==◌, if◌then◌else◌, true, ℕ, List, [], ◌∷◌, ◌++◌, length, Option, IfOk, OnOk, IsErrOf};
ghost use Rattle.tree_model.specs.storm_values.Counts.{raised};
ghost use Rattle.storm_stores.specs.CellMaps.{CellMap, cell_at};
ghost use Rattle.cell_format.specs.declared.cell.Cell.{Cell};
ghost use Rattle.state_cells.specs.Known.{Knows};
ghost use Rattle.state_cells.specs.Scans.{Notes, Scans};
ghost use Rattle.state_cells.specs.Turns.{IsBad};

use crate::commit::find_cell;
use crate::fault::PartFault;
use crate::known::Known;
use cell_format::Cell;
use std::alloc::Global;
use storm_stores::CellStore;
use tree_model::storm_values::{Bytes, Memory};
use tree_model::topology_plan::Kind;

/// Notes a key where its cell is of the transaction, and that a cell is of a later one.
fn note(found: &mut Known, key: Bytes, cell: Option<Cell>) -> Result<(), Memory>
    ensures txid { found.new.txid ≡ found.old.txid }
    ensures notes { OnOk result (Notes found.old.txid key cell found.old.keys.items
        found.new.keys.items found.old.is_newest found.new.is_newest) }
{
    match cell {
        None => Ok(()),
        Some(cell) => note_cell(found, key, cell.txid),
    }
}

fn note_cell(found: &mut Known, key: Bytes, txid: u64) -> Result<(), Memory>
    ensures txid { found.new.txid ≡ found.old.txid }
    ensures keys { OnOk result (found.new.keys.items ≡ (if txid == found.old.txid
        then found.old.keys.items ++ key ∷ [] else found.old.keys.items)) }
    ensures newest { found.new.is_newest ≡ true →
        (found.old.is_newest ≡ true) × (txid ≤ found.old.txid) }
{
    if txid == found.txid {
        found.keys.push(key)?;
    }
    if txid > found.txid {
        found.is_newest = false;
    }
    Ok(())
}

/// Looks at the key of a number, and notes it where its cell is of the transaction.
fn scan_key<C: CellStore>(
    alloc: Global,
    store: &mut C,
    i: u64,
    found: &mut Known,
) -> Result<(), PartFault>
    ensures txid { found.new.txid ≡ found.old.txid }
    ensures seen { OnOk result ((cells : CellMap) → C.tells store.old cells → i < length cells →
        Scans Kind.Opaque found.old.txid cells i found.old.keys.items found.new.keys.items
        found.old.is_newest found.new.is_newest) }
    ensures same { (cells : CellMap) → C.tells store.old cells → C.tells store.new cells }
    ensures told_before { (cells : CellMap) → C.tells store.new cells → C.tells store.old cells }
    ensures failed { IsErrOf result PartFault.Store →
        C.fault_count store.new ≡ raised (C.fault_count store.old) }
    ensures quiet { (IsErrOf result PartFault.Store → ⊥) →
        C.fault_count store.new ≡ C.fault_count store.old }
    ensures bad { (k : List ℕ) → IsErrOf result (PartFault.BadCell k) →
        (cells : CellMap) → C.tells store.old cells → IsBad Kind.Opaque (cell_at cells k) }
    ensures never_falls { C.fault_count store.old ≤ C.fault_count store.new }
{
    let Some(key) = store.key_at(i)? else {
        return Ok(());
    };
    let cell = find_cell(alloc, store, Kind::Opaque, key.as_slice())?;
    match note(found, key, cell) {
        Ok(()) => Ok(()),
        Err(_) => Err(PartFault::Memory),
    }
}

/// Finds the keys whose cells are of a transaction, with one look at each key of an opaque part.
pub(crate) fn scan<C: CellStore>(
    alloc: Global,
    store: &mut C,
    txid: u64,
) -> Result<Known, PartFault>
    ensures txid { IfOk result (λ found. found.txid ≡ txid) }
    ensures knows { IfOk result (λ found. Knows C.tells store.old found) }
    ensures same { (cells : CellMap) → C.tells store.old cells → C.tells store.new cells }
    ensures told_before { (cells : CellMap) → C.tells store.new cells → C.tells store.old cells }
    ensures failed { IsErrOf result PartFault.Store →
        C.fault_count store.new ≡ raised (C.fault_count store.old) }
    ensures quiet { (IsErrOf result PartFault.Store → ⊥) →
        C.fault_count store.new ≡ C.fault_count store.old }
    ensures bad { (k : List ℕ) → IsErrOf result (PartFault.BadCell k) →
        (cells : CellMap) → C.tells store.old cells → IsBad Kind.Opaque (cell_at cells k) }
    ensures never_falls { C.fault_count store.old ≤ C.fault_count store.new }
{
    let mut found = Known {
        txid,
        keys: Vec::new(alloc),
        is_newest: true,
    };
    let count = store.count()?;
    for i in 0..count {
        match scan_key(alloc, store, i, &mut found) {
            Ok(()) => {}
            Err(fault) => return Err(fault),
        }
    }
    Ok(found)
}
