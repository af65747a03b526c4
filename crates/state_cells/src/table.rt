ghost use Rattle.std.specs.Prelude.{◌≡◌, ◌≤◌, ◌<◌, ℕ, List, [], ◌∷◌, ◌++◌, length, IfOk, OnOk, IsErrOf};
ghost use Rattle.std.specs.Str.{IsUtf8};
ghost use Rattle.tree_model.specs.storm_values.Counts.{raised};
ghost use Rattle.storm_stores.specs.CellMaps.{CellMap, cell_at};
ghost use Rattle.state_cells.specs.Scans.{AreGood};
ghost use Rattle.state_cells.specs.Rows.{IsBadRow, Reads, rows_of};

use crate::commit::{bad_cell, find_cell};
use crate::fault::PartFault;
use cell_format::Cell;
use std::alloc::Global;
use storm_stores::CellStore;
use tree_model::storm_values::{Bytes, Txt};
use tree_model::topology_plan::Kind;
use tree_model::{Pair, Pairs};

/// Reads the key of a number, and adds its value where it has one.
fn read_key<C: CellStore>(
    alloc: Global,
    store: &mut C,
    kind: Kind,
    i: u64,
    pairs: &mut Pairs,
) -> Result<(), PartFault>
    ensures reads { OnOk result ((cells : CellMap) → C.tells store.old cells → i < length cells →
        Reads kind cells i pairs.old pairs.new) }
    ensures same { (cells : CellMap) → C.tells store.old cells → C.tells store.new cells }
    ensures told_before { (cells : CellMap) → C.tells store.new cells → C.tells store.old cells }
    ensures failed { IsErrOf result PartFault.Store →
        C.fault_count store.new ≡ raised (C.fault_count store.old) }
    ensures quiet { (IsErrOf result PartFault.Store → ⊥) →
        C.fault_count store.new ≡ C.fault_count store.old }
    ensures bad { (k : List ℕ) → IsErrOf result (PartFault.BadCell k) →
        (cells : CellMap) → C.tells store.old cells → IsBadRow kind k (cell_at cells k) }
    ensures never_falls { C.fault_count store.old ≤ C.fault_count store.new }
{
    let Some(key) = store.key_at(i)? else {
        return Ok(());
    };
    let cell = match find_cell(alloc, store, kind, key.as_slice()) {
        Ok(cell) => cell,
        Err(fault) => return Err(fault),
    };
    match cell {
        Some(
            Cell {
                value: Some(value),
                ..
            },
        ) => add_row(alloc, pairs, key, value),
        _ => Ok(()),
    }
}

/// Adds a key with its value, if the key is a text.
fn add_row(alloc: Global, pairs: &mut Pairs, key: Bytes, value: i128) -> Result<(), PartFault>
    ensures ok { OnOk result (pairs.new ≡ pairs.old ++ record { key = key; value = value } ∷ []) }
    ensures not_store { IsErrOf result PartFault.Store → ⊥ }
    ensures bad { (k : List ℕ) → IsErrOf result (PartFault.BadCell k)
        → (k ≡ key) × (¬ (IsUtf8 key)) }
{
    match str::from_utf8(key.as_slice()) {
        Ok(text) => {
            let key = Txt::from_str(alloc, text)?;
            pairs.push(Pair { key, value })?;
            Ok(())
        }
        Err(_) => Err(bad_cell(alloc, key.as_slice())),
    }
}

/// The keys with a value, in order.
pub(crate) fn table<C: CellStore>(
    alloc: Global,
    store: &mut C,
    kind: Kind,
) -> Result<Pairs, PartFault>
    ensures rows { IfOk result (λ pairs. (cells : CellMap) → C.tells store.old cells →
        pairs ≡ rows_of cells) }
    ensures good { OnOk result ((cells : CellMap) → C.tells store.old cells → AreGood kind cells) }
    ensures same { (cells : CellMap) → C.tells store.old cells → C.tells store.new cells }
    ensures told_before { (cells : CellMap) → C.tells store.new cells → C.tells store.old cells }
    ensures failed { IsErrOf result PartFault.Store →
        C.fault_count store.new ≡ raised (C.fault_count store.old) }
    ensures quiet { (IsErrOf result PartFault.Store → ⊥) →
        C.fault_count store.new ≡ C.fault_count store.old }
    ensures bad { (k : List ℕ) → IsErrOf result (PartFault.BadCell k) →
        (cells : CellMap) → C.tells store.old cells → IsBadRow kind k (cell_at cells k) }
    ensures never_falls { C.fault_count store.old ≤ C.fault_count store.new }
{
    let mut pairs = Pairs::new(alloc);
    let count = store.count()?;
    for i in 0..count {
        match read_key(alloc, store, kind, i, &mut pairs) {
            Ok(()) => {}
            Err(fault) => return Err(fault),
        }
    }
    Ok(pairs)
}
