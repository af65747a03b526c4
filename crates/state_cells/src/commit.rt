ghost use Rattle.std.specs.Prelude.{◌≡◌, ◌≤◌, ◌⊎◌, ℕ, List, Option, IfOk, IfSome, OnOk, OnErr, IsErrOf};
ghost use Rattle.tree_model.specs.storm_values.Counts.{raised};
ghost use Rattle.tree_model.specs.Tables.{folded};
ghost use Rattle.storm_stores.specs.CellMaps.{CellMap, cell_at, with_cell};
ghost use Rattle.cell_format.specs.Commits.{Commits, Holds, IsCellOf, IsPerhapsDone};
ghost use Rattle.cell_format.specs.Layout.{IsWhole, bytes_of};
ghost use Rattle.state_cells.specs.Groups.{jobs_in, jobs_of, restores_in};
ghost use Rattle.state_cells.specs.Turns.{AreApart, IsBad, IsPerhapsWorked, IsWorked, OnlyAt, Turns, job_at};

use crate::fault::PartFault;
use crate::group::Groups;
use cell_format::{Cell, cell_for, change, encode_cell};
use std::alloc::Global;
use storm_stores::{CellStore, StoreFault};
use tree_model::bolt_ops::RowOp;
use tree_model::storm_values::{Bytes, Root};
use tree_model::topology_plan::{Fold, Kind};

/// What a commit is of.
#[derive(Clone, Copy, Debug)]
pub(crate) struct Batch {
    pub kind: Kind,
    pub by: Fold,
    pub root: Root,
}

/// Tells that a key has a cell that the part does not take.
pub(crate) fn bad_cell(alloc: Global, key: &[u8]) -> PartFault
    ensures bad { (k : List ℕ) → result ≡ PartFault.BadCell k → k ≡ key.now }
    ensures no_store { result ≡ PartFault.Store → ⊥ }
{
    match key.to_vec(alloc) {
        Ok(bytes) => PartFault::BadCell(Bytes::from_vec(bytes)),
        Err(_) => PartFault::Memory,
    }
}

/// The cell of a key, with one get.
pub(crate) fn find_cell<C: CellStore>(
    alloc: Global,
    store: &mut C,
    kind: Kind,
    key: &[u8],
) -> Result<Option<Cell>, PartFault>
    ensures found { IfOk result (λ cell. (cells : CellMap) → C.tells store.old cells →
        Holds kind (cell_at cells key.now) cell) }
    ensures good { IfOk result (λ cell. IfSome cell (IsCellOf kind)) }
    ensures same { (cells : CellMap) → C.tells store.old cells → C.tells store.new cells }
    ensures told_before { (cells : CellMap) → C.tells store.new cells → C.tells store.old cells }
    ensures failed { IsErrOf result PartFault.Store →
        C.fault_count store.new ≡ raised (C.fault_count store.old) }
    ensures quiet { (IsErrOf result PartFault.Store → ⊥) →
        C.fault_count store.new ≡ C.fault_count store.old }
    ensures bad { (k : List ℕ) → IsErrOf result (PartFault.BadCell k) →
        (cells : CellMap) → C.tells store.old cells → IsBad kind (cell_at cells k) }
    ensures never_falls { C.fault_count store.old ≤ C.fault_count store.new }
{
    let Some(bytes) = store.get(key)? else {
        return Ok(None);
    };
    match cell_for(kind, bytes.as_slice()) {
        Some(cell) => Ok(Some(cell)),
        None => Err(bad_cell(alloc, key)),
    }
}

pub(crate) fn put_cell<C: CellStore>(
    store: &mut C,
    key: &[u8],
    cell: &Cell,
) -> Result<(), PartFault>
    requires { IsWhole cell.now.kind cell.now.value cell.now.prev }
    ensures done { OnOk result ((cells : CellMap) → C.tells store.old cells →
        C.tells store.new (with_cell cells key.now (bytes_of cell.now))) }
    ensures broken { OnErr result ((cells : CellMap) → C.tells store.old cells →
        C.tells store.new cells ⊎ C.tells store.new (with_cell cells key.now (bytes_of cell.now))) }
    ensures told_before { (cells : CellMap) → C.tells store.new cells →
        (before : CellMap) × C.tells store.old before }
    ensures failed { IsErrOf result PartFault.Store →
        C.fault_count store.new ≡ raised (C.fault_count store.old) }
    ensures quiet { (IsErrOf result PartFault.Store → ⊥) →
        C.fault_count store.new ≡ C.fault_count store.old }
    ensures not_bad { (k : List ℕ) → IsErrOf result (PartFault.BadCell k) → ⊥ }
    ensures never_falls { C.fault_count store.old ≤ C.fault_count store.new }
{
    match store.put(key, &encode_cell(cell)) {
        Ok(()) => Ok(()),
        Err(StoreFault::Failed) => Err(PartFault::Store),
        Err(StoreFault::Memory) => Err(PartFault::Memory),
    }
}

/// Commits a key's amounts, with one get and one put at most.
fn commit_key<C: CellStore, O: RowOp>(
    alloc: Global,
    store: &mut C,
    batch: Batch,
    custom: &O,
    key: &[u8],
    amounts: &[i64],
) -> Result<(), PartFault>
    ensures ok { let by = folded (O.meaning custom.now) batch.by in
        OnOk result (Turns C.tells (OnlyAt key.now
        (Commits batch.kind by batch.root amounts.now)) store.old store.new) }
    ensures err { let by = folded (O.meaning custom.now) batch.by in
        OnErr result (Turns C.tells (OnlyAt key.now
        (IsPerhapsDone batch.kind by batch.root amounts.now)) store.old store.new) }
    ensures failed { IsErrOf result PartFault.Store →
        C.fault_count store.new ≡ raised (C.fault_count store.old) }
    ensures quiet { (IsErrOf result PartFault.Store → ⊥) →
        C.fault_count store.new ≡ C.fault_count store.old }
    ensures bad { (k : List ℕ) → IsErrOf result (PartFault.BadCell k) →
        (cells : CellMap) → C.tells store.old cells → IsBad batch.kind (cell_at cells k) }
    ensures told_before { (cells : CellMap) → C.tells store.new cells →
        (before : CellMap) × C.tells store.old before }
    ensures never_falls { C.fault_count store.old ≤ C.fault_count store.new }
{
    let cell = match find_cell(alloc, store, batch.kind, key) {
        Ok(cell) => cell,
        Err(fault) => return Err(fault),
    };
    match change(batch.kind, batch.by, custom, batch.root, amounts, cell) {
        None => Ok(()),
        Some(new) => put_cell(store, key, &new),
    }
}

/// Commits the keys that are written, in the order in which they came first.
fn commit_groups<C: CellStore, O: RowOp>(
    alloc: Global,
    store: &mut C,
    batch: Batch,
    custom: &O,
    groups: &Groups<'_>,
) -> Result<(), PartFault>
    ensures ok { let by = folded (O.meaning custom.now) batch.by in
        OnOk result (AreApart (jobs_in groups.now) → Turns C.tells
        (λ key. IsWorked batch.kind by batch.root (job_at (jobs_in groups.now) key))
        store.old store.new) }
    ensures err { let by = folded (O.meaning custom.now) batch.by in
        OnErr result (AreApart (jobs_in groups.now) → Turns C.tells
        (λ key. IsPerhapsWorked batch.kind by batch.root (job_at (jobs_in groups.now) key))
        store.old store.new) }
    ensures failed { IsErrOf result PartFault.Store →
        C.fault_count store.new ≡ raised (C.fault_count store.old) }
    ensures quiet { (IsErrOf result PartFault.Store → ⊥) →
        C.fault_count store.new ≡ C.fault_count store.old }
    ensures bad { (k : List ℕ) → IsErrOf result (PartFault.BadCell k) →
        AreApart (jobs_in groups.now) → (cells : CellMap) → C.tells store.old cells →
        IsBad batch.kind (cell_at cells k) }
    ensures told_before { (cells : CellMap) → C.tells store.new cells →
        (before : CellMap) × C.tells store.old before }
    ensures never_falls { C.fault_count store.old ≤ C.fault_count store.new }
{
    for (key, amounts) in groups {
        commit_key(alloc, store, batch, custom, key.bytes, amounts.as_slice())?;
    }
    Ok(())
}

/// Commits keys for which nothing is written, in order.
fn commit_restores<C: CellStore, O: RowOp>(
    alloc: Global,
    store: &mut C,
    batch: Batch,
    custom: &O,
    keys: &[Bytes],
) -> Result<(), PartFault>
    ensures ok { let by = folded (O.meaning custom.now) batch.by in
        OnOk result (AreApart (restores_in keys.now) → Turns C.tells
        (λ key. IsWorked batch.kind by batch.root (job_at (restores_in keys.now) key))
        store.old store.new) }
    ensures err { let by = folded (O.meaning custom.now) batch.by in
        OnErr result (AreApart (restores_in keys.now) → Turns C.tells
        (λ key. IsPerhapsWorked batch.kind by batch.root (job_at (restores_in keys.now) key))
        store.old store.new) }
    ensures failed { IsErrOf result PartFault.Store →
        C.fault_count store.new ≡ raised (C.fault_count store.old) }
    ensures quiet { (IsErrOf result PartFault.Store → ⊥) →
        C.fault_count store.new ≡ C.fault_count store.old }
    ensures bad { (k : List ℕ) → IsErrOf result (PartFault.BadCell k) →
        AreApart (restores_in keys.now) → (cells : CellMap) → C.tells store.old cells →
        IsBad batch.kind (cell_at cells k) }
    ensures told_before { (cells : CellMap) → C.tells store.new cells →
        (before : CellMap) × C.tells store.old before }
    ensures never_falls { C.fault_count store.old ≤ C.fault_count store.new }
{
    for key in keys {
        commit_key(alloc, store, batch, custom, key.as_slice(), &[])?;
    }
    Ok(())
}

/// Does the jobs of a commit: the keys that are written, and then the others.
pub(crate) fn commit_jobs<C: CellStore, O: RowOp>(
    alloc: Global,
    store: &mut C,
    batch: Batch,
    custom: &O,
    groups: &Groups<'_>,
    keys: &[Bytes],
) -> Result<(), PartFault>
    ensures ok { let by = folded (O.meaning custom.now) batch.by in
        OnOk result (AreApart (jobs_of groups.now keys.now) → Turns C.tells
        (λ key. IsWorked batch.kind by batch.root (job_at (jobs_of groups.now keys.now) key))
        store.old store.new) }
    ensures err { let by = folded (O.meaning custom.now) batch.by in
        OnErr result (AreApart (jobs_of groups.now keys.now) → Turns C.tells
        (λ key. IsPerhapsWorked batch.kind by batch.root (job_at (jobs_of groups.now keys.now) key))
        store.old store.new) }
    ensures failed { IsErrOf result PartFault.Store →
        C.fault_count store.new ≡ raised (C.fault_count store.old) }
    ensures quiet { (IsErrOf result PartFault.Store → ⊥) →
        C.fault_count store.new ≡ C.fault_count store.old }
    ensures bad { (k : List ℕ) → IsErrOf result (PartFault.BadCell k) →
        AreApart (jobs_of groups.now keys.now) → (cells : CellMap) → C.tells store.old cells →
        IsBad batch.kind (cell_at cells k) }
    ensures told_before { (cells : CellMap) → C.tells store.new cells →
        (before : CellMap) × C.tells store.old before }
    ensures never_falls { C.fault_count store.old ≤ C.fault_count store.new }
{
    match commit_groups(alloc, store, batch, custom, groups) {
        Ok(()) => commit_restores(alloc, store, batch, custom, keys),
        Err(fault) => Err(fault),
    }
}
