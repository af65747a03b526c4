ghost use Rattle.std.specs.Prelude.{◌≡◌, ◌≤◌, ℕ, List, IfOk, IfSome, OnOk, OnErr, IsErrOf};
ghost use Rattle.tree_model.specs.storm_values.Counts.{raised};
ghost use Rattle.tree_model.specs.Tables.{folded};
ghost use Rattle.storm_stores.specs.CellMaps.{CellMap, cell_at};
ghost use Rattle.cell_format.specs.Commits.{IsDone, IsPerhapsDone};
ghost use Rattle.state_cells.specs.Groups.{amounts_in, amounts_of, jobs_in};
ghost use Rattle.state_cells.specs.Known.{Knows};
ghost use Rattle.state_cells.specs.Migrate.{IsSameCell, MigratesBefore, MigratesSome, all_migrated, old_count};
ghost use Rattle.state_cells.specs.PartStates.{part_of};
ghost use Rattle.state_cells.specs.Rows.{IsBadRow, rows_of};
ghost use Rattle.state_cells.specs.Scans.{AreGood};
ghost use Rattle.state_cells.specs.Turns.{AreApart, IsBad, Turns};

use crate::commit::{Batch, commit_jobs};
use crate::fault::PartFault;
use crate::group::{GroupedWrites, Groups};
use crate::known::{Known, known_after};
use crate::migrate::migrate;
use crate::plan::plan;
use crate::table::table;
use std::alloc::Global;
use std::marker::Model;
use storm_stores::CellStore;
use tree_model::Pairs;
use tree_model::bolt_ops::RowOp;
use tree_model::storm_values::Root;
use tree_model::topology_plan::{Fold, Kind};

/// A part of a state: its cells lie in a store that may refuse.
#[derive(Drop)]
pub struct Part<C: CellStore> {
    store: C,
    kind: Kind,
    by: Fold,
    /// What an opaque part knows of its store since it looked at each key.
    known: Option<Known>,
    alloc: Global,
}

impl<C: CellStore> Model for Part<C> {
    ghost use Rattle.std.specs.Prelude.{IfSome};
    ghost use Rattle.state_cells.specs.Known.{Knows};
    ghost use Rattle.state_cells.specs.PartStates.{PartState};

    ghost Value = { PartState C };

    ghost view = { λ p. record { store = p.store; kind = p.kind; by = p.by } };

    ghost invariant = { λ p. IfSome p.known (Knows C.tells p.store) };
}

impl<C: CellStore> Part<C> {
    /// A part over a store, which takes no memory.
    pub fn new(alloc: Global, store: C, kind: Kind, fold: Fold) -> Self
        ensures { result ≡ part_of store kind fold }
    {
        Part {
            store,
            kind,
            by: fold,
            known: None,
            alloc,
        }
    }

    /// The part's store, which takes no memory.
    pub fn into_store(self) -> C
        ensures { result ≡ self.store }
    {
        self.store
    }

    /// How often the store has failed.
    pub fn faults(&self) -> u64
        ensures { result ≡ C.fault_count self.now.store }
    {
        self.store.faults()
    }

    /// Commits the part's writes of a batch, with a get and a put at most for each key that is
    /// written. An opaque part gives each other key with a cell of the transaction its value before
    /// back, with a get and a put too; it looks at each key of its store at its first commit, and
    /// once more at each commit of an older transaction than the one before and at the one after
    /// that. After a fault some keys may be done and the others are as before.
    pub fn commit<O: RowOp>(
        &mut self,
        root: Root,
        writes: &GroupedWrites<'_>,
        custom: &O,
    ) -> Result<(), PartFault>
        ensures ok { let by = folded (O.meaning custom.now) self.old.by in
            OnOk result (Turns C.tells (λ key. IsDone self.old.kind by root
            (amounts_of writes.now key)) self.old.store self.new.store) }
        ensures err { let by = folded (O.meaning custom.now) self.old.by in
            OnErr result (Turns C.tells (λ key. IsPerhapsDone self.old.kind by root
            (amounts_of writes.now key)) self.old.store self.new.store) }
        ensures failed { IsErrOf result PartFault.Store →
            C.fault_count self.new.store ≡ raised (C.fault_count self.old.store) }
        ensures quiet { (IsErrOf result PartFault.Store → ⊥) →
            C.fault_count self.new.store ≡ C.fault_count self.old.store }
        ensures bad { (k : List ℕ) → IsErrOf result (PartFault.BadCell k) → (cells : CellMap) →
            C.tells self.old.store cells → IsBad self.old.kind (cell_at cells k) }
        ensures never_falls { C.fault_count self.old.store ≤ C.fault_count self.new.store }
        ensures kind { self.new.kind ≡ self.old.kind }
        ensures fold { self.new.by ≡ self.old.by }
    {
        let batch = Batch {
            kind: self.kind,
            by: self.by,
            root,
        };
        let groups = writes.groups();
        commit_batch(
            self.alloc,
            &mut self.store,
            &mut self.known,
            batch,
            custom,
            groups,
        )
    }

    /// The keys with a value, in order, with one look at each key.
    pub fn table(&mut self) -> Result<Pairs, PartFault>
        ensures rows { IfOk result (λ pairs. (cells : CellMap) → C.tells self.old.store cells →
            pairs ≡ rows_of cells) }
        ensures good { OnOk result ((cells : CellMap) → C.tells self.old.store cells →
            AreGood self.old.kind cells) }
        ensures same { (cells : CellMap) → C.tells self.old.store cells →
            C.tells self.new.store cells }
        ensures failed { IsErrOf result PartFault.Store →
            C.fault_count self.new.store ≡ raised (C.fault_count self.old.store) }
        ensures quiet { (IsErrOf result PartFault.Store → ⊥) →
            C.fault_count self.new.store ≡ C.fault_count self.old.store }
        ensures bad { (k : List ℕ) → IsErrOf result (PartFault.BadCell k) → (cells : CellMap) →
            C.tells self.old.store cells → IsBadRow self.old.kind k (cell_at cells k) }
        ensures never_falls { C.fault_count self.old.store ≤ C.fault_count self.new.store }
        ensures kind { self.new.kind ≡ self.old.kind }
        ensures fold { self.new.by ≡ self.old.by }
    {
        table(self.alloc, &mut self.store, self.kind)
    }

    /// Brings each cell of format 1 to format 2, in the order of keys, and answers how many they
    /// were: one look at each key, and one put for each that is brought. Bytes of format 2 stay as
    /// they are, and what `table` refuses is refused. After a fault the first keys are done and the
    /// others as before; each cell, and so the table, is the same after any answer.
    pub fn migrate(&mut self) -> Result<u64, PartFault>
        ensures counted { IfOk result (λ count. (cells : CellMap) → C.tells self.old.store cells →
            count ≡ old_count cells) }
        ensures done { OnOk result ((cells : CellMap) → C.tells self.old.store cells →
            C.tells self.new.store (all_migrated cells)) }
        ensures none_left { OnOk result ((cells : CellMap) → C.tells self.new.store cells →
            old_count cells ≡ 0) }
        ensures good { OnOk result ((cells : CellMap) → C.tells self.old.store cells →
            AreGood self.old.kind cells) }
        ensures none_bad { OnOk result ((cells : CellMap) → C.tells self.old.store cells →
            (k : List ℕ) → IsBadRow self.old.kind k (cell_at cells k) → ⊥) }
        ensures reached { (cells : CellMap) → C.tells self.old.store cells →
            MigratesSome C.tells self.old.kind cells self.new.store }
        ensures stopped { (k : List ℕ) → IsErrOf result (PartFault.BadCell k) →
            (cells : CellMap) → C.tells self.old.store cells →
            MigratesBefore C.tells self.old.kind k cells self.new.store }
        ensures same { Turns C.tells IsSameCell self.old.store self.new.store }
        ensures rows { (old new : CellMap) → C.tells self.old.store old →
            C.tells self.new.store new → rows_of new ≡ rows_of old }
        ensures failed { IsErrOf result PartFault.Store →
            C.fault_count self.new.store ≡ raised (C.fault_count self.old.store) }
        ensures quiet { (IsErrOf result PartFault.Store → ⊥) →
            C.fault_count self.new.store ≡ C.fault_count self.old.store }
        ensures bad { (k : List ℕ) → IsErrOf result (PartFault.BadCell k) → (cells : CellMap) →
            C.tells self.old.store cells → IsBadRow self.old.kind k (cell_at cells k) }
        ensures never_falls { C.fault_count self.old.store ≤ C.fault_count self.new.store }
        ensures kind { self.new.kind ≡ self.old.kind }
        ensures fold { self.new.by ≡ self.old.by }
    {
        migrate(self.alloc, &mut self.store, self.kind)
    }
}

fn commit_batch<C: CellStore, O: RowOp>(
    alloc: Global,
    store: &mut C,
    known: &mut Option<Known>,
    batch: Batch,
    custom: &O,
    groups: &Groups<'_>,
) -> Result<(), PartFault>
    requires known { IfSome known.old (Knows C.tells store.old) }
    requires apart { AreApart (jobs_in groups.now) }
    ensures known { IfSome known.new (Knows C.tells store.new) }
    ensures ok { let by = folded (O.meaning custom.now) batch.by in
        OnOk result (Turns C.tells (λ key. IsDone batch.kind by batch.root
        (amounts_in groups.now key)) store.old store.new) }
    ensures err { let by = folded (O.meaning custom.now) batch.by in
        OnErr result (Turns C.tells (λ key. IsPerhapsDone batch.kind by batch.root
        (amounts_in groups.now key)) store.old store.new) }
    ensures failed { IsErrOf result PartFault.Store →
        C.fault_count store.new ≡ raised (C.fault_count store.old) }
    ensures quiet { (IsErrOf result PartFault.Store → ⊥) →
        C.fault_count store.new ≡ C.fault_count store.old }
    ensures bad { (k : List ℕ) → IsErrOf result (PartFault.BadCell k) → (cells : CellMap) →
        C.tells store.old cells → IsBad batch.kind (cell_at cells k) }
    ensures never_falls { C.fault_count store.old ≤ C.fault_count store.new }
{
    let work = match plan(alloc, store, known.take(), batch, groups) {
        Ok(work) => work,
        Err(fault) => return Err(fault),
    };
    let done = commit_jobs(alloc, store, batch, custom, groups, &work.restores);
    *known = known_after(alloc, batch, groups, work);
    done
}
