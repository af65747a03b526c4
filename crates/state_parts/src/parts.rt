ghost use Rattle.std.specs.Prelude.{◌≡◌, ◌≤◌, ◌⊎◌, ℕ, List, All, Ok, Err, IfOk, OnOk, OnErr, IsErrOf};
ghost use Rattle.std.specs.List.{AllZip};
ghost use Rattle.tree_model.specs.storm_values.Counts.{raised_by};
ghost use Rattle.storm_stores.specs.CellMaps.{CellMap, cell_at};
ghost use Rattle.tree_model.specs.Tables.{StateOf, states_of};
ghost use Rattle.tree_model.specs.bolt_ops.RowOp.{Custom};
ghost use Rattle.tree_model.specs.declared.write.Table.{Table};
ghost use Rattle.state_parts.specs.Commits.{AreCommitted, ArePerhapsCommitted, Comes, CountsFollow, FailOnceAtMost, IsBadAt, IsFailedPart, NoCountFell, SameCounts};
ghost use Rattle.state_parts.specs.Makers.{AreMade, Began, CameBack, HasNotFailed, OnlyMade, RoseBySum, faults_of};
ghost use Rattle.state_parts.specs.Migrate.{AreKept, AreMigrated, IsBrokenOff, StopAt, StopsBefore, old_sum};
ghost use Rattle.state_parts.specs.PartPlans.{AreParts, IsOneOf, plans_of};
ghost use Rattle.state_parts.specs.PartTables.{AreRead, IsBadRowAt, IsTableOver, OneRaised, Tell};

use crate::answer::{Commit, CommitFault, CommitOutcome};
use crate::beside::commit_parts_beside;
use crate::commit::commit_parts;
use crate::give::give_all;
use crate::make::add_states;
use crate::migrate::migrate_parts;
use crate::tables::tables_of;
use state_cells::{Part, PartFault};
use std::alloc::Global;
use std::marker::{Model, Send, Sync};
use std::thread::Threads;
use storm_stores::{CellStore, StoreMaker};
use tree_model::Tables;
use tree_model::bolt_ops::RowOp;
use tree_model::storm_values::Memory;
use tree_model::topology_plan::Plan;

// With fewer writes than these a thread costs more than it saves.
const FEW_WRITES: usize = 2048;

/// A part of a state over its store, by the state's component number and its own.
#[derive(Drop)]
pub(crate) struct StatePart<C: CellStore> {
    pub component: u32,
    pub part: u32,
    pub over: Part<C>,
}

/// The parts of all states of a topology, in the order of the states and of the parts.
#[derive(Drop)]
pub struct Parts<C: CellStore> {
    parts: Vec<StatePart<C>>,
    /// The place of the first part of each component, or where it would stand.
    firsts: Vec<usize>,
    alloc: Global,
}

impl<C: CellStore> Model for Parts<C> {
    ghost use Rattle.std.specs.Prelude.{List};
    ghost use Rattle.state_parts.specs.declared.parts.StatePart.{StatePart};
    ghost use Rattle.state_parts.specs.PartPlans.{AreApart, AreIndexed, plans_of};

    ghost Value = { List (StatePart C) };

    ghost view = { λ p. p.parts.items };

    ghost invariant = { λ p. AreIndexed p.firsts.items 0 (plans_of p.parts.items) };
}

impl<C: CellStore> Parts<C> {
    /// The parts of the plan's states, each over the store that the maker makes for it. Without
    /// memory the stores that were made are given back.
    pub fn make<M: StoreMaker<C = C>>(
        alloc: Global,
        plan: &Plan,
        stores: &mut M,
    ) -> Result<Self, Memory>
        ensures parts { IfOk result (AreParts plan.now) }
        ensures began { IfOk result (All (Began C.tells M.holds stores.old)) }
        ensures no_fault { IfOk result (All (HasNotFailed C.fault_count)) }
        ensures made { IfOk result (λ parts. AreMade M.has_made stores.new (plans_of parts)) }
        ensures only_made { IfOk result (OnlyMade M.has_made stores.old stores.new) }
        ensures others { IfOk result (λ parts. (c p : ℕ) (cells : CellMap) →
            (IsOneOf (plans_of parts) c p → ⊥) →
            M.holds stores.old c p cells → M.holds stores.new c p cells) }
        ensures not_made { OnErr result ((c p : ℕ) (cells : CellMap) →
            M.holds stores.old c p cells → M.holds stores.new c p cells) }
        ensures stays_made { (c p : ℕ) → M.has_made stores.old c p → M.has_made stores.new c p }
        ensures same_count { M.fault_count stores.new ≡ M.fault_count stores.old }
    {
        let mut parts = Vec::new(alloc);
        let mut firsts = Vec::new(alloc);
        match add_states(alloc, &mut parts, &mut firsts, plan, stores) {
            Ok(()) => {}
            Err(fault) => {
                give_all(parts, stores);
                return Err(fault);
            }
        }
        Ok(Parts {
            parts,
            firsts,
            alloc,
        })
    }

    /// Commits a batch: tries every part, one after another, each with its writes of the batch or
    /// none, in time linear in the writes and the parts beside what the parts take. Want of memory
    /// goes before a bad cell, a bad cell before a failed store; of parts the first is told. After
    /// any fault each key of each part has its old cell or the commit's.
    pub fn commit_all<O: RowOp>(
        &mut self,
        commit: &Commit,
        custom: &O,
    ) -> Result<CommitOutcome, CommitFault>
        ensures plans { plans_of self.new ≡ plans_of self.old }
        ensures comes { (result ≡ Err CommitFault.Memory → ⊥) →
            Comes C.tells (O.meaning custom.now) C.fault_count commit.now.root commit.now.writes
            self.old self.new result }
        ensures done { result ≡ Ok CommitOutcome.Done →
            AreCommitted C.tells (O.meaning custom.now) commit.now.root commit.now.writes
            self.old self.new }
        ensures kept { ArePerhapsCommitted C.tells (O.meaning custom.now)
            commit.now.root commit.now.writes self.old self.new }
        ensures failed { (component part before after : ℕ) →
            result ≡ Ok (CommitOutcome.Failed component part before after) →
            IsFailedPart C.fault_count self.old self.new component part before after }
        ensures bad { (key : List ℕ) → result ≡ Err (CommitFault.BadCell key) →
            IsBadAt C.tells self.old key }
        ensures never_falls { NoCountFell C.fault_count self.old self.new }
        ensures counted { (how : CommitOutcome) → result ≡ Ok how →
            CountsFollow C.fault_count how self.old self.new }
        ensures at_most_once { FailOnceAtMost C.fault_count self.old self.new }
    {
        commit_parts(self.alloc, &self.firsts, &mut self.parts, commit, custom)
    }

    /// The tables of the plan's states, in order: of each state the keys with a value in one of its
    /// parts, with one look at each key.
    pub fn tables(&mut self, plan: &Plan) -> Result<Tables, PartFault>
        ensures tables { IfOk result
            (λ tables. (custom : Custom) →
            AllZip (IsTableOver C.tells self.old) (states_of plan.now custom) tables) }
        ensures plans { plans_of self.new ≡ plans_of self.old }
        ensures read { AreRead C.tells C.fault_count self.old self.new }
        ensures failed { IsErrOf result PartFault.Store →
            OneRaised C.fault_count self.old self.new }
        ensures quiet { (IsErrOf result PartFault.Store → ⊥) →
            SameCounts C.fault_count self.old self.new }
        ensures bad { (key : List ℕ) → IsErrOf result (PartFault.BadCell key) →
            IsBadRowAt C.tells self.old key }
    {
        tables_of(self.alloc, &mut self.parts, plan)
    }

    /// Brings the cells of all parts to format 2, one part after another, and answers how many were
    /// of format 1, up to 2^64 - 1. It stops at the first fault, of those of `tables`: of that part
    /// the first keys may be done, and the parts behind it are untouched. Each key has the same
    /// cell after any answer.
    pub fn migrate(&mut self) -> Result<u64, PartFault>
        ensures counted { IfOk result (λ count. (maps : List CellMap) →
            Tell C.tells self.old maps → count ≡ old_sum maps) }
        ensures done { OnOk result (AreMigrated C.tells C.fault_count self.old self.new) }
        ensures broken { OnErr result (StopAt C.tells C.fault_count
            (IsBrokenOff C.tells C.fault_count) self.old self.new) }
        ensures stopped { (key : List ℕ) → IsErrOf result (PartFault.BadCell key) →
            StopAt C.tells C.fault_count (StopsBefore C.tells key) self.old self.new }
        ensures kept { AreKept C.tells C.fault_count self.old self.new }
        ensures plans { plans_of self.new ≡ plans_of self.old }
        ensures tables { (state : StateOf) (table : Table) →
            IsTableOver C.tells self.new state table → IsTableOver C.tells self.old state table }
        ensures failed { IsErrOf result PartFault.Store →
            OneRaised C.fault_count self.old self.new }
        ensures quiet { (IsErrOf result PartFault.Store → ⊥) →
            SameCounts C.fault_count self.old self.new }
        ensures bad { (key : List ℕ) → IsErrOf result (PartFault.BadCell key) →
            IsBadRowAt C.tells self.old key }
    {
        migrate_parts(&mut self.parts)
    }

    /// Gives every store back to the maker, which takes no memory.
    pub fn give_back<M: StoreMaker<C = C>>(self, stores: &mut M)
        requires { AreMade M.has_made stores.old (plans_of self) }
        ensures back { All (CameBack C.tells M.holds stores.new) self }
        ensures others { (c p : ℕ) (cells : CellMap) → (IsOneOf (plans_of self) c p → ⊥) →
            M.holds stores.old c p cells → M.holds stores.new c p cells }
        ensures stays_made { (c p : ℕ) → M.has_made stores.old c p → M.has_made stores.new c p }
        ensures made_before { (c p : ℕ) → M.has_made stores.new c p → M.has_made stores.old c p }
        ensures rose { RoseBySum (faults_of C.fault_count self)
            (M.fault_count stores.old) (M.fault_count stores.new) }
        ensures count { M.fault_count stores.new
            ≡ raised_by (M.fault_count stores.old) (faults_of C.fault_count self) }
        ensures never_falls { M.fault_count stores.old ≤ M.fault_count stores.new }
        ensures same_count { faults_of C.fault_count self ≡ 0 →
            M.fault_count stores.new ≡ M.fault_count stores.old }
    {
        give_all(self.parts, stores);
    }
}

impl<C: CellStore + Send> Parts<C> {
    /// Commits a batch as `commit_all` does, with runs of the parts side by side, in so many
    /// threads at most, of which the caller's is one. With few writes, or no two threads, the parts
    /// are tried one after another. The answer is by the order of the parts, whichever ends first.
    pub fn commit_beside<R: Threads + Sync, O: RowOp>(
        &mut self,
        rt: &R,
        threads: usize,
        commit: &Commit,
        custom: &O,
    ) -> Result<CommitOutcome, CommitFault>
        ensures plans { plans_of self.new ≡ plans_of self.old }
        ensures comes { (result ≡ Err CommitFault.Memory → ⊥) →
            Comes C.tells (O.meaning custom.now) C.fault_count commit.now.root commit.now.writes
            self.old self.new result }
        ensures done { result ≡ Ok CommitOutcome.Done →
            AreCommitted C.tells (O.meaning custom.now) commit.now.root commit.now.writes
            self.old self.new }
        ensures kept { ArePerhapsCommitted C.tells (O.meaning custom.now)
            commit.now.root commit.now.writes self.old self.new }
        ensures failed { (component part before after : ℕ) →
            result ≡ Ok (CommitOutcome.Failed component part before after) →
            IsFailedPart C.fault_count self.old self.new component part before after }
        ensures bad { (key : List ℕ) → result ≡ Err (CommitFault.BadCell key) →
            IsBadAt C.tells self.old key }
        ensures never_falls { NoCountFell C.fault_count self.old self.new }
        ensures counted { (how : CommitOutcome) → result ≡ Ok how →
            CountsFollow C.fault_count how self.old self.new }
        ensures at_most_once { FailOnceAtMost C.fault_count self.old self.new }
    {
        let few = commit.writes.len() < FEW_WRITES;
        let threads = if few { 1 } else { threads };
        commit_parts_beside(
            rt,
            threads,
            self.alloc,
            &self.firsts,
            &mut self.parts,
            commit,
            custom,
        )
    }
}
