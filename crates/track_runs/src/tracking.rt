ghost use Rattle.std.specs.Prelude.{◌≡◌, ◌≤◌, ◌<◌, ◌+◌, ◌++◌, ℕ, List, All, length, map, IfOk, OnOk};
ghost use Rattle.state_tallies.specs.Tallies.{count_of as counted};
ghost use Rattle.tracked_trees.specs.Reached.{is_good};
ghost use Rattle.tracked_trees.specs.Tries.{count_at, count_of};
ghost use Rattle.tree_model.specs.counted_items.Weights.{weigh};
ghost use Rattle.tree_model.specs.storm_values.Rows.{IsRow};
ghost use Rattle.tree_model.specs.storm_values.declared.value.Value.{Value};
ghost use Rattle.tree_model.specs.topology_plan.Wired.{width_of};
ghost use Rattle.track_runs.specs.Steps.{AddsCounts, count_up, end_from};
ghost use Rattle.track_runs.specs.Tracked.{end_of};

use crate::ends::{add_ends, merged, none_left, open_rows};
use shared_ledger::SharedLedger;
use state_tallies::Tallies;
use std::alloc::Global;
use std::thread::Threads;
use storm_ids::Ids;
use track_report::RecordEnd;
use track_window::{Window, track_window};
use tree_model::bolt_ops::RowOp;
use tree_model::storm_values::{Memory, Row};
use tree_model::topology_plan::{Origin, Plan};

/// What records are tracked with.
#[derive(Drop)]
pub(crate) struct Tracking<'a, R, O> {
    pub(crate) rt: &'a R,
    pub(crate) alloc: Global,
    pub(crate) plan: &'a Plan,
    pub(crate) custom: &'a O,
    pub(crate) workers: u32,
    ghost staffed: { (1 ≤ workers) × (workers ≤ 64) },
}

impl<R: Threads + Sync, O: RowOp> Tracking<'_, R, O> {
    /// Tracks the records of a window to their ends, and adds these.
    pub(crate) fn track_some<N: Ids>(
        &self,
        rows: Vec<Row>,
        ends: &mut Vec<RecordEnd>,
        tallies: &mut Tallies,
        ids: &mut N,
    ) -> Result<(), Memory>
        requires few { length rows.items ≤ 1024 }
        requires rows { All (IsRow (width_of self.now.plan.now Origin.Spout)) rows.items }
        requires tallies { length tallies.old ≡ length self.now.plan.now.components }
        ensures length { length tallies.new ≡ length tallies.old }
        ensures ends { OnOk result (ends.new.items ≡ ends.old.items
            ++ map (end_of self.now.plan.now (O.meaning self.now.custom.now)
            self.now.plan.now.attempts) rows.items) }
        ensures counts { OnOk result (AddsCounts tallies.old tallies.new (λ state key.
            weigh (count_of self.now.plan.now (O.meaning self.now.custom.now) state key
            self.now.plan.now.attempts) rows.items)) }
    {
        self.plan.facts();
        let made = self.tries(rows, 0, self.plan.attempts(), tallies, ids)?;
        add_ends(ends, made.as_slice())
    }

    /// Tries records that have been tried so often, at most so many times more. Each call of it has
    /// the records that are left.
    fn tries<N: Ids>(
        &self,
        rows: Vec<Row>,
        before: u32,
        more: u32,
        tallies: &mut Tallies,
        ids: &mut N,
    ) -> Result<Vec<RecordEnd>, Memory>
        requires few { length rows.items ≤ 1024 }
        requires rows { All (IsRow (width_of self.now.plan.now Origin.Spout)) rows.items }
        requires attempts { before + more ≤ 100 }
        requires tallies { length tallies.old ≡ length self.now.plan.now.components }
        ensures length { length tallies.new ≡ length tallies.old }
        ensures ends { IfOk result (λ ends. ends.items
            ≡ map (end_from self.now.plan.now (O.meaning self.now.custom.now) before more)
            rows.items) }
        ensures counts { OnOk result (AddsCounts tallies.old tallies.new (λ state key.
            weigh (count_up self.now.plan.now (O.meaning self.now.custom.now) state key before more)
            rows.items)) }
    {
        tallies.facts();
        if more == 0 {
            return none_left(self.alloc, rows.len(), before);
        }
        if rows.is_empty() {
            return Ok(Vec::new(self.alloc));
        }
        let attempt = before + 1;
        let acked = self.try_once(rows.as_slice(), attempt, tallies, ids)?;
        let left = open_rows(self.alloc, rows, acked.as_slice())?;
        let later = self.tries(left, attempt, more - 1, tallies, ids)?;
        merged(self.alloc, acked.as_slice(), attempt, later.as_slice())
    }

    /// An attempt at records, with a ledger of its own. It adds what was reached, and tells which of
    /// them were acked.
    fn try_once<N: Ids>(
        &self,
        rows: &[Row],
        attempt: u32,
        tallies: &mut Tallies,
        ids: &mut N,
    ) -> Result<Vec<bool>, Memory>
        requires some { 1 ≤ length rows.now }
        requires few { length rows.now ≤ 1024 }
        requires rows { All (IsRow (width_of self.now.plan.now Origin.Spout)) rows.now }
        requires tallies { length tallies.old ≡ length self.now.plan.now.components }
        ensures length { length tallies.new ≡ length tallies.old }
        ensures acked { IfOk result (λ acked. acked.items
            ≡ map (is_good self.now.plan.now (O.meaning self.now.custom.now) attempt) rows.now) }
        ensures counts { OnOk result (AddsCounts tallies.old tallies.new (λ state key.
            weigh (count_at self.now.plan.now (O.meaning self.now.custom.now) state key attempt)
            rows.now)) }
    {
        let (ledger, mut seat) = SharedLedger::new(self.alloc, rows.len() as u32)?;
        let window = track_window(
            self.rt,
            self.alloc,
            self.plan,
            rows,
            attempt,
            self.workers,
            &ledger,
            &mut seat,
            ids,
            self.custom,
        )?;
        let Window {
            acked,
            tallies: reached,
            ..
        } = window;
        tallies.add_all(reached)?;
        Ok(acked)
    }
}
