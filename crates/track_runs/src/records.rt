ghost use Rattle.std.specs.Prelude.{◌≡◌, ◌≤◌, ◌<◌, ◌++◌, ◌∷◌, ℕ, List, All, length, map, IfOk, OnOk};
ghost use Rattle.tracked_trees.specs.Tries.{count_of, tally};
ghost use Rattle.tree_model.specs.counted_items.Weights.{weigh};
ghost use Rattle.tree_model.specs.storm_values.Rows.{IsRow};
ghost use Rattle.tree_model.specs.storm_values.declared.value.Value.{Value};
ghost use Rattle.tree_model.specs.topology_plan.Wired.{width_of};
ghost use Rattle.track_runs.specs.Steps.{AddsCounts, counts_with, ends_with};
ghost use Rattle.track_runs.specs.Tracked.{AreTallies, end_of};

use crate::tracking::Tracking;
use state_tallies::{KeyCount, Tallies};
use std::alloc::Global;
use std::mem::replace;
use std::thread::Threads;
use storm_ids::Ids;
use track_report::RecordEnd;
use tree_model::bolt_ops::RowOp;
use tree_model::storm_values::{Memory, Row, Rows, Seq};
use tree_model::topology_plan::{Origin, Plan};

/// The most records that are tracked at once: as many as a ledger has roots.
const MOST_ROOTS: usize = 1024;

/// What the tracking of records came to.
#[derive(Drop)]
pub struct Tracked {
    /// How each record ended, in their order.
    pub ends: Vec<RecordEnd>,
    /// How often each key of each state was reached, by component. The keys of one stand in the
    /// order of their bytes.
    pub tallies: Seq<Seq<KeyCount>>,
}

/// Tracks all records, in windows of up to 1,024, each to the end of all its records. Each record is
/// a root of its own; what was not acked is tried again, up to the plan's number of attempts.
///
/// What it comes to is the same for every number of workers and all ids. Whether threads are made is
/// shown by no clause. Time is proportional to what is reached in all attempts, and to n log n for n
/// keys of a state. Memory is proportional to the input and the keys, and to what is reached in an
/// attempt at one window.
pub fn track_records<R: Threads + Sync, N: Ids, O: RowOp>(
    rt: &R,
    alloc: Global,
    plan: &Plan,
    rows: Rows,
    workers: u32,
    ids: &mut N,
    custom: &O,
) -> Result<Tracked, Memory>
    requires rows { All (IsRow (width_of plan.now Origin.Spout)) rows }
    requires workers { (1 ≤ workers) × (workers ≤ 64) }
    ensures ends { IfOk result (λ tracked. tracked.ends.items
        ≡ map (end_of plan.now (O.meaning custom.now) plan.now.attempts) rows) }
    ensures tallies { IfOk result (λ tracked. AreTallies plan.now (λ state key.
        tally plan.now (O.meaning custom.now) state key plan.now.attempts rows) tracked.tallies) }
{
    let tracking = Tracking {
        rt,
        alloc,
        plan,
        custom,
        workers,
    };
    let mut ends = Vec::new(alloc);
    let mut tallies = Tallies::new(alloc, plan.components())?;
    tracking.track_all(rows.into_vec(), &mut ends, &mut tallies, ids)?;
    let tallies = tallies.sorted(alloc)?;
    Ok(Tracked { ends, tallies })
}

impl<R: Threads + Sync, O: RowOp> Tracking<'_, R, O> {
    /// Tracks records window by window, and adds their ends and what was reached.
    fn track_all<N: Ids>(
        &self,
        rows: Vec<Row>,
        ends: &mut Vec<RecordEnd>,
        tallies: &mut Tallies,
        ids: &mut N,
    ) -> Result<(), Memory>
        requires rows { All (IsRow (width_of self.now.plan.now Origin.Spout)) rows.items }
        requires tallies { length tallies.old ≡ length self.now.plan.now.components }
        ensures length { length tallies.new ≡ length tallies.old }
        ensures ends { OnOk result (ends.new.items ≡ ends.old.items
            ++ map (end_of self.now.plan.now (O.meaning self.now.custom.now)
            self.now.plan.now.attempts) rows.items) }
        ensures counts { OnOk result (AddsCounts tallies.old tallies.new (λ state key.
            weigh (count_of self.now.plan.now (O.meaning self.now.custom.now) state key
            self.now.plan.now.attempts) rows.items)) }
    {
        let mut window = Vec::new(self.alloc);
        for row in rows {
            self.take_in(row, &mut window, ends, tallies, ids)?;
        }
        self.track_some(window, ends, tallies, ids)
    }

    /// Takes a record into a window, which is tracked where it is full.
    fn take_in<N: Ids>(
        &self,
        row: Row,
        window: &mut Vec<Row>,
        ends: &mut Vec<RecordEnd>,
        tallies: &mut Tallies,
        ids: &mut N,
    ) -> Result<(), Memory>
        requires few { length window.old.items < 1024 }
        requires row { IsRow (width_of self.now.plan.now Origin.Spout) row }
        requires rows { All (IsRow (width_of self.now.plan.now Origin.Spout)) window.old.items }
        requires tallies { length tallies.old ≡ length self.now.plan.now.components }
        ensures length { length tallies.new ≡ length tallies.old }
        ensures few { OnOk result (length window.new.items < 1024) }
        ensures rows { OnOk result
            (All (IsRow (width_of self.now.plan.now Origin.Spout)) window.new.items) }
        ensures ends { OnOk result ((rest : List (List Value)) →
            ends_with self.now.plan.now (O.meaning self.now.custom.now) ends.new.items
            (window.new.items ++ rest)
            ≡ ends_with self.now.plan.now (O.meaning self.now.custom.now) ends.old.items
            (window.old.items ++ row ∷ rest)) }
        ensures counts { OnOk result
            ((rest : List (List Value)) (state : ℕ) (key : List ℕ) →
            counts_with self.now.plan.now (O.meaning self.now.custom.now) tallies.new
            (window.new.items ++ rest) state key
            ≡ counts_with self.now.plan.now (O.meaning self.now.custom.now) tallies.old
            (window.old.items ++ row ∷ rest) state key) }
    {
        window.push(row)?;
        if window.len() < MOST_ROOTS {
            return Ok(());
        }
        let full = replace(window, Vec::new(self.alloc));
        self.track_some(full, ends, tallies, ids)
    }
}
