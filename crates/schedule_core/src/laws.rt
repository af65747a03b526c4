//! The laws of other crates that runs rest on, put together.
ghost use Rattle.event_worlds.specs.bolt_ops.RowOp.{Custom};
ghost use Rattle.schedule_core.specs.Laws.{CommitLaws, Laws, WorldLaws};
ghost use Rattle.event_worlds.specs.topology_plan.Topology.{Topology};
ghost use Rattle.event_worlds.specs.taken_records.Cuts.{Cut};

use batch_commits::{
    commits_of_batches_move_parts, counts_run_on, failures_of_commits_are_counted,
    next_commits_are_of_the_next_batch, strange_cells_were_there,
};
use event_worlds::commit_turns::finished_runs_are_whole;
use event_worlds::{
    ends_of_worlds_have_causes, worlds_are_accounted, worlds_with_others_are_accounted,
};
use storm_stores::CellStore;

/// A law: what a world comes to by steps, and how failures add up.
pub fn laws_of_steps<C: CellStore>()
    ensures { (t : Topology) (custom : Custom) (cut : Cut) → Laws C.fault_count t custom cut }
{
    worlds_are_accounted();
    counts_run_on::<C>();
}

/// A law: what commits make of parts and of the fates.
pub fn laws_of_commits<C: CellStore>()
    ensures { (t : Topology) (custom : Custom) (cut : Cut)
        → CommitLaws C.tells C.fault_count t custom cut }
{
    worlds_with_others_are_accounted();
    commits_of_batches_move_parts::<C>();
    next_commits_are_of_the_next_batch();
    strange_cells_were_there::<C>();
    failures_of_commits_are_counted::<C>();
    counts_run_on::<C>();
}

/// A law: where worlds and parts begin, what they come to, and the causes of ends.
pub fn laws_of_runs<C: CellStore>()
    ensures { (t : Topology) (custom : Custom) (cut : Cut)
        → WorldLaws C.tells C.fault_count t custom cut }
{
    worlds_are_accounted();
    ends_of_worlds_have_causes();
    finished_runs_are_whole();
    commits_of_batches_move_parts::<C>();
    counts_run_on::<C>();
}
