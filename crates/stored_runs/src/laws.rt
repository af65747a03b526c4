//! The laws that runs over the stores of a maker rest on.
ghost use Rattle.event_worlds.specs.bolt_ops.RowOp.{Custom};
ghost use Rattle.stored_runs.specs.Laws.{PartLaws, WorldLaws};
ghost use Rattle.event_worlds.specs.topology_plan.Topology.{Topology};
ghost use Rattle.event_worlds.specs.taken_records.Cuts.{Cut};

use batch_commits::{
    all_batches_hold_all_records, commits_of_batches_move_parts, counts_run_on,
    failures_of_commits_are_counted, parts_that_stand_have_the_tables, strange_cells_were_there,
};
use event_worlds::commit_turns::finished_runs_are_whole;
use event_worlds::worlds_are_accounted;
use storm_stores::CellStore;
use world_progress::{
    enough_rounds_finish, lasting_worlds_go_on, no_attempt_aborts_with_partitions,
};

/// A law: what runs over the stores of a maker rest on, of worlds and of parts.
pub fn laws_of_runs<C: CellStore>()
    ensures worlds { (t : Topology) (custom : Custom) (cut : Cut) → WorldLaws t custom cut }
    ensures parts { (t : Topology) (custom : Custom) (cut : Cut)
        → PartLaws C.tells C.fault_count t custom cut }
{
    worlds_are_accounted();
    finished_runs_are_whole();
    lasting_worlds_go_on();
    no_attempt_aborts_with_partitions();
    enough_rounds_finish();
    all_batches_hold_all_records();
    failures_of_commits_are_counted::<C>();
    counts_run_on::<C>();
    commits_of_batches_move_parts::<C>();
    parts_that_stand_have_the_tables::<C>();
    strange_cells_were_there::<C>();
}
