//! The laws of other crates that a run of workers rests on, put together.
ghost use Rattle.event_worlds.specs.bolt_ops.RowOp.{Custom};
ghost use Rattle.event_worlds.specs.topology_plan.Topology.{Topology};
ghost use Rattle.event_worlds.specs.taken_records.Cuts.{Cut};
ghost use Rattle.worker_runs.specs.Laws.{RunLaws};

use worker_stretches::box_account::{
    boxes_tell_of_ends, complete_verdicts_are_heard, rows_took_true,
};
use worker_stretches::world_progress::{
    lasting_worlds_go_on, no_attempt_aborts_with_partitions, what_is_over_is_finished,
};

/// A law: how a run of workers begins, what is finished, what aborts, and what boxes tell at its
/// end.
pub(crate) fn laws_of_workers()
    ensures { (t : Topology) (custom : Custom) (cut : Cut) → RunLaws t custom cut }
{
    lasting_worlds_go_on();
    complete_verdicts_are_heard();
    what_is_over_is_finished();
    no_attempt_aborts_with_partitions();
    boxes_tell_of_ends();
    rows_took_true();
}
