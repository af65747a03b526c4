//! The laws of other crates that rounds rest on, put together.
ghost use Rattle.event_worlds.specs.bolt_ops.RowOp.{Custom};
ghost use Rattle.event_worlds.specs.topology_plan.Topology.{Topology};
ghost use Rattle.event_worlds.specs.taken_records.Cuts.{Cut};
ghost use Rattle.worker_rounds.specs.Laws.{RoundLaws};

use event_worlds::steps_add_to_histories;
use worker_stretches::box_account::complete_verdicts_are_heard;
use worker_stretches::world_progress::{lasting_worlds_go_on, rounds_do_something};

/// A law: what steps and rounds come to where nothing waits beside a world.
pub(crate) fn laws_of_rounds()
    ensures { (t : Topology) (custom : Custom) (cut : Cut) → RoundLaws t custom cut }
{
    steps_add_to_histories();
    complete_verdicts_are_heard();
    lasting_worlds_go_on();
    rounds_do_something();
}
