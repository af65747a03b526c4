ghost use Rattle.std.specs.Prelude.{◌≡◌, ◌≤◌, []};
ghost use Rattle.event_worlds.specs.storm_values.Limits.{most_workers};
ghost use Rattle.storm_answers.specs.Ends.{Counts, Ends, IsAnswered, IsDoneOrShort};
ghost use Rattle.storm_answers.specs.Outside.{run_use, shelf_use, sink_use, ticks_use};
ghost use Rattle.storm_answers.specs.stored_runs.Makers.{maker_use};
ghost use Rattle.storm_resume.specs.Keeping.{keeper_use};
ghost use Rattle.storm_resume.specs.Resume.{ResumeCalls, ResumeComes, ResumeMustFinish};

use crate::going_on::resume_files;
use event_worlds::attempt_fates::Fates;
use event_worlds::bolt_ops::RowOp;
use event_worlds::storm_ids::IdMaker;
use kept_commits::KeptCommits;
use resume_meta::{Keeper, metas_have_texts_of_their_own};
use std::alloc::Global;
use std::sync::Wait;
use std::thread::Threads;
use storm_answers::{Status, write_answer};
use storm_avail::Avail;
use storm_gates::Gate;
use storm_outside::{Shelf, Sink};
use storm_stores::StoreMaker;
use storm_ticks::Ticks;

/// Goes on with the run of a topology over the records of an input, where an earlier one stopped,
/// and writes the report of what was left.
///
/// The keeper holds what the earlier runs have committed: the last transaction, the number of
/// records, and which of them are gone; where it holds nothing the run begins with the first. Cells
/// of format 1 are brought to format 2 before an attempt is begun. After each commit the keeper
/// holds the meta of all that is committed. What it costs beside `run`: one look at each key at the
/// start, and a text of the gone records after each commit; without partitions that is one span.
///
/// That topology and records are those of the earlier runs is on whoever calls: only the number of
/// the records and the kept spans are compared.
pub fn storm_resume<
    R: Threads + Wait + Sync,
    H: Shelf,
    K: Sink,
    T: Ticks,
    V: Avail,
    M: StoreMaker,
    N: IdMaker,
    O: RowOp,
    G: Gate,
    P: Keeper,
>(
    rt: &R,
    alloc: Global,
    topology: &str,
    input: &str,
    workers: u32,
    shelf: &mut H,
    out: &mut K,
    ticks: &mut T,
    avail: &mut V,
    stores: &mut M,
    ids: &mut N,
    custom: &O,
    gate: &G,
    keeper: &mut KeptCommits<P>,
    fates: &mut Fates,
) -> Status
where
    N::I: Send,
    M::C: Send,
    requires workers { (1 ≤ workers) × (workers ≤ most_workers) }
    requires no_fates { fates.old ≡ [] }

    // With status 0 the printed tables are those of one machine that takes the records of the
    // batches up to the start and then those committed now, every record stands in exactly one of
    // all these batches, and the keeper holds the meta of all records. After each other status but
    // want of memory and a bad cell the stores stand at what the keeper holds.
    ensures ends { Ends
        (ResumeComes (O.meaning custom.now)
        (shelf_use H.holds H.ready H.fetches H.faults shelf.old shelf.new)
        (run_use
        (maker_use M.C.tells M.C.fault_count M.holds M.has_made M.fault_count
        stores.old stores.new) (N.tells ids.old))
        (keeper_use P.holds P.fault_count keeper.old.keeper keeper.new.keeper)
        (ticks_use T.handed_out T.tells ticks.old ticks.new)
        topology.now input.now fates.new)
        (sink_use K.taken K.faults out.old out.new) result }
    ensures answered { IsAnswered
        (ResumeCalls (H.holds shelf.old)
        (keeper_use P.holds P.fault_count keeper.old.keeper keeper.new.keeper)
        topology.now input.now)
        (shelf_use H.holds H.ready H.fetches H.faults shelf.old shelf.new)
        (sink_use K.taken K.faults out.old out.new) result }

    // Where few ticks are to come and no partition is shut every record is committed, where nothing
    // is in the way and the keeper does not fail.
    ensures finishes { ResumeMustFinish (O.meaning custom.now)
        (shelf_use H.holds H.ready H.fetches H.faults shelf.old shelf.new)
        (sink_use K.taken K.faults out.old out.new)
        (run_use
        (maker_use M.C.tells M.C.fault_count M.holds M.has_made M.fault_count
        stores.old stores.new) (N.tells ids.old))
        (keeper_use P.holds P.fault_count keeper.old.keeper keeper.new.keeper)
        (ticks_use T.handed_out T.tells ticks.old ticks.new) (V.tells avail.old)
        topology.now input.now fates.new → IsDoneOrShort result }
    ensures counts { Counts
        (shelf_use H.holds H.ready H.fetches H.faults shelf.old shelf.new)
        (sink_use K.taken K.faults out.old out.new)
        (maker_use M.C.tells M.C.fault_count M.holds M.has_made M.fault_count
        stores.old stores.new) }
    ensures keep_faults { P.fault_count keeper.old.keeper ≤ P.fault_count keeper.new.keeper }
{
    // a law: a meta is told by its text
    metas_have_texts_of_their_own();
    let came = resume_files(
        rt, alloc, topology, input, workers, shelf, ticks, avail, stores, ids, custom, gate,
        keeper, fates,
    );
    write_answer(came, out)
}
