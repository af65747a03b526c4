ghost use Rattle.std.specs.Prelude.{◌≡◌, ◌≤◌, ◌<◌, [], map, string_bytes};
ghost use Rattle.event_worlds.specs.storm_values.Limits.{most_workers};
ghost use Rattle.storm_program.specs.Check.{CheckComes, CheckCalls};
ghost use Rattle.storm_resume.specs.storm_answers.Ends.{Ends, IsAnswered, Counts, FilesCounts, IsDoneOrShort};
ghost use Rattle.storm_program.specs.Load.{LoadCalls, LoadComes, LoadMustFinish};
ghost use Rattle.storm_resume.specs.storm_answers.Outside.{run_use, shelf_use, sink_use, ticks_use};
ghost use Rattle.storm_program.specs.Plain.{PlainComes, PlainCalls};
ghost use Rattle.storm_program.specs.Replay.{ReplayComes, ReplayCalls, ReplayMustFinish};
ghost use Rattle.storm_program.specs.Run.{RunComes, RunCalls, MustFinish};
ghost use Rattle.storm_program.specs.Storm.{promise};
ghost use Rattle.storm_program.specs.Track.{TrackCalls, TrackComes};
ghost use Rattle.storm_words.specs.Words.{command};
ghost use Rattle.storm_resume.specs.stored_runs.Makers.{maker_use};

use crate::check::check_file;
use crate::fold::storm_fold;
use crate::load::load_records_of;
use crate::plain::plain_files;
use crate::replay::replay_files;
use crate::run::run_files;
use crate::track::track_files;
use event_worlds::attempt_fates::Fates;
use event_worlds::bolt_ops::RowOp;
use event_worlds::storm_ids::IdMaker;
use std::alloc::Global;
use std::sync::Wait;
use std::thread::Threads;
use storm_avail::Avail;
use storm_gates::Gate;
use storm_outside::{Shelf, Sink};
use storm_resume::storm_answers::{Status, write_answer, write_text};
use storm_stores::StoreMaker;
use storm_ticks::Ticks;
use storm_words::{Command, USAGE, read_words};

/// Carries out the command that the words after the program's name give.
///
/// The words are those of `check`, `plain`, `replay`, `run`, `load`, `track` and `fold`; all others
/// get the usage line. Bolts with the operation `custom`, and states with the fold `custom`, do
/// what is handed in. Stores are made by `stores` and given back, ids come of sources that `ids`
/// makes, ticks of `ticks`, and which partitions of a run are shut of `avail`. A run of two workers
/// or more passes `gate` before each execution.
pub fn storm<
    R: Threads + Wait + Sync,
    H: Shelf,
    K: Sink,
    T: Ticks,
    V: Avail,
    M: StoreMaker,
    N: IdMaker,
    O: RowOp,
    G: Gate,
>(
    rt: &R,
    alloc: Global,
    words: &[String],
    shelf: &mut H,
    out: &mut K,
    ticks: &mut T,
    avail: &mut V,
    stores: &mut M,
    ids: &mut N,
    custom: &O,
    gate: &G,
    fates: &mut Fates,
) -> Status
where
    N::I: Send,
    M::C: Send,
    requires { fates.old ≡ [] }

    // What was written, fetched and run is what the command of the words comes to with this status.
    ensures ends { Ends
        (promise (O.meaning custom.now)
        (shelf_use H.holds H.ready H.fetches H.faults shelf.old shelf.new)
        (sink_use K.taken K.faults out.old out.new)
        (run_use
        (maker_use M.C.tells M.C.fault_count M.holds M.has_made M.fault_count
        stores.old stores.new) (N.tells ids.old))
        (ticks_use T.handed_out T.tells ticks.old ticks.new) (V.tells avail.old) fates.new
        (command (map string_bytes words.now))).comes
        (sink_use K.taken K.faults out.old out.new) result }

    // What the words and the told files call for is answered, or something takes its place.
    ensures answered { IsAnswered
        (promise (O.meaning custom.now)
        (shelf_use H.holds H.ready H.fetches H.faults shelf.old shelf.new)
        (sink_use K.taken K.faults out.old out.new)
        (run_use
        (maker_use M.C.tells M.C.fault_count M.holds M.has_made M.fault_count
        stores.old stores.new) (N.tells ids.old))
        (ticks_use T.handed_out T.tells ticks.old ticks.new) (V.tells avail.old) fates.new
        (command (map string_bytes words.now))).calls
        (shelf_use H.holds H.ready H.fetches H.faults shelf.old shelf.new)
        (sink_use K.taken K.faults out.old out.new) result }

    // Where nothing is in its way a run or a replay commits every batch.
    ensures finishes { (promise (O.meaning custom.now)
        (shelf_use H.holds H.ready H.fetches H.faults shelf.old shelf.new)
        (sink_use K.taken K.faults out.old out.new)
        (run_use
        (maker_use M.C.tells M.C.fault_count M.holds M.has_made M.fault_count
        stores.old stores.new) (N.tells ids.old))
        (ticks_use T.handed_out T.tells ticks.old ticks.new) (V.tells avail.old) fates.new
        (command (map string_bytes words.now))).must_finish
        → IsDoneOrShort result }

    ensures counts { Counts
        (shelf_use H.holds H.ready H.fetches H.faults shelf.old shelf.new)
        (sink_use K.taken K.faults out.old out.new)
        (maker_use M.C.tells M.C.fault_count M.holds M.has_made M.fault_count
        stores.old stores.new) }
{
    let command = match read_words(alloc, words) {
        Ok(Some(command)) => command,
        Ok(None) => return write_text(Status::Words, USAGE.as_bytes(), out),
        Err(_) => return Status::Memory,
    };
    match command {
        Command::Check { topology } => storm_check(alloc, topology, shelf, out),
        Command::Plain { topology, input } => {
            storm_plain(alloc, topology, input, shelf, out, custom)
        }
        Command::Replay {
            topology,
            input,
            schedule,
        } => storm_replay(
            alloc, topology, input, schedule, shelf, out, stores, ids, custom, fates,
        ),
        Command::Run {
            topology,
            input,
            workers,
        } => storm_run(
            rt, alloc, topology, input, workers, shelf, out, ticks, avail, stores, ids, custom,
            gate, fates,
        ),
        Command::Load { records, seed } => {
            storm_load(alloc, records, seed, out, stores, ids, custom, fates)
        }
        Command::Track {
            topology,
            input,
            workers,
        } => storm_track(rt, alloc, topology, input, workers, shelf, out, ids, custom),
        Command::Fold {
            topology,
            input,
            workers,
        } => storm_fold(rt, alloc, topology, input, workers, shelf, out, custom),
    }
}

/// Reads a topology file and writes the size of its plan, or its first fault.
///
/// It costs what `read_topology` does. The file is read to its first 65,537 bytes at most.
pub fn storm_check<H: Shelf, K: Sink>(
    alloc: Global,
    topology: &str,
    shelf: &mut H,
    out: &mut K,
) -> Status
    ensures ends { Ends
        (CheckComes (shelf_use H.holds H.ready H.fetches H.faults shelf.old shelf.new) topology.now)
        (sink_use K.taken K.faults out.old out.new) result }
    ensures answered { IsAnswered (CheckCalls (H.holds shelf.old) topology.now)
        (shelf_use H.holds H.ready H.fetches H.faults shelf.old shelf.new)
        (sink_use K.taken K.faults out.old out.new) result }
    ensures counts { FilesCounts
        (shelf_use H.holds H.ready H.fetches H.faults shelf.old shelf.new)
        (sink_use K.taken K.faults out.old out.new) }
{
    let came = check_file(alloc, topology, shelf);
    write_answer(came, out)
}

/// Makes the tables of a topology file and the records of another file by their definition, without
/// batches, and writes the report without attempt lines. No bolt fails or stays mute.
///
/// It takes every valid topology. It reads both files before it begins, and builds the whole text
/// before it writes. Memory is proportional to the input, to the keys and to the writes of one
/// record. Time is proportional to the number of tuples, and each write of a state costs the
/// logarithm of its keys besides.
pub fn storm_plain<H: Shelf, K: Sink, O: RowOp>(
    alloc: Global,
    topology: &str,
    input: &str,
    shelf: &mut H,
    out: &mut K,
    custom: &O,
) -> Status
    // With status 0 the output took exactly the report without attempt lines. Its tables are those
    // of one machine that takes all records in order, whatever fails or stays mute.
    ensures ends { Ends
        (PlainComes (O.meaning custom.now)
        (shelf_use H.holds H.ready H.fetches H.faults shelf.old shelf.new)
        topology.now input.now)
        (sink_use K.taken K.faults out.old out.new) result }
    ensures answered { IsAnswered (PlainCalls (H.holds shelf.old) topology.now input.now)
        (shelf_use H.holds H.ready H.fetches H.faults shelf.old shelf.new)
        (sink_use K.taken K.faults out.old out.new) result }
    ensures counts { FilesCounts
        (shelf_use H.holds H.ready H.fetches H.faults shelf.old shelf.new)
        (sink_use K.taken K.faults out.old out.new) }
{
    let came = plain_files(alloc, topology, input, shelf, custom);
    write_answer(came, out)
}

/// Carries out the schedule of one file over the topology and the records of two others, and writes
/// the report.
///
/// It runs on one thread, the same way every time over the same sources of ids. It reads the three
/// files before it begins, and builds the whole text before it writes. An event costs the work that
/// it does, a round as many events as there are tasks and ackers.
pub fn storm_replay<H: Shelf, K: Sink, M: StoreMaker, N: IdMaker, O: RowOp>(
    alloc: Global,
    topology: &str,
    input: &str,
    schedule: &str,
    shelf: &mut H,
    out: &mut K,
    stores: &mut M,
    ids: &mut N,
    custom: &O,
    fates: &mut Fates,
) -> Status
    requires { fates.old ≡ [] }

    // With status 0 the output took exactly the report, as `run` writes it. The fates are those of
    // the world after the schedule's steps.
    ensures ends { Ends
        (ReplayComes (O.meaning custom.now)
        (shelf_use H.holds H.ready H.fetches H.faults shelf.old shelf.new)
        (run_use
        (maker_use M.C.tells M.C.fault_count M.holds M.has_made M.fault_count
        stores.old stores.new) (N.tells ids.old))
        topology.now input.now schedule.now fates.new)
        (sink_use K.taken K.faults out.old out.new) result }
    ensures answered { IsAnswered
        (ReplayCalls (H.holds shelf.old) topology.now input.now schedule.now)
        (shelf_use H.holds H.ready H.fetches H.faults shelf.old shelf.new)
        (sink_use K.taken K.faults out.old out.new) result }

    // Over a schedule with rounds enough and few ticks every batch is committed, where nothing is
    // in the way.
    ensures finishes { ReplayMustFinish (O.meaning custom.now)
        (shelf_use H.holds H.ready H.fetches H.faults shelf.old shelf.new)
        (sink_use K.taken K.faults out.old out.new)
        (run_use
        (maker_use M.C.tells M.C.fault_count M.holds M.has_made M.fault_count
        stores.old stores.new) (N.tells ids.old))
        topology.now input.now schedule.now fates.new → IsDoneOrShort result }
    ensures counts { Counts
        (shelf_use H.holds H.ready H.fetches H.faults shelf.old shelf.new)
        (sink_use K.taken K.faults out.old out.new)
        (maker_use M.C.tells M.C.fault_count M.holds M.has_made M.fault_count
        stores.old stores.new) }
{
    let came = replay_files(
        alloc, topology, input, schedule, shelf, stores, ids, custom, fates,
    );
    write_answer(came, out)
}

/// Runs the topology of one file over the records of another, and writes the report.
///
/// Two workers and more are threads, each with tasks and ackers of its own; one goes by rounds on
/// the caller's thread and passes no gate. Every tuple is tracked by an acker, batches are in
/// flight side by side, and each is committed in transaction order to the stores once its whole
/// tuple tree was acked. Attempts that fail, time out or coincide are tried again, and so are those
/// whose commit a store refused. It reads both files before it begins, and builds the whole text
/// before it writes. Time and memory are proportional to the number of tuples; the messages of all
/// committed tuples are kept in the fates. Before each step of the coordinator it asks which
/// partitions are shut.
pub fn storm_run<
    R: Threads + Wait + Sync,
    H: Shelf,
    K: Sink,
    T: Ticks,
    V: Avail,
    M: StoreMaker,
    N: IdMaker,
    O: RowOp,
    G: Gate,
>(
    rt: &R,
    alloc: Global,
    topology: &str,
    input: &str,
    workers: u32,
    shelf: &mut H,
    out: &mut K,
    ticks: &mut T,
    avail: &mut V,
    stores: &mut M,
    ids: &mut N,
    custom: &O,
    gate: &G,
    fates: &mut Fates,
) -> Status
where
    N::I: Send,
    M::C: Send,
    requires workers { (1 ≤ workers) × (workers ≤ most_workers) }
    requires no_fates { fates.old ≡ [] }

    // Whenever it ends with status 0, for every schedule, tick list, failing bolt and store fault,
    // the printed tables are those of one machine that takes the committed batches' records in
    // transaction order; every input record stands in exactly one committed batch; each committed
    // attempt's whole tuple tree was acked before its commit; and every other attempt's printed end
    // has its shown cause.
    ensures ends { Ends
        (RunComes (O.meaning custom.now)
        (shelf_use H.holds H.ready H.fetches H.faults shelf.old shelf.new)
        (run_use
        (maker_use M.C.tells M.C.fault_count M.holds M.has_made M.fault_count
        stores.old stores.new) (N.tells ids.old))
        (ticks_use T.handed_out T.tells ticks.old ticks.new)
        topology.now input.now fates.new)
        (sink_use K.taken K.faults out.old out.new) result }
    ensures answered { IsAnswered (RunCalls (H.holds shelf.old) topology.now input.now)
        (shelf_use H.holds H.ready H.fetches H.faults shelf.old shelf.new)
        (sink_use K.taken K.faults out.old out.new) result }

    // Where few ticks are to come and no partition is shut every batch is committed, where nothing
    // is in the way.
    ensures finishes { MustFinish (O.meaning custom.now)
        (shelf_use H.holds H.ready H.fetches H.faults shelf.old shelf.new)
        (sink_use K.taken K.faults out.old out.new)
        (run_use
        (maker_use M.C.tells M.C.fault_count M.holds M.has_made M.fault_count
        stores.old stores.new) (N.tells ids.old))
        (ticks_use T.handed_out T.tells ticks.old ticks.new) (V.tells avail.old)
        topology.now input.now fates.new → IsDoneOrShort result }
    ensures counts { Counts
        (shelf_use H.holds H.ready H.fetches H.faults shelf.old shelf.new)
        (sink_use K.taken K.faults out.old out.new)
        (maker_use M.C.tells M.C.fault_count M.holds M.has_made M.fault_count
        stores.old stores.new) }
{
    let came = run_files(
        rt, alloc, topology, input, workers, shelf, ticks, avail, stores, ids, custom, gate, fates,
    );
    write_answer(came, out)
}

/// Makes so many records of a seed, carries them through the topology of `load` by rounds enough,
/// and writes one line with what was counted.
///
/// It runs on one thread and reads no file. Each record is a text of six words, in 100 records a
/// batch. Time and memory are proportional to the number of records.
pub fn storm_load<K: Sink, M: StoreMaker, N: IdMaker, O: RowOp>(
    alloc: Global,
    records: u32,
    seed: u32,
    out: &mut K,
    stores: &mut M,
    ids: &mut N,
    custom: &O,
    fates: &mut Fates,
) -> Status
    requires seed { seed < 65537 }
    requires no_fates { fates.old ≡ [] }

    // With status 0 the output took exactly the line, in place of the report that a replay of these
    // records writes.
    ensures ends { Ends
        (LoadComes (O.meaning custom.now)
        (run_use
        (maker_use M.C.tells M.C.fault_count M.holds M.has_made M.fault_count
        stores.old stores.new) (N.tells ids.old))
        records seed fates.new)
        (sink_use K.taken K.faults out.old out.new) result }

    // Where nothing is in the way it is done.
    ensures finishes { LoadMustFinish
        (sink_use K.taken K.faults out.old out.new)
        (run_use
        (maker_use M.C.tells M.C.fault_count M.holds M.has_made M.fault_count
        stores.old stores.new) (N.tells ids.old))
        fates.new → IsDoneOrShort result }
    ensures sink_faults { K.faults out.old ≤ K.faults out.new }
    ensures store_faults { M.fault_count stores.old ≤ M.fault_count stores.new }
{
    let came = load_records_of(alloc, records, seed, stores, ids, custom, fates);
    write_answer(came, out)
}

/// Tracks the records of a file through the topology of another, each as a root of its own, and
/// writes for each record how often it was tried and whether it was acked, how often each key of a
/// state was reached, and a last line.
///
/// A record is acked at the first attempt at which no bolt that its tuples reach fails or stays
/// mute; it gives up after the topology's number of attempts. Each try processes anew all that it
/// reaches, so the tallies count at least once what is acked. Windows of up to 1,024 records go
/// through the topology depth by depth, by so many workers, which share their roots' words. It
/// reads both files before it begins, and builds the whole text before it writes. Time is
/// proportional to what all tries reach, and each key costs the logarithm of its state's keys
/// besides. It uses neither stores nor ticks, and always returns.
pub fn storm_track<R: Threads + Sync, H: Shelf, K: Sink, N: IdMaker, O: RowOp>(
    rt: &R,
    alloc: Global,
    topology: &str,
    input: &str,
    workers: u32,
    shelf: &mut H,
    out: &mut K,
    ids: &mut N,
    custom: &O,
) -> Status
    requires workers { (1 ≤ workers) × (workers ≤ most_workers) }

    // With status 0 the output took exactly the text, by the definitions alone: whatever the number
    // of workers and the ids.
    ensures ends { Ends
        (TrackComes (O.meaning custom.now)
        (shelf_use H.holds H.ready H.fetches H.faults shelf.old shelf.new)
        topology.now input.now)
        (sink_use K.taken K.faults out.old out.new) result }
    ensures answered { IsAnswered (TrackCalls (H.holds shelf.old) topology.now input.now)
        (shelf_use H.holds H.ready H.fetches H.faults shelf.old shelf.new)
        (sink_use K.taken K.faults out.old out.new) result }
    ensures counts { FilesCounts
        (shelf_use H.holds H.ready H.fetches H.faults shelf.old shelf.new)
        (sink_use K.taken K.faults out.old out.new) }
{
    let came = track_files(rt, alloc, topology, input, workers, shelf, ids, custom);
    write_answer(came, out)
}
