// Runs in which partitions are shut for a while. Of two partitions the first has the records 1 and
// 3, and the second 2 and 4.
use sample_operations::Backwards;
use sample_topologies::{COUNTED_SENTENCES, SENTENCES, TWO_PARTITIONS, WORD_COUNT};
use std::alloc::Global;
use std::sync::Wait;
use std::thread::Threads;
use storm_avail::ScriptAvail;
use storm_gates::OpenGate;
use storm_ids::ChaChaMaker;
use storm_test_kit::storm_program::{Fates, Status, storm};
use storm_test_kit::{CALM, Scene, owned, run_of, scripted_ticks, shelf, sink, stores, taken};
use storm_values::Seq;
use test_kit::{Mismatch, compare};

/// The words of runs by one worker and by two.
const BY_ONE_AND_TWO: [&[&str]; 2] = [&["run", "t", "i", "1"], &["run", "t", "i", "2"]];

const FOUR_WORDS: &str = "[\"a\"]
[\"b\"]
[\"c\"]
[\"d\"]
";

const FIRST_PARTITION_FIRST: &str = "attempt 1.1 records 1-1,3-3 ticks 0-0 committed
attempt 2.1 records 2-2,4-4 ticks 0-0 committed
cell counts [\"a\"] 1
cell counts [\"b\"] 1
cell counts [\"c\"] 1
cell counts [\"d\"] 1
ok 4 records 2 batches
";

const SECOND_PARTITION_FIRST: &str = "attempt 1.1 records 2-2,4-4 ticks 0-0 committed
attempt 2.1 records 1-1,3-3 ticks 0-0 committed
cell counts [\"a\"] 1
cell counts [\"b\"] 1
cell counts [\"c\"] 1
cell counts [\"d\"] 1
ok 4 records 2 batches
";

const IN_ORDER: &str = "attempt 1.1 records 1-2 ticks 0-0 committed
attempt 2.1 records 3-4 ticks 0-0 committed
cell counts [\"a\"] 1
cell counts [\"b\"] 1
cell counts [\"c\"] 1
cell counts [\"d\"] 1
ok 4 records 2 batches
";

// The same answer a thousand times, and then all are open.
fn shut_at_first(alloc: Global, shut: u16) -> Result<ScriptAvail, Mismatch> {
    let mut answers = Seq::new(alloc);
    for _ in 0..1000 {
        answers.push(shut)?;
    }
    Ok(ScriptAvail::new(answers))
}

// What a run writes that is done.
fn text_of_run<R: Threads + Wait + Sync>(
    rt: &R,
    alloc: Global,
    scene: Scene<'_>,
    avail: &mut ScriptAvail,
) -> Result<String, Mismatch> {
    let words = owned(alloc, scene.words)?;
    let mut shelf = shelf(alloc, scene, CALM)?;
    let mut sink = sink(alloc, CALM)?;
    let mut ticks = scripted_ticks(alloc, &[])?;
    let mut stores = stores(alloc, CALM)?;
    let mut fates = Fates::new(alloc);
    let status = storm(
        rt,
        alloc,
        words.as_slice(),
        &mut shelf,
        &mut sink,
        &mut ticks,
        avail,
        &mut stores,
        &mut ChaChaMaker { key: [0; 32] },
        &Backwards,
        &OpenGate {},
        &mut fates,
    );
    if status == Status::Done {
        taken(alloc, &sink)
    } else {
        Err(Mismatch::Case(String::from_str(alloc, "status")?))
    }
}

fn check_run<R: Threads + Wait + Sync>(
    rt: &R,
    alloc: Global,
    scene: Scene<'_>,
    shut: u16,
    want: &str,
) -> Result<(), Mismatch> {
    let mut avail = shut_at_first(alloc, shut)?;
    let text = text_of_run(rt, alloc, scene, &mut avail)?;
    compare(alloc, "a run", text.as_str(), want)
}

// Topologies, inputs, the bits of what is shut at first, and what a run writes. Where one batch is
// committed, the records of the partition that is shut are left for the other. The bits above the
// partitions are those of none.
const SHUT_AT_FIRST: [(&str, &str, u16, &str); 6] = [
    (TWO_PARTITIONS, FOUR_WORDS, 2, FIRST_PARTITION_FIRST),
    (TWO_PARTITIONS, FOUR_WORDS, 65_534, FIRST_PARTITION_FIRST),
    (TWO_PARTITIONS, FOUR_WORDS, 65_533, SECOND_PARTITION_FIRST),
    (TWO_PARTITIONS, FOUR_WORDS, 65_532, IN_ORDER),
    // all are shut, and nothing begins until they are open
    (TWO_PARTITIONS, FOUR_WORDS, 65_535, IN_ORDER),
    // without partitions there is nothing to shut
    (WORD_COUNT, SENTENCES, 65_535, COUNTED_SENTENCES),
];

#[test]
fn partitions_are_shut_at_first(rt: HostRuntime) -> Result<(), Mismatch> {
    for (topology, input, shut, want) in SHUT_AT_FIRST {
        for words in BY_ONE_AND_TWO {
            let scene = Scene {
                words,
                ..run_of(topology, input)
            };
            check_run(&rt, rt.alloc(), scene, shut, want)?;
        }
    }
    Ok(())
}
