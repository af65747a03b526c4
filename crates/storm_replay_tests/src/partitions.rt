// Replays over a spout with partitions: what is shut, and what is dropped. Of two partitions the
// first has the records 1 and 3, and the second 2 and 4.
use sample_topologies::{DROPS_ALWAYS, DROPS_ONCE, DROPS_THEN_FAILS, TWO_PARTITIONS, WORD_COUNT};
use storm_test_kit::{CALM, check_call, check_refusal, replay_of};
use test_kit::Mismatch;

const FOUR_WORDS: &str = "[\"a\"]
[\"b\"]
[\"c\"]
[\"d\"]
";

// All are open, so the batches are those of the input in order.
const IN_ORDER: &str = "attempt 1.1 records 1-2 ticks 0-0 committed
attempt 2.1 records 3-4 ticks 0-0 committed
cell counts [\"a\"] 1
cell counts [\"b\"] 1
cell counts [\"c\"] 1
cell counts [\"d\"] 1
ok 4 records 2 batches
";

const FIRST_PARTITION_FIRST: &str = "attempt 1.1 records 1-1,3-3 ticks 0-0 committed
attempt 2.1 records 2-2,4-4 ticks 0-0 committed
cell counts [\"a\"] 1
cell counts [\"b\"] 1
cell counts [\"c\"] 1
cell counts [\"d\"] 1
ok 4 records 2 batches
";

// Schedules, and what a replay over two partitions ends with and writes.
const SHUT: [(&str, u8, &str); 8] = [
    ("rounds 100\n", 0, IN_ORDER),
    (
        "shut 1\nrounds 100\nopen 1\nrounds 100\n",
        0,
        FIRST_PARTITION_FIRST,
    ),
    // the records of the second are not offered while it is shut
    (
        "shut 1\nrounds 100\n",
        8,
        "attempt 1.1 records 1-1,3-3 ticks 0-0 committed
unfinished 1
",
    ),
    (
        "shut 00000001\ncoord\nopen 01\nrounds 100\n",
        0,
        FIRST_PARTITION_FIRST,
    ),
    // what is shut twice is opened at once
    ("shut 1\nshut 1\nopen 1\nrounds 100\n", 0, IN_ORDER),
    ("open 0\nopen 1\nopen 1\nrounds 100\n", 0, IN_ORDER),
    ("shut 0\nshut 1\nrounds 100\n", 8, "unfinished 0\n"),
    // what is in flight goes on where its partition is shut
    ("coord\nshut 0\nshut 1\nrounds 100\n", 0, IN_ORDER),
];

#[test]
fn partitions_are_shut_and_opened(rt: HostRuntime) -> Result<(), Mismatch> {
    for (schedule, code, want) in SHUT {
        let scene = replay_of(TWO_PARTITIONS, FOUR_WORDS, schedule);
        check_call(&rt, rt.alloc(), scene, CALM, code, want)?;
    }
    Ok(())
}

// Topologies, schedules over them, and the lines that refuse these. The word count has no
// partition.
const NO_SUCH_PARTITION: [(&str, &str, &str); 8] = [
    (WORD_COUNT, "shut 0", "schedule: line 1: no such number\n"),
    (
        WORD_COUNT,
        "coord\nopen 0\n",
        "schedule: line 2: no such number\n",
    ),
    (
        TWO_PARTITIONS,
        "shut 2",
        "schedule: line 1: no such number\n",
    ),
    (
        TWO_PARTITIONS,
        "shut 1\nopen 2\njump\n",
        "schedule: line 2: no such number\n",
    ),
    (
        TWO_PARTITIONS,
        "open 99999999",
        "schedule: line 1: no such number\n",
    ),
    (TWO_PARTITIONS, "shut\n", "schedule: line 1: not a step\n"),
    (
        TWO_PARTITIONS,
        "open 000000001\n",
        "schedule: line 1: not a step\n",
    ),
    (
        TWO_PARTITIONS,
        "shut  0\n",
        "schedule: line 1: not a step\n",
    ),
];

#[test]
fn refusals_of_partitions(rt: HostRuntime) -> Result<(), Mismatch> {
    for (topology, schedule, want) in NO_SUCH_PARTITION {
        let scene = replay_of(topology, FOUR_WORDS, schedule);
        check_refusal(&rt, rt.alloc(), scene, CALM, 9, want)?;
    }
    Ok(())
}

// Topologies, and what a replay of two records ends with and writes.
const DROPPED: [(&str, u8, &str); 3] = [
    (
        DROPS_ONCE,
        0,
        "attempt 1.1 records 1-1 ticks 0-0 failed 0
attempt 2.1 records 2-2 ticks 0-0 dropped 1.1
attempt 1.2 records 1-1 ticks 0-0 committed
attempt 2.2 records 2-2 ticks 0-0 committed
cell counts [\"a\"] 1
cell counts [\"b\"] 1
ok 2 records 2 batches
",
    ),
    // the last end of the transaction drops the other before all is over
    (
        DROPS_ALWAYS,
        7,
        "attempt 1.1 records 1-1 ticks 0-0 failed 0
attempt 2.1 records 2-2 ticks 0-0 dropped 1.1
attempt 1.2 records 1-1 ticks 0-0 failed 0
attempt 2.2 records 2-2 ticks 0-0 dropped 1.2
exhausted 1
",
    ),
    // a drop uses up none of the two attempts
    (
        DROPS_THEN_FAILS,
        0,
        "attempt 1.1 records 1-1 ticks 0-0 failed 0.0
attempt 2.1 records 2-2 ticks 0-0 dropped 1.1
attempt 1.2 records 1-1 ticks 0-0 committed
attempt 2.2 records 2-2 ticks 0-0 failed 1.0
attempt 2.3 records 2-2 ticks 0-0 committed
cell counts [\"a\"] 1
cell counts [\"b\"] 1
ok 2 records 2 batches
",
    ),
];

#[test]
fn attempts_are_dropped(rt: HostRuntime) -> Result<(), Mismatch> {
    for (topology, code, want) in DROPPED {
        let scene = replay_of(topology, "[\"a\"]\n[\"b\"]\n", "rounds 200");
        check_call(&rt, rt.alloc(), scene, CALM, code, want)?;
    }
    Ok(())
}
