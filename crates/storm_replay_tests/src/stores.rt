// Replays over stores with calls that fail, and with a bad cell. The state is the component 1, and
// has one part.
use sample_topologies::STEADY;
use storm_stores::{CallKind, FailAt};
use storm_test_kit::{CALM, Cell, Outside, check_faults, check_refusal, replay_of};
use test_kit::Mismatch;

const RECORD: &str = "[\"a\"]";

const COMMITTED_AGAIN: &str = "attempt 1.1 records 1-1 ticks 0-0 commit failed counts 0
attempt 1.2 records 1-1 ticks 0-0 committed
cell counts [\"a\"] 1
ok 1 records 1 batches
";

// The first call of a kind fails, and maybe happens; a schedule, and what a replay ends with and
// writes.
const FAULTS: [(CallKind, bool, &str, u8, &str); 6] = [
    (CallKind::Put, true, "rounds 200", 0, COMMITTED_AGAIN),
    (CallKind::Put, false, "rounds 200", 0, COMMITTED_AGAIN),
    (CallKind::Get, false, "rounds 200", 0, COMMITTED_AGAIN),
    (CallKind::Count, false, "rounds 200", 10, "store fault\n"),
    (CallKind::KeyAt, false, "rounds 200", 10, "store fault\n"),
    // the schedule ends before the second attempt does: its tuples are tracked in seven rounds
    (
        CallKind::Put,
        true,
        "rounds 10",
        8,
        "attempt 1.1 records 1-1 ticks 0-0 commit failed counts 0
unfinished 0
",
    ),
];

#[test]
fn a_call_of_a_store_fails(rt: HostRuntime) -> Result<(), Mismatch> {
    for (kind, happened, schedule, code, want) in FAULTS {
        let at = FailAt {
            kind,
            number: 1,
            happened,
        };
        let outside = Outside {
            failing: &[(1, 0, at)],
            ..CALM
        };
        let scene = replay_of(STEADY, RECORD, schedule);
        check_faults(&rt, rt.alloc(), scene, outside, 1, code, want)?;
    }
    Ok(())
}

// The key of the record, and that of none, which the last reading alone meets.
const BAD_CELLS: [Cell; 2] = [(1, 0, "[\"a\"]", &[0]), (1, 0, "[\"b\"]", &[0])];

#[test]
fn a_cell_is_bad(rt: HostRuntime) -> Result<(), Mismatch> {
    for cell in BAD_CELLS {
        let outside = Outside {
            cells: &[cell],
            ..CALM
        };
        let scene = replay_of(STEADY, RECORD, "rounds 200");
        check_faults(&rt, rt.alloc(), scene, outside, 0, 11, "bad cell\n")?;
    }
    Ok(())
}

// No batch is committed, so no store is read.
#[test]
fn a_bad_cell_is_not_met_without_a_commit(rt: HostRuntime) -> Result<(), Mismatch> {
    let outside = Outside {
        cells: &BAD_CELLS,
        ..CALM
    };
    let scene = replay_of(STEADY, RECORD, "rounds 3");
    check_refusal(&rt, rt.alloc(), scene, outside, 8, "unfinished 0\n")
}

// A cell of the value 5 in format 1, of no transaction of the run.
const FIVE: [u8; 42] = [
    1, 1, 0, 0, 0, 0, 0, 0, 0, 0, 0, 0, 0, 0, 0, 0, 0, 0, 0, 0, 0, 0, 0, 0, 0, 5, 0, 0, 0, 0, 0, 0,
    0, 0, 0, 0, 0, 0, 0, 0, 0, 0,
];

const COMMITTED_BESIDE_FIVE: &str = "attempt 1.1 records 1-1 ticks 0-0 committed
cell counts [\"a\"] 1
cell counts [\"b\"] 5
ok 1 records 1 batches
";

// The key stands in no record, so the tables are not those of `plain`.
const BESIDE: [Cell; 1] = [(1, 0, "[\"b\"]", &FIVE)];

#[test]
fn a_cell_of_another_key_stays(rt: HostRuntime) -> Result<(), Mismatch> {
    let outside = Outside {
        cells: &BESIDE,
        ..CALM
    };
    let scene = replay_of(STEADY, RECORD, "rounds 200");
    check_faults(&rt, rt.alloc(), scene, outside, 0, 0, COMMITTED_BESIDE_FIVE)
}
