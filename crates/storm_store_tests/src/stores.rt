// Runs over stores with calls that fail, and with cells. The state is the component 1, and has one
// part.
use sample_operations::Backwards;
use sample_topologies::{STEADY, one_bolt};
use storm_avail::AllOpen;
use storm_gates::OpenGate;
use storm_ids::ChaChaMaker;
use storm_stores::{CallKind, CellStore, FailAt, MemMaker, StoreFault, StoreMaker};
use storm_test_kit::storm_program::{Fates, Status, storm_run};
use storm_test_kit::{
    CALM, Cell, Outside, check_call, check_faults, run_of, scripted_ticks, shelf, sink,
};
use storm_values::Bytes;
use test_kit::Mismatch;

const RECORD: &str = "[\"a\"]";

const COMMITTED_AGAIN: &str = "attempt 1.1 records 1-1 ticks 0-0 commit failed counts 0
attempt 1.2 records 1-1 ticks 0-0 committed
cell counts [\"a\"] 1
ok 1 records 1 batches
";

const COMMITTED: &str = "attempt 1.1 records 1-1 ticks 0-0 committed
cell counts [\"a\"] 1
ok 1 records 1 batches
";

// The call that fails, by its number among those of its kind, and whether it happens; how often the
// store failed, and what a run ends with and writes. A commit gets the cell and puts it. The last
// reading counts the keys, asks for each, and gets its cell.
const FAULTS: [(CallKind, u64, bool, u64, u8, &str); 10] = [
    (CallKind::Put, 1, true, 1, 0, COMMITTED_AGAIN),
    (CallKind::Put, 1, false, 1, 0, COMMITTED_AGAIN),
    (CallKind::Put, 2, false, 0, 0, COMMITTED),
    (CallKind::Get, 1, false, 1, 0, COMMITTED_AGAIN),
    (CallKind::Get, 2, false, 1, 10, "store fault\n"),
    (CallKind::Get, 3, false, 0, 0, COMMITTED),
    (CallKind::Count, 1, false, 1, 10, "store fault\n"),
    (CallKind::Count, 2, false, 0, 0, COMMITTED),
    (CallKind::KeyAt, 1, false, 1, 10, "store fault\n"),
    (CallKind::KeyAt, 2, false, 0, 0, COMMITTED),
];

#[test]
fn a_call_of_a_store_fails(rt: HostRuntime) -> Result<(), Mismatch> {
    for (kind, number, happened, faults, code, want) in FAULTS {
        let at = FailAt {
            kind,
            number,
            happened,
        };
        let outside = Outside {
            failing: &[(1, 0, at)],
            ..CALM
        };
        let scene = run_of(STEADY, RECORD);
        check_faults(&rt, rt.alloc(), scene, outside, faults, code, want)?;
    }
    Ok(())
}

// An opaque part counts its keys at its first commit too.
#[test]
fn a_count_of_an_opaque_store_fails(rt: HostRuntime) -> Result<(), Mismatch> {
    let alloc = rt.alloc();
    let topology = one_bolt(alloc, "opaque", "opaque", r#"{"do":"flaky","below":1}"#)?;
    let at = FailAt {
        kind: CallKind::Count,
        number: 1,
        happened: false,
    };
    let outside = Outside {
        failing: &[(1, 0, at)],
        ..CALM
    };
    let scene = run_of(topology.as_str(), RECORD);
    check_faults(&rt, alloc, scene, outside, 1, 0, COMMITTED_AGAIN)
}

const NEVER_COMMITTED: &str = "attempt 1.1 records 1-1 ticks 0-0 commit failed counts 0
attempt 1.2 records 1-1 ticks 0-0 commit failed counts 0
attempt 1.3 records 1-1 ticks 0-0 commit failed counts 0
attempt 1.4 records 1-1 ticks 0-0 commit failed counts 0
exhausted 1
";

fn failing_put(number: u64) -> (u32, u32, FailAt) {
    let at = FailAt {
        kind: CallKind::Put,
        number,
        happened: false,
    };
    (1, 0, at)
}

#[test]
fn every_commit_fails(rt: HostRuntime) -> Result<(), Mismatch> {
    let outside = Outside {
        failing: &[
            failing_put(1),
            failing_put(2),
            failing_put(3),
            failing_put(4),
        ],
        ..CALM
    };
    check_faults(
        &rt,
        rt.alloc(),
        run_of(STEADY, RECORD),
        outside,
        4,
        7,
        NEVER_COMMITTED,
    )
}

// ---- cells

// The value 5 by the transaction 1, and by the transaction 9, in format 1.
const FIVE_BY_1: [u8; 42] = [
    1, 1, 0, 0, 0, 0, 0, 0, 0, 1, 0, 0, 0, 0, 0, 0, 0, 0, 0, 0, 0, 0, 0, 0, 0, 5, 0, 0, 0, 0, 0, 0,
    0, 0, 0, 0, 0, 0, 0, 0, 0, 0,
];

const FIVE_BY_9: [u8; 42] = [
    1, 1, 0, 0, 0, 0, 0, 0, 0, 9, 0, 0, 0, 0, 0, 0, 0, 0, 0, 0, 0, 0, 0, 0, 0, 5, 0, 0, 0, 0, 0, 0,
    0, 0, 0, 0, 0, 0, 0, 0, 0, 0,
];

// A key with its cell, and what a run ends with and writes.
const CELLS: [(Cell, u8, &str); 5] = [
    ((1, 0, "[\"a\"]", &[0]), 11, "bad cell\n"),
    // the key is that of no record, so that the last reading alone meets the cell
    ((1, 0, "[\"b\"]", &[0]), 11, "bad cell\n"),
    // the transaction has been counted already
    (
        (1, 0, "[\"a\"]", &FIVE_BY_1),
        0,
        "attempt 1.1 records 1-1 ticks 0-0 committed
cell counts [\"a\"] 5
ok 1 records 1 batches
",
    ),
    // it has not
    (
        (1, 0, "[\"a\"]", &FIVE_BY_9),
        0,
        "attempt 1.1 records 1-1 ticks 0-0 committed
cell counts [\"a\"] 6
ok 1 records 1 batches
",
    ),
    // a part that the topology does not have
    ((1, 1, "[\"a\"]", &[0]), 0, COMMITTED),
];

#[test]
fn stores_begin_with_cells(rt: HostRuntime) -> Result<(), Mismatch> {
    for (cell, code, want) in CELLS {
        let outside = Outside {
            cells: &[cell],
            ..CALM
        };
        check_call(&rt, rt.alloc(), run_of(STEADY, RECORD), outside, code, want)?;
    }
    Ok(())
}

// The value 1 by the first attempt of the transaction 1.
const ONE_BY_1: [u8; 46] = [
    2, 1, 0, 0, 0, 0, 0, 0, 0, 1, 0, 0, 0, 1, 0, 0, 0, 0, 0, 0, 0, 0, 0, 0, 0, 0, 0, 0, 0, 1, 0, 0,
    0, 0, 0, 0, 0, 0, 0, 0, 0, 0, 0, 0, 0, 0,
];

// Whether a key was found with this cell.
fn is_cell(told: &Result<Option<Bytes>, StoreFault>, cell: &[u8]) -> bool {
    match told {
        Ok(Some(found)) => found.as_slice() == cell,
        Ok(None) => false,
        Err(_) => false,
    }
}

#[test]
fn a_store_comes_back_with_its_cell(rt: HostRuntime) -> Result<(), Mismatch> {
    let alloc = rt.alloc();
    let mut shelf = shelf(alloc, run_of(STEADY, RECORD), CALM)?;
    let mut sink = sink(alloc, CALM)?;
    let mut ticks = scripted_ticks(alloc, &[])?;
    let mut stores = MemMaker::new(alloc);
    let mut fates = Fates::new(alloc);
    let status = storm_run(
        &rt,
        alloc,
        "t",
        "i",
        1,
        &mut shelf,
        &mut sink,
        &mut ticks,
        &mut AllOpen,
        &mut stores,
        &mut ChaChaMaker { key: [0; 32] },
        &Backwards,
        &OpenGate {},
        &mut fates,
    );
    assert!(rt; status == Status::Done);
    let mut store = stores.make(1, 0)?;
    let told = store.get("[\"a\"]".as_bytes());
    assert!(rt; is_cell(&told, &ONE_BY_1));
    Ok(())
}
