// A larger run beside the plain tables of the same records.
use sample_operations::Backwards;
use sample_topologies::WORD_COUNT;
use std::alloc::Global;
use std::fmt::Write;
use std::test::Fail;
use storm_avail::AllOpen;
use storm_gates::OpenGate;
use storm_ids::ChaChaMaker;
use storm_stores::MemMaker;
use storm_test_kit::storm_program::{Fates, Status, storm_run};
use storm_test_kit::{CALM, Outside, run_of, scripted_ticks, shelf, sink};
use storm_values::{Memory, read_input};
use topology_reader::read_topology;
use tree_model::{Table, Tables, plain_tables};

const LINES: u32 = 300;

// The most records of a batch.
const SIZE: u32 = 7;

fn topology(alloc: Global) -> Result<String, Memory> {
    WORD_COUNT.replace(alloc, "\"batch\":2", "\"batch\":7")
}

fn sentences(alloc: Global) -> Result<String, Memory> {
    let mut text = String::new(alloc);
    for line in 0..LINES {
        let (a, b, c) = (line % 5, line % 31, line / 16);
        writeln!(text, "[\"all w{a} w{b} {c} w{a}\"]")?;
    }
    Ok(text)
}

// The tables by the model, without batches.
fn tables(alloc: Global, topology: &str, input: &str) -> Result<Tables, Fail> {
    let plan = read_topology(alloc, topology.as_bytes())?;
    let rows = read_input(alloc, input.as_bytes(), plan.spout_fields())?;
    Ok(plain_tables(alloc, &plan, &rows, &Backwards)?)
}

fn report(alloc: Global, tables: &[Table]) -> Result<String, Memory> {
    let mut text = String::new(alloc);
    for before in 0..LINES.div_ceil(SIZE) {
        let first = SIZE * before + 1;
        let last = LINES.min(SIZE * before + SIZE);
        writeln!(
            text,
            "attempt {}.1 records {first}-{last} ticks 0-0 committed",
            before + 1
        )?;
    }
    for table in tables {
        for pair in table.pairs.as_slice() {
            let (key, value) = (pair.key.as_str(), pair.value);
            writeln!(text, "cell {} {key} {value}", table.name.as_str())?;
        }
    }
    writeln!(text, "ok 300 records 43 batches")?;
    Ok(text)
}

#[test]
fn the_tables_of_three_hundred_lines(rt: HostRuntime) -> Result<(), Fail> {
    let alloc = rt.alloc();
    let (topology, input) = (topology(alloc)?, sentences(alloc)?);
    let outside = Outside {
        read: 1_000,
        ..CALM
    };
    let scene = run_of(topology.as_str(), input.as_str());
    let mut shelf = shelf(alloc, scene, outside)?;
    let mut sink = sink(alloc, outside)?;
    let mut ticks = scripted_ticks(alloc, &[])?;
    let mut stores = MemMaker::new(alloc);
    let mut ids = ChaChaMaker { key: [0; 32] };
    let mut fates = Fates::new(alloc);
    let status = storm_run(
        &rt,
        alloc,
        "t",
        "i",
        64,
        &mut shelf,
        &mut sink,
        &mut ticks,
        &mut AllOpen,
        &mut stores,
        &mut ids,
        &Backwards,
        &OpenGate {},
        &mut fates,
    );
    assert!(rt; status == Status::Done);
    let tables = tables(alloc, topology.as_str(), input.as_str())?;
    let want = report(alloc, tables.as_slice())?;
    assert!(rt; want.contains("cell counts [\"all\"] 300\n"));
    assert!(rt; sink.bytes() == want.as_bytes());
    Ok(())
}
