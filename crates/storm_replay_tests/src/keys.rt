// The key of a bad cell, which no text shows: the end of a run has it.
ghost use Rattle.std.specs.Prelude.{◌≡◌, IfOk};
ghost use Rattle.event_worlds.specs.Accounted.{IsInput};

use event_worlds::commit_order::NoFollow;
use event_worlds::record_offers::Offers;
use sample_operations::Backwards;
use sample_topologies::STEADY;
use schedule_core::read_schedule;
use std::alloc::Global;
use storm_ids::ChaChaMaker;
use storm_test_kit::storm_program::{Fates, RunEnd, replay_over};
use storm_test_kit::{CALM, Cell, Outside, stores};
use storm_values::read_input;
use test_kit::Mismatch;
use topology_reader::{Plan, read_topology};

const RECORD: &str = "[\"a\"]";

fn case_of(alloc: Global, of: &str) -> Mismatch {
    match String::from_str(alloc, of) {
        Ok(text) => Mismatch::Case(text),
        Err(_) => Mismatch::Memory,
    }
}

fn offers_of(alloc: Global, plan: &Plan) -> Result<Offers, Mismatch>
    ensures { IfOk result (λ offers. IsInput plan.now offers) }
{
    plan.facts();
    match read_input(alloc, RECORD.as_bytes(), plan.spout_fields()) {
        Ok(rows) => Ok(Offers::new(rows, plan.batch(), plan.partitions())?),
        Err(_) => Err(case_of(alloc, RECORD)),
    }
}

// The end of a replay of one record over a store with a cell.
fn end_over(alloc: Global, plan: &Plan, cell: Cell) -> Result<RunEnd, Mismatch> {
    let Ok(events) = read_schedule(alloc, b"rounds 200", plan) else {
        return Err(case_of(alloc, "rounds 200"));
    };
    let outside = Outside {
        cells: &[cell],
        ..CALM
    };
    let offers = offers_of(alloc, plan)?;
    let mut stores = stores(alloc, outside)?;
    let mut ids = ChaChaMaker { key: [0; 32] };
    let mut fates = Fates::new(alloc);
    let ended = replay_over(
        alloc,
        plan,
        offers,
        &events,
        &mut ids,
        &mut stores,
        &Backwards,
        &mut NoFollow,
        &mut fates,
    );
    Ok(ended?)
}

fn is_bad_at(ended: &RunEnd, key: &str) -> bool {
    match ended {
        RunEnd::BadCell(found) => found.as_slice() == key.as_bytes(),
        _ => false,
    }
}

fn check_key(alloc: Global, plan: &Plan, cell: Cell) -> Result<(), Mismatch> {
    let (_, _, key, _) = cell;
    let ended = end_over(alloc, plan, cell)?;
    if is_bad_at(&ended, key) {
        Ok(())
    } else {
        Err(case_of(alloc, key))
    }
}

// The key of the record, which the commit meets, and that of none, which the last reading meets.
const BAD_CELLS: [Cell; 2] = [(1, 0, "[\"a\"]", &[0]), (1, 0, "[\"b\"]", &[0])];

#[test]
fn a_bad_cell_is_named_by_its_key(rt: HostRuntime) -> Result<(), Mismatch> {
    let alloc = rt.alloc();
    let Ok(plan) = read_topology(alloc, STEADY.as_bytes()) else {
        return Err(case_of(alloc, STEADY));
    };
    for cell in BAD_CELLS {
        check_key(alloc, &plan, cell)?;
    }
    Ok(())
}
