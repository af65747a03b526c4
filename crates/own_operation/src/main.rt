//! A program of one's own over the crates of storm: it counts the links of each page, whichever
//! way they lead, and adds the squares of their clicks. Copy it to run topologies with an
//! operation and a fold that you write in Rattle.
//!
//! It runs `topology.json` over `input.jsonl` in the current folder, and prints the report.
#![tactic(auto)]

ghost use Rattle.own_operation.specs.BothWays.{both_ways, IsCustom-both_ways};

use bolt_ops::RowOp;
use std::alloc::Global;
use std::process::ExitCode;
use storm_avail::AllOpen;
use storm_gates::OpenGate;
use storm_ids::ChaChaMaker;
use storm_outside::{FileShelf, OutSink};
use storm_program::{Fates, storm_run};
use storm_stores::MemMaker;
use storm_ticks::ClockTicks;
use storm_values::{Duplicate, Memory, Row, Rows};

/// Makes two rows of one: the row, and the row with its values in reverse order. A custom fold
/// adds the squares of the amounts; the sum wraps round at 128 bits.
struct BothWays;

impl RowOp for BothWays {
    ghost meaning = { λ _. both_ways };

    ghost keeps = { λ _. IsCustom-both_ways };

    fn rows(&self, alloc: Global, row: &Row) -> Result<Rows, Memory> {
        let mut reversed = Row::new(alloc);
        for value in row.as_slice().iter().rev() {
            reversed.push(value.copy()?)?;
        }
        let mut rows = Rows::new(alloc);
        rows.push(row.copy()?)?;
        rows.push(reversed)?;
        Ok(rows)
    }

    fn one(&self, amount: i64) -> i128 {
        let wide = i128::from(amount);
        wide.wrapping_mul(wide)
    }

    fn combine(&self, earlier: i128, later: i128) -> i128 {
        earlier.wrapping_add(later)
    }
}

fn main(rt: HostRuntime) -> ExitCode {
    let alloc = rt.alloc();
    let mut fates = Fates::new(alloc);
    let status = storm_run(
        &rt,
        alloc,
        "topology.json",
        "input.jsonl",
        4,
        &mut FileShelf::new(&rt),
        &mut OutSink::new(&rt),
        &mut ClockTicks::new(&rt),
        &mut AllOpen,
        &mut MemMaker::new(alloc),
        &mut ChaChaMaker { key: [0; 32] },
        &BothWays,
        &OpenGate {},
        &mut fates,
    );
    ExitCode::from(status.code())
}
