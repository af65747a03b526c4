ghost use Rattle.std.specs.Prelude.{◌≡◌, ◌≤◌, ◌<◌, ◌+◌, ◌-◌, ◌%◌, ◌^◌, ℕ, List, length, All, IfOk, IfErr, OnOk, IsErrOf};
ghost use Rattle.event_worlds.specs.storm_values.Rows.{IsRow};
ghost use Rattle.event_worlds.specs.storm_values.Counts.{Rose};
ghost use Rattle.storm_answers.specs.Files.{IsAccepted, AreRecords, AreAccepted, FilesCome};
ghost use Rattle.storm_answers.specs.Outside.{shelf_use, Fetched};
ghost use Rattle.storm_answers.specs.steps.Reading.{TopologyComes, WasRead, NotReadComes, InputComes};
ghost use Rattle.storm_answers.specs.steps.Stops.{Stops};

use crate::early_end::{EarlyEnd, refused_input, refused_topology, told};
use crate::status::Status;
use event_worlds::storm_values::{Bytes, MOST_INPUT_BYTES, MOST_TOPOLOGY_BYTES, Rows, read_input};
use event_worlds::topology_plan::Plan;
use std::alloc::Global;
use storm_outside::{InFault, Shelf, read_all};
use topology_reader::read_topology;

/// The most bytes of a topology file.
const MOST_TOPOLOGY: u64 = MOST_TOPOLOGY_BYTES as u64;

/// The most bytes of an input.
const MOST_INPUT: u64 = MOST_INPUT_BYTES as u64;

/// An accepted topology and the records of its input.
#[derive(Drop)]
pub struct Accepted {
    pub plan: Plan,
    pub rows: Rows,
}

/// Reads a topology and an input, and refuses them in this order.
pub fn read_files<H: Shelf>(
    alloc: Global,
    topology: &str,
    input: &str,
    shelf: &mut H,
) -> Result<Accepted, EarlyEnd>
    ensures accepted { IfOk result (λ files. AreAccepted (H.holds shelf.old)
        topology.now input.now files.plan files.rows) }
    ensures rows { IfOk result (λ files.
        All (IsRow (length files.plan.spout_fields)) files.rows) }
    ensures fetches { OnOk result
        (Fetched 2 (shelf_use H.holds H.ready H.fetches H.faults shelf.old shelf.new)) }
    ensures stop { IfErr result (Stops (FilesCome
        (shelf_use H.holds H.ready H.fetches H.faults shelf.old shelf.new)
        topology.now input.now)) }
    ensures files { (n bytes : List ℕ) → H.holds shelf.old n bytes → H.holds shelf.new n bytes }
    ensures stays_ready { H.ready shelf.old → H.ready shelf.new }
    ensures never_falls { H.faults shelf.old ≤ H.faults shelf.new }
{
    let plan = read_plan(alloc, topology, shelf)?;
    let rows = read_records(alloc, input, &plan, shelf)?;
    Ok(Accepted { plan, rows })
}

/// Reads a topology, or refuses it.
pub fn read_plan<H: Shelf>(alloc: Global, name: &str, shelf: &mut H) -> Result<Plan, EarlyEnd>
    ensures plan { IfOk result (IsAccepted (H.holds shelf.old) name.now) }
    ensures stop { IfErr result (Stops (TopologyComes
        (shelf_use H.holds H.ready H.fetches H.faults shelf.old shelf.new) name.now)) }
    ensures fetches { H.fetches shelf.new ≡ (H.fetches shelf.old + 1) % 2 ^ 64 }
    ensures files { (n bytes : List ℕ) → H.holds shelf.old n bytes → H.holds shelf.new n bytes }
    ensures stays_ready { H.ready shelf.old → H.ready shelf.new }
    ensures never_falls { H.faults shelf.old ≤ H.faults shelf.new }
{
    let bytes = read_file(alloc, name, MOST_TOPOLOGY, "read fault topology\n", shelf)?;
    match read_topology(alloc, bytes.as_slice()) {
        Ok(plan) => Ok(plan),
        Err(fault) => Err(refused_topology(alloc, &fault)),
    }
}

/// Reads the input of a plan, or refuses it.
fn read_records<H: Shelf>(
    alloc: Global,
    name: &str,
    plan: &Plan,
    shelf: &mut H,
) -> Result<Rows, EarlyEnd>
    ensures records { IfOk result (AreRecords (H.holds shelf.old) plan.now name.now) }
    ensures rows { IfOk result (All (IsRow (length plan.now.spout_fields))) }
    ensures stop { IfErr result (Stops (InputComes
        (shelf_use H.holds H.ready H.fetches H.faults shelf.old shelf.new) plan.now name.now)) }
    ensures fetches { H.fetches shelf.new ≡ (H.fetches shelf.old + 1) % 2 ^ 64 }
    ensures files { (n bytes : List ℕ) → H.holds shelf.old n bytes → H.holds shelf.new n bytes }
    ensures stays_ready { H.ready shelf.old → H.ready shelf.new }
    ensures never_falls { H.faults shelf.old ≤ H.faults shelf.new }
{
    let bytes = read_file(alloc, name, MOST_INPUT, "read fault input\n", shelf)?;
    match read_input(alloc, bytes.as_slice(), plan.spout_fields()) {
        Ok(rows) => Ok(rows),
        Err(fault) => Err(refused_input(alloc, &fault)),
    }
}

/// The file of a name, or its first `most + 1` bytes where it is longer. A file that
/// was not read has the line.
pub fn read_file<H: Shelf>(
    alloc: Global,
    name: &str,
    most: u64,
    line: &str,
    shelf: &mut H,
) -> Result<Bytes, EarlyEnd>
    requires { most < 2 ^ 64 - 1 }
    ensures bytes { IfOk result (WasRead (H.holds shelf.old) name.now (most + 1)) }
    ensures stop { IfErr result (Stops (NotReadComes
        (shelf_use H.holds H.ready H.fetches H.faults shelf.old shelf.new) name.now line.now)) }
    ensures fetches { H.fetches shelf.new ≡ (H.fetches shelf.old + 1) % 2 ^ 64 }
    ensures files { (n bytes : List ℕ) → H.holds shelf.old n bytes → H.holds shelf.new n bytes }
    ensures stays_ready { H.ready shelf.old → H.ready shelf.new }
    ensures never_falls { H.faults shelf.old ≤ H.faults shelf.new }
{
    match fetch_file(alloc, name, most, shelf) {
        Ok(bytes) => Ok(bytes),
        Err(InFault::Failed) => Err(told(alloc, Status::ReadFault, line)),
        Err(InFault::Memory) => Err(EarlyEnd::Memory),
    }
}

fn fetch_file<H: Shelf>(
    alloc: Global,
    name: &str,
    most: u64,
    shelf: &mut H,
) -> Result<Bytes, InFault>
    requires { most < 2 ^ 64 - 1 }
    ensures bytes { IfOk result (WasRead (H.holds shelf.old) name.now (most + 1)) }
    ensures failed { IsErrOf result InFault.Failed →
        Rose (H.faults shelf.old) (H.faults shelf.new) }
    ensures never_falls { H.faults shelf.old ≤ H.faults shelf.new }
    ensures fetches { H.fetches shelf.new ≡ (H.fetches shelf.old + 1) % 2 ^ 64 }
    ensures files { (n bytes : List ℕ) → H.holds shelf.old n bytes → H.holds shelf.new n bytes }
    ensures ready { H.ready shelf.old →
        (bytes : List ℕ) → H.holds shelf.old name.now bytes → ¬ IsErrOf result InFault.Failed }
    ensures stays_ready { H.ready shelf.old → H.ready shelf.new }
{
    shelf.fetch(name)?;
    read_all(alloc, shelf, most)
}
