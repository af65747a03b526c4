// What is read of a schedule over the plan of a file.
use schedule_reader::{Event, read_schedule};
use std::alloc::Global;
use storm_values::Memory;
use test_kit::{Mismatch, compare};
use topology_plan::Plan;
use topology_reader::read_topology;

// Four tasks, of which the last is a part of the state, two ackers and three partitions.
const TOPOLOGY: &str = r#"{"version":2,
 "spout":{"name":"words","kind":"opaque","fields":["word"],"batch":1,"partitions":3},
 "bolts":[
  {"name":"turn","tasks":3,"op":{"do":"custom"},"inputs":[{"from":"words","grouping":"shuffle"}]}],
 "states":[{"name":"counts","kind":"opaque","parts":1,"key":["word"],
   "fold":"count","inputs":["turn"]}],
 "ackers":2}"#;

// A task and an acker, and no partition.
const WITHOUT_PARTITIONS: &str = r#"{"version":2,
 "spout":{"name":"words","kind":"transactional","fields":["word"],"batch":1},
 "bolts":[],
 "states":[{"name":"counts","kind":"opaque","parts":1,"key":["word"],
   "fold":"count","inputs":["words"]}]}"#;

fn case_of(alloc: Global, of: &str) -> Mismatch {
    match String::from_str(alloc, of) {
        Ok(text) => Mismatch::Case(text),
        Err(_) => Mismatch::Memory,
    }
}

fn plan_of(alloc: Global, topology: &str) -> Result<Plan, Mismatch> {
    match read_topology(alloc, topology.as_bytes()) {
        Ok(plan) => Ok(plan),
        Err(_) => Err(case_of(alloc, topology)),
    }
}

// Compares the events of a schedule with what they are to be.
pub fn check_events(alloc: Global, schedule: &str, want: &[Event]) -> Result<(), Mismatch> {
    let plan = plan_of(alloc, TOPOLOGY)?;
    match read_schedule(alloc, schedule.as_bytes(), &plan) {
        Ok(events) if events.as_slice() == want => Ok(()),
        _ => Err(case_of(alloc, schedule)),
    }
}

// How many events the bytes have, or what is printed of their fault.
pub fn told(alloc: Global, bytes: &[u8], plan: &Plan) -> Result<String, Memory> {
    match read_schedule(alloc, bytes, plan) {
        Ok(events) => {
            let count = events.len();
            format!(in alloc; "events {count}")
        }
        Err(fault) => format!(in alloc; "{fault}"),
    }
}

// Compares what is told of some bytes with what is to be told.
pub fn check_bytes(alloc: Global, of: &str, bytes: &[u8], want: &str) -> Result<(), Mismatch> {
    let plan = plan_of(alloc, TOPOLOGY)?;
    let told = told(alloc, bytes, &plan)?;
    compare(alloc, of, told.as_str(), want)
}

// The same for each schedule of a table.
pub fn check_table(alloc: Global, table: &[(&str, &str)]) -> Result<(), Mismatch> {
    check_table_over(alloc, TOPOLOGY, table)
}

// The same over a plan without partitions.
pub fn check_without_partitions(alloc: Global, table: &[(&str, &str)]) -> Result<(), Mismatch> {
    check_table_over(alloc, WITHOUT_PARTITIONS, table)
}

fn check_table_over(alloc: Global, topology: &str, table: &[(&str, &str)]) -> Result<(), Mismatch> {
    let plan = plan_of(alloc, topology)?;
    for (schedule, want) in table {
        let told = told(alloc, schedule.as_bytes(), &plan)?;
        compare(alloc, schedule, told.as_str(), want)?;
    }
    Ok(())
}
