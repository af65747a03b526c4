// Commits of a topology with a state of each fold.
use state_reader::Seen;
use std::alloc::Global;
use topology_reader::{TopoFault, read_topology};
use tree_model::storm_values::{Memory, Txt};
use tree_model::topology_plan::Plan;
use tree_model::{Write, Writes};

// The states have the component numbers 0 to 3.
const TOPOLOGY: &str = r#"{"version":1,
 "spout":{"name":"pairs","kind":"transactional","fields":["k","v"],"batch":1},
 "bolts":[],
 "states":[
  {"name":"counts","kind":"transactional","parts":1,"key":["k"],"fold":"count","inputs":["pairs"]},
  {"name":"sums","kind":"transactional","parts":1,"key":["k"],"fold":"sum","amount":"v",
   "inputs":["pairs"]},
  {"name":"lasts","kind":"transactional","parts":1,"key":["k"],"fold":"last","amount":"v",
   "inputs":["pairs"]},
  {"name":"tops","kind":"transactional","parts":1,"key":["k"],"fold":"max","amount":"v",
   "inputs":["pairs"]}]}"#;

pub const COUNTS: u32 = 0;

pub const SUMS: u32 = 1;

pub const LASTS: u32 = 2;

pub const TOPS: u32 = 3;

/// A key of a few bytes.
pub const SHORT: &str = r#"["the"]"#;

/// A key of more bytes than lie in place.
pub const LONG: &str = r#"["a key of more than thirty bytes, all told"]"#;

pub fn plan(alloc: Global) -> Result<Plan, TopoFault> {
    read_topology(alloc, TOPOLOGY.as_bytes())
}

/// Adds a write for a key of a state.
pub fn add(
    alloc: Global,
    writes: &mut Writes,
    state: u32,
    key: &str,
    amount: i64,
) -> Result<(), Memory> {
    writes.push(Write {
        state,
        part: 0,
        key: Txt::from_str(alloc, key)?,
        amount,
    })
}

/// A commit of one write.
pub fn one(alloc: Global, state: u32, key: &str, amount: i64) -> Result<Writes, Memory> {
    let mut writes = Writes::new(alloc);
    add(alloc, &mut writes, state, key, amount)?;
    Ok(writes)
}

/// A commit of an amount for the states of all folds.
pub fn all(alloc: Global, key: &str, amount: i64) -> Result<Writes, Memory> {
    let mut writes = one(alloc, COUNTS, key, 1)?;
    add(alloc, &mut writes, SUMS, key, amount)?;
    add(alloc, &mut writes, LASTS, key, amount)?;
    add(alloc, &mut writes, TOPS, key, amount)?;
    Ok(writes)
}

pub fn seen(commits: u64, value: i128) -> Seen {
    Seen {
        commits,
        value: Some(value),
    }
}

pub fn none(commits: u64) -> Seen {
    Seen {
        commits,
        value: None,
    }
}
