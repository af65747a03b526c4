// Two states of two parts each: counts of words, transactional, and sums of numbers, opaque.
ghost use Rattle.std.specs.Prelude.{◌≡◌, ℕ, IfOk};
ghost use Rattle.storm_stores.specs.MemoryMaker.{HasMade};
ghost use Rattle.state_parts.specs.Makers.{AreMade};
ghost use Rattle.state_parts.specs.PartPlans.{plans_of};

use sample_operations::Backwards;
use state_cells::PartFault;
use state_parts::{Commit, CommitFault, CommitOutcome, Parts};
use std::alloc::Global;
use storm_stores::{CallKind, FailAt, MemMaker, MemStore};
use topology_reader::{TopoFault, read_topology};
use tree_model::storm_values::{Bytes, Memory, Root, Seq, Txt};
use tree_model::topology_plan::Plan;
use tree_model::{PackedWrites, Table, Write};

const TWO_STATES: &str = r#"{"version":1,
 "spout":{"name":"lines","kind":"transactional","fields":["word","n"],"batch":2},
 "bolts":[],
 "states":[
  {"name":"counts","kind":"transactional","parts":2,"key":["word"],"fold":"count",
   "inputs":["lines"]},
  {"name":"sums","kind":"opaque","parts":2,"key":["word"],"fold":"sum","amount":"n",
   "inputs":["lines"]}],
 "ackers":1,"pending":1,"buckets":2,"attempts":1}"#;

// Why a test fails.
#[derive(Debug, Drop)]
pub enum Trouble {
    Topology(TopoFault),
    Commit(CommitFault),
    Part(PartFault),
    Memory,
    // The commit came to something else.
    Outcome,
}

impl From<TopoFault> for Trouble {
    fn from(fault: TopoFault) -> Self {
        Trouble::Topology(fault)
    }
}

impl From<CommitFault> for Trouble {
    fn from(fault: CommitFault) -> Self {
        Trouble::Commit(fault)
    }
}

impl From<PartFault> for Trouble {
    fn from(fault: PartFault) -> Self {
        Trouble::Part(fault)
    }
}

impl From<Memory> for Trouble {
    fn from(_: Memory) -> Self {
        Trouble::Memory
    }
}

pub fn plan(alloc: Global) -> Result<Plan, TopoFault> {
    read_topology(alloc, TWO_STATES.as_bytes())
}

pub fn bytes(alloc: Global, text: &[u8]) -> Result<Bytes, Memory> {
    Ok(Bytes::from_vec(text.to_vec(alloc)?))
}

// A put that fails and does nothing.
pub const FIRST_PUT: FailAt = FailAt {
    kind: CallKind::Put,
    number: 1,
    happened: false,
};

// State, part, key and amount of each write of the batch. The hash of a key chooses its part.
const BATCH: [(u32, u32, &str, i64); 6] = [
    (0, 0, "[\"the\"]", 1),
    (1, 0, "[\"the\"]", 5),
    (0, 1, "[\"cat\"]", 1),
    (1, 1, "[\"cat\"]", -2),
    (0, 0, "[\"the\"]", 1),
    (1, 0, "[\"the\"]", 4),
];

fn commit_of(alloc: Global, txid: u64) -> Result<Commit, Memory> {
    let mut writes = PackedWrites::with_capacity(alloc, BATCH.len())?;
    for (state, part, key, amount) in BATCH {
        writes.push(&Write {
            state,
            part,
            key: Txt::from_str(alloc, key)?,
            amount,
        })?;
    }
    Ok(Commit {
        root: Root { txid, attempt: 1 },
        spans: Seq::new(alloc),
        writes,
    })
}

// Commits the batch as this transaction.
pub fn commit(
    alloc: Global,
    parts: &mut Parts<MemStore>,
    txid: u64,
) -> Result<CommitOutcome, Trouble>
    ensures { plans_of parts.new ≡ plans_of parts.old }
{
    let commit = commit_of(alloc, txid)?;
    Ok(parts.commit_all(&commit, &Backwards)?)
}

// The parts over these stores, after one commit of the batch, whatever came of it.
pub fn committed(
    alloc: Global,
    plan: &Plan,
    stores: &mut MemMaker,
) -> Result<Parts<MemStore>, Trouble>
    ensures { IfOk result (λ parts. AreMade HasMade stores.new (plans_of parts)) }
{
    let mut parts = Parts::make(alloc, plan, stores)?;
    commit(alloc, &mut parts, 1)?;
    Ok(parts)
}

// The stores after one commit of the batch by parts that gave them back.
pub fn commit_and_give_back(
    alloc: Global,
    plan: &Plan,
    stores: &mut MemMaker,
) -> Result<(), Trouble> {
    let parts = committed(alloc, plan, stores)?;
    parts.give_back(stores);
    Ok(())
}

// Lets the first put of a part fail, before any store is made.
pub fn refuse(stores: &mut MemMaker, component: u32, part: u32) -> Result<(), Memory>
    requires { (c p : ℕ) → HasMade stores.old c p → ⊥ }
    ensures { (c p : ℕ) → HasMade stores.new c p → ⊥ }
{
    stores.fail(component, part, FIRST_PUT)
}

pub fn is_table(table: &Table, name: &str, rows: &[(&str, i128)]) -> bool {
    if table.name.as_str() != name || table.pairs.len() != rows.len() {
        return false;
    }
    for (pair, (key, value)) in table.pairs.as_slice().iter().zip(rows) {
        if pair.key.as_str() != *key || pair.value != *value {
            return false;
        }
    }
    true
}

// Whether the tables of the two states have these rows.
pub fn has_tables(
    parts: &mut Parts<MemStore>,
    plan: &Plan,
    counts: &[(&str, i128)],
    sums: &[(&str, i128)],
) -> Result<bool, PartFault> {
    let tables = parts.tables(plan)?;
    match tables.as_slice() {
        [first, second] => Ok(is_table(first, "counts", counts) && is_table(second, "sums", sums)),
        _ => Ok(false),
    }
}
