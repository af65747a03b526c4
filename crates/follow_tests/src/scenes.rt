// Topologies, inputs, and the tables of all records.
ghost use Rattle.std.specs.Prelude.{◌≡◌, All, IfOk, length};
ghost use Rattle.event_worlds.specs.Accounted.{IsInput};
ghost use Rattle.event_worlds.specs.storm_values.Rows.{IsRow};

use crate::listener::Line;
use event_worlds::record_offers::{Offers, possible};
use event_worlds::record_spans::{Spans, are_apart, are_within};
use event_worlds::storm_values::{Rows, read_input};
use event_worlds::taken_records::possible_starts_are_starts;
use event_worlds::topology_plan::Plan;
use event_worlds::tree_model::{Pair, Tables};
use std::alloc::Global;
use test_kit::Mismatch;
use topology_reader::read_topology;

/// A topology over the sentences, and a schedule. Where it shuts a partition at first, so does a
/// run with ticks, by this first answer.
#[derive(Clone, Copy)]
pub struct Scene {
    pub topology: &'static str,
    pub schedule: &'static str,
    pub shut: u16,
}

/// Seven sentences, in four batches of at most two.
const SENTENCES: &str = "[\"a b\"]
[\"a\"]
[\"c a\"]
[\"b\"]
[\"a d\"]
[\"c\"]
[\"a\"]
";

/// The number of the last batch.
pub const LAST: u64 = 4;

// So many records an input has at most.
const MOST: u64 = 100;

/// The counts of all words.
const COUNTS: [(&str, i128); 4] = [
    ("[\"a\"]", 5),
    ("[\"b\"]", 2),
    ("[\"c\"]", 2),
    ("[\"d\"]", 1),
];

/// A word count over a transactional state.
pub const TRANSACTIONAL: Scene = Scene {
    topology: r#"{"version":1,
 "spout":{"name":"lines","kind":"transactional","fields":["sentence"],"batch":2},
 "bolts":[{"name":"split","tasks":2,"op":{"do":"split","field":"sentence","as":"word"},
   "inputs":[{"from":"lines","grouping":"shuffle"}]}],
 "states":[{"name":"counts","kind":"transactional","parts":2,"key":["word"],
   "fold":"count","inputs":["split"]}],
 "ackers":2,"pending":2}"#,
    schedule: "rounds 200",
    shut: 0,
};

/// The same over an opaque state.
pub const OPAQUE: Scene = Scene {
    topology: r#"{"version":1,
 "spout":{"name":"lines","kind":"opaque","fields":["sentence"],"batch":2},
 "bolts":[{"name":"split","tasks":2,"op":{"do":"split","field":"sentence","as":"word"},
   "inputs":[{"from":"lines","grouping":"shuffle"}]}],
 "states":[{"name":"counts","kind":"opaque","parts":2,"key":["word"],
   "fold":"count","inputs":["split"]}],
 "ackers":2,"pending":2}"#,
    schedule: "rounds 200",
    shut: 0,
};

/// The same over a spout with two partitions, the second of which is shut in the first turn. So the
/// batches are the records 1 and 3, 5 and 7, 2 and 4, and 6.
pub const PARTITIONED: Scene = Scene {
    topology: r#"{"version":2,
 "spout":{"name":"lines","kind":"opaque","fields":["sentence"],"batch":2,"partitions":2},
 "bolts":[{"name":"split","tasks":2,"op":{"do":"split","field":"sentence","as":"word"},
   "inputs":[{"from":"lines","grouping":"shuffle"}]}],
 "states":[{"name":"counts","kind":"opaque","parts":2,"key":["word"],
   "fold":"count","inputs":["split"]}],
 "ackers":2,"pending":2}"#,
    schedule: "shut 1\ncoord\nopen 1\nrounds 200",
    shut: 2,
};

pub fn case_of(alloc: Global, of: &str) -> Mismatch {
    match String::from_str(alloc, of) {
        Ok(text) => Mismatch::Case(text),
        Err(_) => Mismatch::Memory,
    }
}

pub fn plan_of(alloc: Global, topology: &str) -> Result<Plan, Mismatch> {
    match read_topology(alloc, topology.as_bytes()) {
        Ok(plan) => Ok(plan),
        Err(_) => Err(case_of(alloc, topology)),
    }
}

fn rows_of(alloc: Global, plan: &Plan) -> Result<Rows, Mismatch>
    ensures { IfOk result (All (IsRow (length plan.now.spout_fields))) }
{
    match read_input(alloc, SENTENCES.as_bytes(), plan.spout_fields()) {
        Ok(rows) => Ok(rows),
        Err(_) => Err(case_of(alloc, SENTENCES)),
    }
}

/// What the spout offers after a transaction, where these records are gone.
pub fn offers_after(alloc: Global, plan: &Plan, txid: u64, gone: &Spans) -> Result<Offers, Mismatch>
    ensures input { IfOk result (λ offers. IsInput plan.now offers) }
    ensures start { IfOk result (λ offers. offers.start ≡ txid) }
{
    possible_starts_are_starts();
    plan.facts();
    let rows = rows_of(alloc, plan)?;
    let records = rows.len() as u64;
    let (size, partitions) = (plan.batch(), plan.partitions());
    if txid > LAST || records > MOST {
        return Err(case_of(alloc, "numbers"));
    }
    if !possible(size, partitions, records, txid, gone.as_slice()) {
        return Err(case_of(alloc, "start"));
    }
    Ok(Offers::after(rows, size, partitions, txid, gone)?)
}

/// The records of some commits, which are gone after these.
pub fn gone_after(alloc: Global, plan: &Plan, lines: &[Line]) -> Result<Spans, Mismatch> {
    let mut offers = offers_after(alloc, plan, 0, &Spans::new(alloc))?;
    for line in lines {
        take(alloc, &mut offers, &line.spans)?;
    }
    Ok(offers.gone_spans()?)
}

fn take(alloc: Global, offers: &mut Offers, spans: &Spans) -> Result<(), Mismatch> {
    let records = offers.rows().len() as u64;
    if !are_apart(spans.as_slice()) || !are_within(spans.as_slice(), records) {
        return Err(case_of(alloc, "spans"));
    }
    offers.take(spans);
    Ok(())
}

fn is_pair(pair: &Pair, want: (&str, i128)) -> bool {
    pair.key.as_str() == want.0 && pair.value == want.1
}

/// Whether these are the tables of all records.
pub fn are_whole(tables: &Tables) -> bool {
    let [table] = tables.as_slice() else {
        return false;
    };
    let pairs = table.pairs.as_slice();
    for (pair, want) in pairs.iter().zip(&COUNTS) {
        if !is_pair(pair, *want) {
            return false;
        }
    }
    pairs.len() == COUNTS.len()
}
