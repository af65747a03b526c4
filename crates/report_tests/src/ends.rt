// Attempts with every end, and tables.
use attempt_fates::{Attempt, End, Fates};
use message_lists::Notes;
use record_spans::{Span, Spans};
use run_report::{Tail, print_report, report_of, report_text};
use std::alloc::Global;
use test_kit::{Mismatch, compare};
use topology_reader::read_topology;
use tree_model::storm_values::{Path, Root, Txt};
use tree_model::topology_plan::Plan;
use tree_model::tuple_tickets::{Edge, Edges};
use tree_model::{AckMsg, Done, Draw, Init, Pair, Pairs, Table, Tables, Writes};

/// The end of an attempt, in short: of a list that coincided the edges of its init.
#[derive(Clone, Copy)]
pub enum How {
    Committed,
    Failed(&'static [u32]),
    TimedOut,
    Coincided(&'static [(&'static [u32], u64)]),
    CommitFailed(u32, u32),
    Dropped(Root),
}

/// The first and the last number of each span of records.
pub type Records = &'static [(u64, u64)];

/// An attempt: its transaction and its number, its records, the ticks of its begin and its end, and
/// how it ended.
pub type Ended = ((u64, u32), Records, u64, u64, How);

/// A key of the state, with its value.
pub type Cell = (&'static str, i128);

/// The word count of one state, which is the component 1.
const WORD_COUNT: &str = r#"{"version":1,
 "spout":{"name":"lines","kind":"transactional","fields":["sentence"],"batch":2},
 "bolts":[{"name":"split","tasks":2,
   "op":{"do":"split","field":"sentence","as":"word"},
   "inputs":[{"from":"lines","grouping":"shuffle"}]}],
 "states":[{"name":"counts","kind":"transactional","parts":2,"key":["word"],
   "fold":"count","inputs":["split"]}],
 "ackers":2,"pending":4,"buckets":3,"attempts":9}"#;

fn plan_of(alloc: Global) -> Result<Plan, Mismatch> {
    match read_topology(alloc, WORD_COUNT.as_bytes()) {
        Ok(plan) => Ok(plan),
        Err(_) => Err(Mismatch::Case(String::from_str(alloc, WORD_COUNT)?)),
    }
}

const ROOT: Root = Root {
    txid: 1,
    attempt: 1,
};

const DRAW: Draw = Draw {
    source: 0,
    first: 0,
};

fn edges_of(alloc: Global, edges: &[(&[u32], u64)]) -> Result<Edges, Mismatch> {
    let mut made = Edges::new(alloc);
    for (path, id) in edges {
        let path = Path::from_slice(alloc, path)?;
        made.push(Edge { path, id: *id })?;
    }
    Ok(made)
}

// The list of an init with these edges.
fn list_of(alloc: Global, edges: &[(&[u32], u64)]) -> Result<Notes, Mismatch> {
    let mut list = Notes::new(alloc);
    list.push(AckMsg::Init(Init {
        root: ROOT,
        edges: edges_of(alloc, edges)?,
        draw: DRAW,
    }))?;
    Ok(list)
}

fn end_of(alloc: Global, how: How) -> Result<End, Mismatch> {
    match how {
        How::Committed => Ok(End::Committed(Notes::new(alloc))),
        How::Failed(path) => Ok(End::Failed(Path::from_slice(alloc, path)?)),
        How::TimedOut => Ok(End::TimedOut),
        How::Coincided(edges) => Ok(End::Coincided(list_of(alloc, edges)?)),
        How::CommitFailed(component, part) => Ok(End::CommitFailed {
            component,
            part,
            before: 0,
            after: 1,
        }),
        How::Dropped(by) => Ok(End::Dropped(by)),
    }
}

fn spans_of(alloc: Global, records: Records) -> Result<Spans, Mismatch> {
    let mut spans = Spans::new(alloc);
    for (first, last) in records {
        spans.push(Span {
            first: *first,
            last: *last,
        })?;
    }
    Ok(spans)
}

fn fates_of(alloc: Global, attempts: &[Ended]) -> Result<Fates, Mismatch> {
    let mut fates = Fates::new(alloc);
    for ((txid, attempt), records, start, finish, how) in attempts {
        fates.push(Attempt {
            root: Root {
                txid: *txid,
                attempt: *attempt,
            },
            spans: spans_of(alloc, records)?,
            start: *start,
            finish: *finish,
            end: end_of(alloc, *how)?,
        })?;
    }
    Ok(fates)
}

fn tables_of(alloc: Global, cells: &[Cell]) -> Result<Tables, Mismatch> {
    let mut pairs = Pairs::new(alloc);
    for (key, value) in cells {
        let key = Txt::from_str(alloc, key)?;
        pairs.push(Pair { key, value: *value })?;
    }
    let mut tables = Tables::new(alloc);
    let name = Txt::from_str(alloc, "counts")?;
    tables.push(Table { name, pairs })?;
    Ok(tables)
}

/// Prints a report of the word count, and compares it with the text that it is to be.
pub fn check_report(
    alloc: Global,
    attempts: &[Ended],
    cells: &[Cell],
    tail: Tail,
    want: &str,
) -> Result<(), Mismatch> {
    let plan = plan_of(alloc)?;
    let fates = fates_of(alloc, attempts)?;
    let tables = tables_of(alloc, cells)?;
    let text = report_text(alloc, &plan, fates.as_slice(), tables.as_slice(), tail)?;
    compare(alloc, "a report", text.as_str(), want)?;
    check_value(
        alloc,
        &plan,
        fates.as_slice(),
        tables.as_slice(),
        tail,
        want,
    )
}

// The same report as a value, printed.
fn check_value(
    alloc: Global,
    plan: &Plan,
    fates: &[Attempt],
    tables: &[Table],
    tail: Tail,
    want: &str,
) -> Result<(), Mismatch> {
    let report = report_of(alloc, plan, fates, tables, tail)?;
    let text = print_report(alloc, &report)?;
    compare(alloc, "a report as a value", text.as_str(), want)
}
