// What collectors of spouts emit, by hand from the rule of each grouping.
use crate::calls::{Sent, case_of, check_sent, ids_of, plan_of, row_of};
use output_collector::{Collector, Emitted};
use std::alloc::Global;
use test_kit::Mismatch;
use tree_model::storm_values::{Path, Root, Rows};
use tree_model::topology_plan::Origin;
use tree_model::{Draw, Edge, Parcels};

const ROOT: Root = Root {
    txid: 3,
    attempt: 1,
};

// The number of the spout's source of words.
const SOURCE: u32 = 9;

// What is emitted of some lines: with these words, and so many start words among them.
struct Case {
    file: &'static str,
    words: &'static [u64],
    starts: u64,
    lines: &'static [&'static str],
    sent: &'static [Sent],
}

fn rows_of(alloc: Global, lines: &[&str]) -> Result<Rows, Mismatch> {
    let mut rows = Rows::new(alloc);
    for line in lines {
        rows.push(row_of(alloc, line, 1)?)?;
    }
    Ok(rows)
}

fn is_edge(edge: &Edge, want: &Sent) -> bool {
    let placed = edge.path.as_slice() == want.path;
    placed & (edge.id == want.id)
}

fn check_edges(alloc: Global, emitted: &Emitted, case: &Case) -> Result<(), Mismatch> {
    let draw = Draw {
        source: SOURCE,
        first: case.starts,
    };
    let drawn = emitted.draw == draw;
    let counted = emitted.edges.len() == case.sent.len();
    if !(drawn & counted) {
        return Err(case_of(alloc, case.file));
    }
    for (edge, want) in emitted.edges.as_slice().iter().zip(case.sent) {
        if !is_edge(edge, want) {
            return Err(case_of(alloc, want.first));
        }
    }
    Ok(())
}

fn check_parcels(alloc: Global, parcels: &Parcels, sent: &[Sent]) -> Result<(), Mismatch> {
    if parcels.len() != sent.len() {
        return Err(case_of(alloc, "parcels"));
    }
    for (parcel, want) in parcels.as_slice().iter().zip(sent) {
        check_sent(alloc, parcel, want)?;
    }
    Ok(())
}

fn check(alloc: Global, case: &Case) -> Result<(), Mismatch> {
    let plan = plan_of(alloc, case.file)?;
    let ids = ids_of(alloc, SOURCE, case.words)?;
    let mut collector = Collector::new(alloc, &plan, Origin::Spout, SOURCE, ids)?;
    let mut parcels = Parcels::new(alloc);
    let rows = rows_of(alloc, case.lines)?;
    let emitted = collector.emit(ROOT, &Path::new(alloc), rows, &mut parcels)?;
    check_edges(alloc, &emitted, case)?;
    check_parcels(alloc, &parcels, case.sent)
}

// Component 0 has the tasks 0 and 1, component 1 the tasks 2 to 4, and the state the task 5.
const SHUFFLES: &str = r#"{"version":1,
 "spout":{"name":"words","kind":"transactional","fields":["word"],"batch":2},
 "bolts":[
  {"name":"two","tasks":2,"op":{"do":"custom"},"inputs":[{"from":"words","grouping":"shuffle"}]},
  {"name":"three","tasks":3,"op":{"do":"custom"},"inputs":[{"from":"words","grouping":"shuffle"}]}],
 "states":[{"name":"counts","kind":"transactional","parts":1,"key":["word"],
   "fold":"count","inputs":["two","three"]}]}"#;

// The shuffles begin at 0 % 2 and 4 % 3.
const TWO_SUBSCRIPTIONS: Case = Case {
    file: SHUFFLES,
    words: &[0, 4, 30, 31, 32, 33],
    starts: 2,
    lines: &["[7]", "[8]"],
    sent: &[
        Sent {
            task: 0,
            component: 0,
            path: &[0],
            id: 30,
            first: "[7]",
        },
        Sent {
            task: 3,
            component: 1,
            path: &[1],
            id: 31,
            first: "[7]",
        },
        Sent {
            task: 1,
            component: 0,
            path: &[2],
            id: 32,
            first: "[8]",
        },
        Sent {
            task: 4,
            component: 1,
            path: &[3],
            id: 33,
            first: "[8]",
        },
    ],
};

#[test]
fn each_row_goes_to_both_subscriptions(rt: HostRuntime) -> Result<(), Mismatch> {
    check(rt.alloc(), &TWO_SUBSCRIPTIONS)
}

const WORD_COUNT: &str = r#"{"version":1,
 "spout":{"name":"lines","kind":"transactional","fields":["line"],"batch":2},
 "bolts":[{"name":"split","tasks":2,"op":{"do":"split","field":"line","as":"word"},
   "inputs":[{"from":"lines","grouping":"shuffle"}]}],
 "states":[{"name":"counts","kind":"transactional","parts":2,"key":["word"],
   "fold":"count","inputs":["split"]}]}"#;

const FROM_THE_SECOND_TASK: Case = Case {
    file: WORD_COUNT,
    words: &[1, 5, 6],
    starts: 1,
    lines: &["[\"a b\"]", "[\"c\"]"],
    sent: &[
        Sent {
            task: 1,
            component: 0,
            path: &[0],
            id: 5,
            first: "[\"a b\"]",
        },
        Sent {
            task: 0,
            component: 0,
            path: &[1],
            id: 6,
            first: "[\"c\"]",
        },
    ],
};

const FROM_THE_FIRST_TASK: Case = Case {
    file: WORD_COUNT,
    words: &[0, 5, 6],
    starts: 1,
    lines: &["[\"a b\"]", "[\"c\"]"],
    sent: &[
        Sent {
            task: 0,
            component: 0,
            path: &[0],
            id: 5,
            first: "[\"a b\"]",
        },
        Sent {
            task: 1,
            component: 0,
            path: &[1],
            id: 6,
            first: "[\"c\"]",
        },
    ],
};

#[test]
fn the_first_word_is_the_start_word(rt: HostRuntime) -> Result<(), Mismatch> {
    check(rt.alloc(), &FROM_THE_SECOND_TASK)?;
    check(rt.alloc(), &FROM_THE_FIRST_TASK)
}

const ALL: &str = r#"{"version":1,
 "spout":{"name":"words","kind":"transactional","fields":["word"],"batch":2},
 "bolts":[{"name":"every","tasks":2,"op":{"do":"custom"},
   "inputs":[{"from":"words","grouping":"all"}]}],
 "states":[{"name":"counts","kind":"transactional","parts":1,"key":["word"],
   "fold":"count","inputs":["every"]}]}"#;

const COPIES: Case = Case {
    file: ALL,
    words: &[9, 20, 21, 22, 23],
    starts: 1,
    lines: &["[7]", "[8]"],
    sent: &[
        Sent {
            task: 0,
            component: 0,
            path: &[0],
            id: 20,
            first: "[7]",
        },
        Sent {
            task: 1,
            component: 0,
            path: &[1],
            id: 21,
            first: "[7]",
        },
        Sent {
            task: 0,
            component: 0,
            path: &[2],
            id: 22,
            first: "[8]",
        },
        Sent {
            task: 1,
            component: 0,
            path: &[3],
            id: 23,
            first: "[8]",
        },
    ],
};

#[test]
fn all_gives_each_task_a_copy(rt: HostRuntime) -> Result<(), Mismatch> {
    check(rt.alloc(), &COPIES)
}

// An id of another tuple.
const ANOTHER_ID: Case = Case {
    file: WORD_COUNT,
    words: &[0, 5],
    starts: 1,
    lines: &["[\"c\"]"],
    sent: &[Sent {
        task: 0,
        component: 0,
        path: &[0],
        id: 6,
        first: "[\"c\"]",
    }],
};

#[test]
fn what_is_not_sent_is_told(rt: HostRuntime) {
    assert!(rt; matches!(check(rt.alloc(), &ANOTHER_ID), Err(Mismatch::Case(_))));
}
