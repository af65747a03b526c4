// What `fold` answers and writes. Each text is worked out by hand.
use sample_operations::{Backwards, First};
use sample_topologies::{
    COPIES_TO_ALL, LAST_VALUE, PAIRS, SENTENCES, TABLES_OF_SENTENCES, TURNED, WORD_COUNT, one_bolt,
};
use std::alloc::Global;
use std::sync::Wait;
use std::thread::Threads;
use storm_test_kit::storm_program::{Status, storm_fold};
use storm_test_kit::{
    CALM, Scene, call_custom, check_answer, check_refusal, plain_of, run_of, shelf, sink, taken,
};
use test_kit::{Mismatch, changed, compare};

// The words of a fold by so many workers, and by as many as there are where none are named.
const ALONE: [&str; 4] = ["fold", "t", "i", "1"];

const TWO: [&str; 4] = ["fold", "t", "i", "2"];

const THREE: [&str; 4] = ["fold", "t", "i", "3"];

const MOST: [&str; 4] = ["fold", "t", "i", "64"];

const SOME: [&str; 3] = ["fold", "t", "i"];

const WORDS: [&[&str]; 5] = [&ALONE, &TWO, &THREE, &MOST, &SOME];

// The first amount of each key, in place of the last.
const LAST: &str = r#""fold":"last""#;

const CUSTOM: &str = r#""fold":"custom""#;

const AMOUNTS: &str = "[\"x\",2]\n[\"x\",5]\n[\"x\",3]\n";

const FIRST_AMOUNT: &str = "cell last [\"x\"] 2\nok 3 records 3 batches\n";

const ATTEMPTS: &str = "attempt 1.1 records 1-1 ticks 0-0 committed\n\
attempt 2.1 records 2-2 ticks 0-0 committed\n\
attempt 3.1 records 3-3 ticks 0-0 committed\n";

// The first, the last, the sum and the greatest of the amounts of each key.
const FOUR_FOLDS: &str = r#"{"version":1,
 "spout":{"name":"pairs","kind":"transactional","fields":["k","v"],"batch":3},
 "bolts":[],
 "states":[
  {"name":"first","kind":"transactional","parts":1,"key":["k"],
   "fold":"custom","amount":"v","inputs":["pairs"]},
  {"name":"last","kind":"opaque","parts":2,"key":["k"],
   "fold":"last","amount":"v","inputs":["pairs"]},
  {"name":"sums","kind":"transactional","parts":3,"key":["k"],
   "fold":"sum","amount":"v","inputs":["pairs"]},
  {"name":"most","kind":"transactional","parts":1,"key":["k"],
   "fold":"max","amount":"v","inputs":["pairs"]}]}"#;

// Topologies, inputs, and their reports.
const REPORTS: [(&str, &str, &str); 6] = [
    (WORD_COUNT, SENTENCES, TABLES_OF_SENTENCES),
    (WORD_COUNT, "", "ok 0 records 0 batches\n"),
    (WORD_COUNT, "[\"\"]", "ok 1 records 1 batches\n"),
    (
        COPIES_TO_ALL,
        "[\"a b\"]\n[\"b\"]\n",
        "cell counts [\"a\"] 3\ncell counts [\"b\"] 6\nok 2 records 2 batches\n",
    ),
    // the bolt between turns each row round
    (
        TURNED,
        "[7,\"x\"]\n[8,\"x\"]\n[9,\"y\"]\n",
        "cell last [\"x\"] 8\ncell last [\"y\"] 9\nok 3 records 3 batches\n",
    ),
    (
        PAIRS,
        "[\"aa\",1]\n[\"b\",20]\n[\"b\",-5]\n[\"aa\",7]\n[\"ccc\",\"x\"]\n",
        r#"cell sums ["aa"] 8
cell sums ["b"] -5
cell most [1] -5
cell most [2] 7
cell all ["aa",1] 1
cell all ["aa",7] 1
cell all ["b",-5] 1
cell all ["b",20] 1
cell all ["ccc","x"] 1
ok 5 records 3 batches
"#,
    ),
];

// Operations that fail or stay mute in a run.
const UNSTEADY: [&str; 2] = [r#"{"do":"flaky","below":9}"#, r#"{"do":"mute","below":9}"#];

// Files, the status that they end with, and the line.
const REFUSED: [(Option<&str>, Option<&str>, u8, &str); 4] = [
    (None, Some(SENTENCES), 5, "read fault topology\n"),
    (Some(WORD_COUNT), None, 5, "read fault input\n"),
    (Some("{\"version\":1"), None, 3, "topology: no JSON\n"),
    (
        Some(WORD_COUNT),
        Some("[\"a\"]\n[1.5]"),
        4,
        "input: line 2: item 0 is no text and no whole number\n",
    ),
];

fn fold_of<'a>(words: &'a [&'a str], topology: &'a str, input: &'a str) -> Scene<'a> {
    Scene {
        words,
        ..run_of(topology, input)
    }
}

/// A call with an operation whose fold keeps the first amount.
fn check_by_first<R: Threads + Wait + Sync>(
    rt: &R,
    alloc: Global,
    scene: Scene<'_>,
    want: &str,
) -> Result<(), Mismatch> {
    let told = call_custom(rt, alloc, scene, CALM, &First)?;
    check_answer(alloc, &told, 0, want)
}

/// A hundred records of ten keys, ten of a key one after another, with the amounts 0 to 99.
fn hundred(alloc: Global) -> Result<String, Mismatch> {
    let mut input = String::new(alloc);
    for amount in 0..100 {
        let key = amount / 10;
        input.push_str(format!(in alloc; "[{key},{amount}]\n")?.as_str())?;
    }
    Ok(input)
}

/// The cells of a state, from the value of the first key by steps of so much.
fn cells(
    alloc: Global,
    report: &mut String,
    state: &str,
    first: u8,
    step: u8,
) -> Result<(), Mismatch> {
    for key in 0..10_u32 {
        let value = u32::from(first) + u32::from(step) * key;
        report.push_str(format!(in alloc; "cell {state} [{key}] {value}\n")?.as_str())?;
    }
    Ok(())
}

fn tables_of_hundred(alloc: Global) -> Result<String, Mismatch> {
    let mut report = String::new(alloc);
    cells(alloc, &mut report, "first", 0, 10)?;
    cells(alloc, &mut report, "last", 9, 10)?;
    cells(alloc, &mut report, "sums", 45, 100)?;
    cells(alloc, &mut report, "most", 9, 10)?;
    report.push_str("ok 100 records 34 batches\n")?;
    Ok(report)
}

#[test]
fn the_first_amount_of_each_key(rt: HostRuntime) -> Result<(), Mismatch> {
    let alloc = rt.alloc();
    let topology = changed(alloc, LAST_VALUE, LAST, CUSTOM)?;
    let topology = topology.as_str();
    let mut report = String::from_str(alloc, ATTEMPTS)?;
    report.push_str(FIRST_AMOUNT)?;
    check_by_first(&rt, alloc, run_of(topology, AMOUNTS), report.as_str())?;
    check_by_first(&rt, alloc, plain_of(topology, AMOUNTS), FIRST_AMOUNT)?;
    check_by_first(&rt, alloc, fold_of(&TWO, topology, AMOUNTS), FIRST_AMOUNT)
}

#[test]
fn reports_by_some_numbers_of_workers(rt: HostRuntime) -> Result<(), Mismatch> {
    for words in WORDS {
        for (topology, input, want) in REPORTS {
            let scene = fold_of(words, topology, input);
            check_refusal(&rt, rt.alloc(), scene, CALM, 0, want)?;
        }
    }
    Ok(())
}

#[test]
fn folds_keep_their_order_by_all_numbers_of_workers(rt: HostRuntime) -> Result<(), Mismatch> {
    let alloc = rt.alloc();
    let input = hundred(alloc)?;
    let want = tables_of_hundred(alloc)?;
    for workers in 1..=64 {
        let mut shelf = shelf(alloc, run_of(FOUR_FOLDS, input.as_str()), CALM)?;
        let mut sink = sink(alloc, CALM)?;
        let status = storm_fold(&rt, alloc, "t", "i", workers, &mut shelf, &mut sink, &First);
        assert!(rt; status == Status::Done);
        let text = taken(alloc, &sink)?;
        compare(alloc, "a fold", text.as_str(), want.as_str())?;
    }
    Ok(())
}

#[test]
fn nothing_fails(rt: HostRuntime) -> Result<(), Mismatch> {
    let alloc = rt.alloc();
    let want = "cell counts [\"a\"] 2\nok 2 records 2 batches\n";
    for op in UNSTEADY {
        let topology = one_bolt(alloc, "transactional", "transactional", op)?;
        let scene = fold_of(&TWO, topology.as_str(), "[\"a\"]\n[\"a\"]\n");
        check_refusal(&rt, alloc, scene, CALM, 0, want)?;
    }
    Ok(())
}

#[test]
fn refusals_of_files(rt: HostRuntime) -> Result<(), Mismatch> {
    for (topology, input, code, want) in REFUSED {
        let scene = Scene {
            words: &TWO,
            topology,
            input,
            schedule: None,
        };
        check_refusal(&rt, rt.alloc(), scene, CALM, code, want)?;
    }
    Ok(())
}

#[test]
fn a_fold_without_words(rt: HostRuntime) -> Result<(), Mismatch> {
    let alloc = rt.alloc();
    let mut shelf = shelf(alloc, run_of(TURNED, "[7,\"x\"]\n[8,\"x\"]"), CALM)?;
    let mut sink = sink(alloc, CALM)?;
    let status = storm_fold(&rt, alloc, "t", "i", 3, &mut shelf, &mut sink, &Backwards);
    assert!(rt; status == Status::Done);
    let text = taken(alloc, &sink)?;
    let want = "cell last [\"x\"] 8\nok 2 records 2 batches\n";
    compare(alloc, "a fold", text.as_str(), want)
}
