// Reports of a few dozen records, which are those of one worker, with the plain tables.
use crate::numbers::EACH_NUMBER;
use sample_topologies::WORD_COUNT;
use std::alloc::Global;
use std::fmt::Write;
use std::sync::Wait;
use std::thread::Threads;
use storm_test_kit::{
    CALM, Scene, Told, call, check_call, check_tables, plain_of, run_alone, run_of,
};
use storm_values::Memory;
use test_kit::Mismatch;

const LINES: u32 = 36;

fn sentences(alloc: Global) -> Result<String, Memory> {
    let mut text = String::new(alloc);
    for line in 0..LINES {
        let (a, b, c) = (line % 5, line % 11, line / 8);
        writeln!(text, "[\"all w{a} w{b} {c} w{a}\"]")?;
    }
    Ok(text)
}

// What one worker tells, whose tables are the plain ones.
fn told_alone<R: Threads + Wait + Sync>(
    rt: &R,
    alloc: Global,
    topology: &str,
    input: &str,
) -> Result<Told, Mismatch> {
    let plain = call(rt, alloc, plain_of(topology, input), CALM)?;
    let scene = run_alone(topology, input);
    check_tables(rt, alloc, scene, CALM, plain.text.as_str())?;
    call(rt, alloc, scene, CALM)
}

#[test]
fn any_number_of_workers_prints_one_report(rt: HostRuntime) -> Result<(), Mismatch> {
    let alloc = rt.alloc();
    let input = sentences(alloc)?;
    let want = told_alone(&rt, alloc, WORD_COUNT, input.as_str())?;
    for words in EACH_NUMBER {
        let scene = Scene {
            words,
            ..run_of(WORD_COUNT, input.as_str())
        };
        check_call(&rt, alloc, scene, CALM, 0, want.text.as_str())?;
    }
    Ok(())
}

// Runs a topology over the sentences so many times.
fn run_often<R: Threads + Wait + Sync>(
    rt: &R,
    alloc: Global,
    topology: &str,
    times: u32,
) -> Result<(), Mismatch> {
    let input = sentences(alloc)?;
    let want = told_alone(rt, alloc, topology, input.as_str())?;
    for _time in 0..times {
        let scene = run_of(topology, input.as_str());
        check_call(rt, alloc, scene, CALM, 0, want.text.as_str())?;
    }
    Ok(())
}

#[test]
fn a_hundred_word_counts_are_one(rt: HostRuntime) -> Result<(), Mismatch> {
    run_often(&rt, rt.alloc(), WORD_COUNT, 100)
}

// Seven bolts in a row, which leave each sentence as it is, and a count behind them. From one to
// the next a tuple mostly comes to another worker.
const CHAIN: &str = r#"{"version":1,
 "spout":{"name":"lines","kind":"transactional","fields":["sentence"],"batch":2},
 "bolts":[
  {"name":"first","tasks":2,"op":{"do":"project","fields":["sentence"]},
   "inputs":[{"from":"lines","grouping":"shuffle"}]},
  {"name":"second","tasks":2,"op":{"do":"project","fields":["sentence"]},
   "inputs":[{"from":"first","grouping":"shuffle"}]},
  {"name":"third","tasks":2,"op":{"do":"project","fields":["sentence"]},
   "inputs":[{"from":"second","grouping":"shuffle"}]},
  {"name":"fourth","tasks":2,"op":{"do":"project","fields":["sentence"]},
   "inputs":[{"from":"third","grouping":"shuffle"}]},
  {"name":"fifth","tasks":2,"op":{"do":"project","fields":["sentence"]},
   "inputs":[{"from":"fourth","grouping":"shuffle"}]},
  {"name":"sixth","tasks":2,"op":{"do":"project","fields":["sentence"]},
   "inputs":[{"from":"fifth","grouping":"shuffle"}]},
  {"name":"seventh","tasks":2,"op":{"do":"project","fields":["sentence"]},
   "inputs":[{"from":"sixth","grouping":"shuffle"}]}],
 "states":[{"name":"counts","kind":"transactional","parts":2,"key":["sentence"],
   "fold":"count","inputs":["seventh"]}],
 "ackers":2,"pending":4}"#;

#[test]
fn a_hundred_runs_of_a_chain_are_one(rt: HostRuntime) -> Result<(), Mismatch> {
    run_often(&rt, rt.alloc(), CHAIN, 100)
}
