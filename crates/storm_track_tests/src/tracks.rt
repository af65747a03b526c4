// What `track` answers and writes. Each text is worked out by hand.
use sample_operations::Backwards;
use sample_topologies::{COPIES_TO_ALL, SENTENCES, TURNED, WORD_COUNT, one_bolt};
use std::alloc::Global;
use std::sync::Wait;
use std::thread::Threads;
use storm_test_kit::storm_program::{Status, storm_track};
use storm_test_kit::{
    CALM, Outside, Scene, Script, check_refusal, run_of, scripted_ids, shelf, sink, taken,
};
use test_kit::{Mismatch, changed, compare};

// The words of a tracking by one worker, by eight, and by as many as there are where none are
// named.
const ALONE: [&str; 4] = ["track", "t", "i", "1"];

const EIGHT: [&str; 4] = ["track", "t", "i", "8"];

const SOME: [&str; 3] = ["track", "t", "i"];

const WORDS: [&[&str]; 3] = [&ALONE, &EIGHT, &SOME];

// A count of words beside a bolt, before which nothing fails.
const BESIDE: &str = r#"{"version":1,
 "spout":{"name":"words","kind":"transactional","fields":["word"],"batch":1},
 "bolts":[{"name":"shaky","tasks":1,"op":OP,
   "inputs":[{"from":"words","grouping":"shuffle"}]}],
 "states":[{"name":"counts","kind":"transactional","parts":1,"key":["word"],
   "fold":"count","inputs":["words"]}],
 "ackers":1,"pending":1,"buckets":3,"attempts":4}"#;

// Bolts, and the text of one record.
const BOLTS: [(&str, &str); 6] = [
    (
        r#"{"do":"flaky","below":3}"#,
        "record 1 attempts 3 acked
tally counts [\"a\"] 3
tracked 1 records 1 acked
",
    ),
    (
        r#"{"do":"flaky","below":9}"#,
        "record 1 attempts 4 gave up
tally counts [\"a\"] 4
tracked 1 records 0 acked
",
    ),
    (
        r#"{"do":"flaky","below":4}"#,
        "record 1 attempts 4 acked
tally counts [\"a\"] 4
tracked 1 records 1 acked
",
    ),
    (
        r#"{"do":"flaky","below":5}"#,
        "record 1 attempts 4 gave up
tally counts [\"a\"] 4
tracked 1 records 0 acked
",
    ),
    (
        r#"{"do":"mute","below":2}"#,
        "record 1 attempts 2 acked
tally counts [\"a\"] 2
tracked 1 records 1 acked
",
    ),
    (
        r#"{"do":"flaky","below":1}"#,
        "record 1 attempts 1 acked
tally counts [\"a\"] 1
tracked 1 records 1 acked
",
    ),
];

// Behind a bolt nothing is reached where it fails or stays mute.
const BEHIND: [(&str, &str); 3] = [
    (
        r#"{"do":"flaky","below":3}"#,
        "record 1 attempts 3 acked
record 2 attempts 3 acked
tally counts [\"a\"] 1
tally counts [\"b\"] 1
tracked 2 records 2 acked
",
    ),
    (
        r#"{"do":"mute","below":11}"#,
        "record 1 attempts 10 gave up
record 2 attempts 10 gave up
tracked 2 records 0 acked
",
    ),
    (
        r#"{"do":"filter","field":"word","test":"eq","value":"b"}"#,
        "record 1 attempts 1 acked
record 2 attempts 1 acked
tally counts [\"b\"] 1
tracked 2 records 2 acked
",
    ),
];

// Records of which one is acked at once, one late and one never.
const APART: &str = r#"{"version":1,
 "spout":{"name":"orders","kind":"transactional","fields":["item"],"batch":2},
 "bolts":[
  {"name":"late","tasks":1,"op":{"do":"filter","field":"item","test":"eq","value":"late"},
   "inputs":[{"from":"orders","grouping":"shuffle"}]},
  {"name":"slow","tasks":2,"op":{"do":"flaky","below":2},
   "inputs":[{"from":"late","grouping":"all"}]},
  {"name":"never","tasks":1,"op":{"do":"filter","field":"item","test":"eq","value":"never"},
   "inputs":[{"from":"orders","grouping":"shuffle"}]},
  {"name":"silent","tasks":1,"op":{"do":"mute","below":100},
   "inputs":[{"from":"never","grouping":"shuffle"}]}],
 "states":[
  {"name":"seen","kind":"transactional","parts":2,"key":["item"],
   "fold":"count","inputs":["orders"]},
  {"name":"sold","kind":"opaque","parts":3,"key":["item"],
   "fold":"count","inputs":["slow","silent"]}],
 "attempts":3}"#;

// Topologies, inputs and texts.
const TEXTS: [(&str, &str, &str); 7] = [
    (WORD_COUNT, "", "tracked 0 records 0 acked\n"),
    (
        WORD_COUNT,
        "[\"\"]",
        "record 1 attempts 1 acked\ntracked 1 records 1 acked\n",
    ),
    (
        WORD_COUNT,
        "[\"b a b\"]\n[\"a\"]\n[7]\n",
        "record 1 attempts 1 acked
record 2 attempts 1 acked
record 3 attempts 1 acked
tally counts [\"a\"] 2
tally counts [\"b\"] 2
tracked 3 records 3 acked
",
    ),
    (
        COPIES_TO_ALL,
        "[\"a b\"]",
        "record 1 attempts 1 acked
tally counts [\"a\"] 3
tally counts [\"b\"] 3
tracked 1 records 1 acked
",
    ),
    (
        TURNED,
        "[7,\"x\"]\n[8,\"x\"]",
        "record 1 attempts 1 acked
record 2 attempts 1 acked
tally last [\"x\"] 2
tracked 2 records 2 acked
",
    ),
    (
        APART,
        "[\"at once\"]\n[\"late\"]\n[\"never\"]\n[\"late\"]\n",
        "record 1 attempts 1 acked
record 2 attempts 2 acked
record 3 attempts 3 gave up
record 4 attempts 2 acked
tally seen [\"at once\"] 1
tally seen [\"late\"] 4
tally seen [\"never\"] 3
tally sold [\"late\"] 4
tracked 4 records 3 acked
",
    ),
    (
        APART,
        "[\"never\"]",
        "record 1 attempts 3 gave up
tally seen [\"never\"] 3
tracked 1 records 0 acked
",
    ),
];

// Files, the status that they end with, and the line.
const REFUSED: [(Option<&str>, Option<&str>, u8, &str); 5] = [
    (None, Some(SENTENCES), 5, "read fault topology\n"),
    (Some(WORD_COUNT), None, 5, "read fault input\n"),
    (Some("{\"version\":1"), None, 3, "topology: no JSON\n"),
    (
        Some(WORD_COUNT),
        Some("[\"a\"]\n[1.5]"),
        4,
        "input: line 2: item 0 is no text and no whole number\n",
    ),
    (Some(TURNED), Some("[\"a\"]"), 4, "input: line 1: 1 items\n"),
];

// Ids that are 0, and ids that are all one. The source of the records' ids is the third.
const ZEROS: Script = [&[], &[], &[0; 12]];

const ALIKE: Script = [&[], &[], &[7; 12]];

fn track_of<'a>(words: &'a [&'a str], topology: &'a str, input: &'a str) -> Scene<'a> {
    Scene {
        words,
        ..run_of(topology, input)
    }
}

// Tracks by each number of workers.
fn check_track<'a, R: Threads + Wait + Sync>(
    rt: &R,
    alloc: Global,
    topology: &'a str,
    input: &'a str,
    outside: Outside<'_>,
    want: &str,
) -> Result<(), Mismatch> {
    for words in WORDS {
        check_refusal(
            rt,
            alloc,
            track_of(words, topology, input),
            outside,
            0,
            want,
        )?;
    }
    Ok(())
}

#[test]
fn records_that_reach_a_state_beside_a_bolt(rt: HostRuntime) -> Result<(), Mismatch> {
    let alloc = rt.alloc();
    for (op, want) in BOLTS {
        let topology = changed(alloc, BESIDE, "OP", op)?;
        check_track(&rt, alloc, topology.as_str(), "[\"a\"]", CALM, want)?;
    }
    Ok(())
}

#[test]
fn records_that_reach_a_state_behind_a_bolt(rt: HostRuntime) -> Result<(), Mismatch> {
    let alloc = rt.alloc();
    for (op, want) in BEHIND {
        let topology = one_bolt(alloc, "transactional", "transactional", op)?;
        check_track(
            &rt,
            alloc,
            topology.as_str(),
            "[\"a\"]\n[\"b\"]",
            CALM,
            want,
        )?;
    }
    Ok(())
}

#[test]
fn texts_of_trackings(rt: HostRuntime) -> Result<(), Mismatch> {
    for (topology, input, want) in TEXTS {
        check_track(&rt, rt.alloc(), topology, input, CALM, want)?;
    }
    Ok(())
}

#[test]
fn whatever_the_ids(rt: HostRuntime) -> Result<(), Mismatch> {
    let alloc = rt.alloc();
    for words in [&ZEROS, &ALIKE] {
        let outside = Outside {
            words: Some(words),
            ..CALM
        };
        for (op, want) in BOLTS {
            let topology = changed(alloc, BESIDE, "OP", op)?;
            check_track(&rt, alloc, topology.as_str(), "[\"a\"]", outside, want)?;
        }
    }
    Ok(())
}

#[test]
fn refusals_of_files(rt: HostRuntime) -> Result<(), Mismatch> {
    for (topology, input, code, want) in REFUSED {
        let scene = Scene {
            words: &SOME,
            topology,
            input,
            schedule: None,
        };
        check_refusal(&rt, rt.alloc(), scene, CALM, code, want)?;
    }
    Ok(())
}

// More records than a window has, each of which is acked at its second attempt.
fn many_records(alloc: Global, count: u16) -> Result<(String, String), Mismatch> {
    let count = u64::from(count);
    let mut input = String::new(alloc);
    let mut want = String::new(alloc);
    for number in 1..count + 1 {
        input.push_str("[\"a\"]\n")?;
        want.push_str(format!(in alloc; "record {number} attempts 2 acked\n")?.as_str())?;
    }
    let tries = 2 * count;
    want.push_str(format!(in alloc; "tally counts [\"a\"] {tries}\n")?.as_str())?;
    want.push_str(format!(in alloc; "tracked {count} records {count} acked\n")?.as_str())?;
    Ok((input, want))
}

#[test]
fn more_records_than_a_window_has(rt: HostRuntime) -> Result<(), Mismatch> {
    let alloc = rt.alloc();
    let topology = changed(alloc, BESIDE, "OP", r#"{"do":"flaky","below":2}"#)?;
    for count in [1_023, 1_024, 1_025, 2_100] {
        let (input, want) = many_records(alloc, count)?;
        check_track(
            &rt,
            alloc,
            topology.as_str(),
            input.as_str(),
            CALM,
            want.as_str(),
        )?;
    }
    Ok(())
}

#[test]
fn a_tracking_without_words(rt: HostRuntime) -> Result<(), Mismatch> {
    let alloc = rt.alloc();
    let scene = track_of(&SOME, TURNED, "[7,\"x\"]\n[8,\"y\"]");
    let mut shelf = shelf(alloc, scene, CALM)?;
    let mut sink = sink(alloc, CALM)?;
    let mut ids = scripted_ids(alloc, &ZEROS)?;
    let status = storm_track(
        &rt, alloc, "t", "i", 2, &mut shelf, &mut sink, &mut ids, &Backwards,
    );
    assert!(rt; status == Status::Done);
    let text = taken(alloc, &sink)?;
    let want = "record 1 attempts 1 acked
record 2 attempts 1 acked
tally last [\"x\"] 1
tally last [\"y\"] 1
tracked 2 records 2 acked
";
    compare(alloc, "a tracking", text.as_str(), want)
}
