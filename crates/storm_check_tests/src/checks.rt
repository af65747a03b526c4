// What a check of a topology prints.
use sample_topologies::{COPIES_TO_ALL, LAST_VALUE, PAIRS, WORD_COUNT, one_bolt};
use std::alloc::Global;
use storm_test_kit::storm_program::{Status, storm_check};
use storm_test_kit::{CALM, CHECK, Scene, check_refusal, run_of, shelf, sink, taken};
use test_kit::{Mismatch, changed, compare};

// A bolt of 64 tasks that each get a copy, and one of 4 tasks that each get one of those: the ways
// are 64 and twice 64 * 4.
const WIDE: &str = r#"{"version":1,
 "spout":{"name":"lines","kind":"transactional","fields":["word"],"batch":1},
 "bolts":[{"name":"wide","tasks":64,"op":{"do":"route","field":"word"},
   "inputs":[{"from":"lines","grouping":"all"}]},
  {"name":"wider","tasks":4,"op":{"do":"route","field":"word"},
   "inputs":[{"from":"wide","grouping":"all"}]}],
 "states":[{"name":"counts","kind":"transactional","parts":1,"key":["word"],
   "fold":"count","inputs":["wider"]}]}"#;

// Topologies, the status of their check, and its line.
const CHECKS: [(&str, u8, &str); 8] = [
    (
        WORD_COUNT,
        0,
        "valid components 2 tasks 4 weight 2 depth 2\n",
    ),
    (
        LAST_VALUE,
        0,
        "valid components 1 tasks 1 weight 1 depth 1\n",
    ),
    (
        COPIES_TO_ALL,
        0,
        "valid components 3 tasks 6 weight 9 depth 3\n",
    ),
    (PAIRS, 0, "valid components 6 tasks 11 weight 6 depth 4\n"),
    (WIDE, 0, "valid components 3 tasks 69 weight 576 depth 3\n"),
    (r#"{"version":1"#, 3, "topology: no JSON\n"),
    ("[]", 3, "topology: wrong kind \"topology\"\n"),
    (
        r#"{"version":3}"#,
        3,
        "topology: \"version\" is 3, not from 1 to 2\n",
    ),
];

// What stands in a topology in the place of something else, with the status and the line of a
// check.
const CHANGED: [(&str, &str, &str, u8, &str); 5] = [
    (
        WORD_COUNT,
        r#"{"do":"split","field":"sentence","as":"word"}"#,
        r#"{"do":"flaky","below":2}"#,
        3,
        "topology: no field \"word\" at \"counts\"\n",
    ),
    (
        WORD_COUNT,
        r#""lines","kind":"transactional""#,
        r#""lines","kind":"opaque""#,
        3,
        "topology: not exactly once \"counts\"\n",
    ),
    (
        WORD_COUNT,
        r#""counts","kind":"transactional""#,
        r#""counts","kind":"opaque""#,
        0,
        "valid components 2 tasks 4 weight 2 depth 2\n",
    ),
    (
        WORD_COUNT,
        r#""shuffle""#,
        r#""direct""#,
        3,
        "topology: wrong kind \"grouping\"\n",
    ),
    // 64 and twice 64 * 64
    (
        WIDE,
        r#""tasks":4,"#,
        r#""tasks":64,"#,
        3,
        "topology: weight 8256, most 4096\n",
    ),
];

// The word count filled up with spaces to so many bytes, with the status and the line of a check.
const LENGTHS: [(usize, u8, &str); 3] = [
    (65_536, 0, "valid components 2 tasks 4 weight 2 depth 2\n"),
    (65_537, 3, "topology: longer than 65536 bytes\n"),
    (200_000, 3, "topology: longer than 65536 bytes\n"),
];

// Kinds of the spout and the state, and the operation.
const KINDS: [(&str, &str, &str); 4] = [
    (
        "transactional",
        "transactional",
        r#"{"do":"flaky","below":2}"#,
    ),
    (
        "transactional",
        "transactional",
        r#"{"do":"mute","below":1}"#,
    ),
    (
        "transactional",
        "opaque",
        r#"{"do":"route","field":"word"}"#,
    ),
    ("opaque", "opaque", r#"{"do":"route","field":"word"}"#),
];

// A check of one topology.
pub fn check_of(topology: &str) -> Scene<'_> {
    Scene {
        words: &CHECK,
        topology: Some(topology),
        input: None,
        schedule: None,
    }
}

#[test]
fn checks_of_topologies(rt: HostRuntime) -> Result<(), Mismatch> {
    for (topology, code, want) in CHECKS {
        check_refusal(&rt, rt.alloc(), check_of(topology), CALM, code, want)?;
    }
    Ok(())
}

#[test]
fn checks_of_changed_topologies(rt: HostRuntime) -> Result<(), Mismatch> {
    let alloc = rt.alloc();
    for (topology, part, other, code, want) in CHANGED {
        let topology = changed(alloc, topology, part, other)?;
        check_refusal(&rt, alloc, check_of(topology.as_str()), CALM, code, want)?;
    }
    Ok(())
}

// The topology with spaces behind it, so many bytes in all.
pub fn filled_up(alloc: Global, topology: &str, bytes: usize) -> Result<String, Mismatch> {
    let mut text = String::from_str(alloc, topology)?;
    let spaces = " ".repeat(alloc, bytes.saturating_sub(topology.len()))?;
    text.push_str(spaces.as_str())?;
    Ok(text)
}

#[test]
fn a_file_of_65537_bytes(rt: HostRuntime) -> Result<(), Mismatch> {
    let alloc = rt.alloc();
    for (bytes, code, want) in LENGTHS {
        let topology = filled_up(alloc, WORD_COUNT, bytes)?;
        assert!(rt; topology.len() == bytes);
        check_refusal(&rt, alloc, check_of(topology.as_str()), CALM, code, want)?;
    }
    Ok(())
}

#[test]
fn a_check_without_words(rt: HostRuntime) -> Result<(), Mismatch> {
    let alloc = rt.alloc();
    let mut shelf = shelf(alloc, run_of(LAST_VALUE, ""), CALM)?;
    let mut sink = sink(alloc, CALM)?;
    let status = storm_check(alloc, "t", &mut shelf, &mut sink);
    assert!(rt; status == Status::Done);
    let text = taken(alloc, &sink)?;
    let want = "valid components 1 tasks 1 weight 1 depth 1\n";
    compare(alloc, "a check", text.as_str(), want)
}

#[test]
fn plans_of_each_kind_are_valid(rt: HostRuntime) -> Result<(), Mismatch> {
    let alloc = rt.alloc();
    let valid = "valid components 2 tasks 2 weight 2 depth 2\n";
    for (spout, state, op) in KINDS {
        let topology = one_bolt(alloc, spout, state, op)?;
        check_refusal(&rt, alloc, check_of(topology.as_str()), CALM, 0, valid)?;
    }
    Ok(())
}
