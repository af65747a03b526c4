// What `plain` answers and writes.
use sample_operations::Backwards;
use sample_topologies::{
    COPIES_TO_ALL, LAST_VALUE, PAIRS, SENTENCES, TABLES_OF_SENTENCES, TURNED, WORD_COUNT, one_bolt,
};
use storm_test_kit::storm_program::{Status, storm_plain};
use storm_test_kit::{CALM, PLAIN, Scene, check_refusal, plain_of, shelf, sink, taken};
use test_kit::{Mismatch, compare};

const TABLES_OF_PAIRS: &str = r#"cell sums ["aa"] 8
cell sums ["b"] -5
cell most [1] -5
cell most [2] 7
cell all ["aa",1] 1
cell all ["aa",7] 1
cell all ["b",-5] 1
cell all ["b",20] 1
cell all ["ccc","x"] 1
ok 5 records 3 batches
"#;

// Topologies, inputs, and their reports, which have no attempt lines.
const REPORTS: [(&str, &str, &str); 8] = [
    (WORD_COUNT, SENTENCES, TABLES_OF_SENTENCES),
    (WORD_COUNT, "", "ok 0 records 0 batches\n"),
    (WORD_COUNT, "[\"\"]", "ok 1 records 1 batches\n"),
    // a batch of two records, which is whole
    (
        WORD_COUNT,
        "[\"a\"]\n[\"a\"]\n",
        "cell counts [\"a\"] 2\nok 2 records 1 batches\n",
    ),
    (
        COPIES_TO_ALL,
        "[\"a b\"]",
        "cell counts [\"a\"] 3\ncell counts [\"b\"] 3\nok 1 records 1 batches\n",
    ),
    (
        LAST_VALUE,
        "[\"a\",1]\n[\"b\",2]\n[\"a\",-3]\n",
        "cell last [\"a\"] -3\ncell last [\"b\"] 2\nok 3 records 3 batches\n",
    ),
    // the bolt between turns each row round
    (
        TURNED,
        "[7,\"x\"]",
        "cell last [\"x\"] 7\nok 1 records 1 batches\n",
    ),
    (
        PAIRS,
        "[\"aa\",1]\n[\"b\",20]\n[\"b\",-5]\n[\"aa\",7]\n[\"ccc\",\"x\"]\n",
        TABLES_OF_PAIRS,
    ),
];

// Kinds of the spout and the state, and the operation. A run would try again, or wait for ticks.
const UNSTEADY: [(&str, &str, &str); 4] = [
    (
        "transactional",
        "transactional",
        r#"{"do":"flaky","below":9}"#,
    ),
    (
        "transactional",
        "transactional",
        r#"{"do":"mute","below":9}"#,
    ),
    (
        "transactional",
        "opaque",
        r#"{"do":"route","field":"word"}"#,
    ),
    ("opaque", "opaque", r#"{"do":"route","field":"word"}"#),
];

// Files, the status that they end with, and the line.
const REFUSED: [(Option<&str>, Option<&str>, u8, &str); 6] = [
    (None, Some(SENTENCES), 5, "read fault topology\n"),
    (Some(WORD_COUNT), None, 5, "read fault input\n"),
    (Some("{\"version\":1"), None, 3, "topology: no JSON\n"),
    (
        Some("{\"version\":1}"),
        Some("[]"),
        3,
        "topology: missing \"spout\"\n",
    ),
    (
        Some(WORD_COUNT),
        Some("[\"a\"]\n[1.5]"),
        4,
        "input: line 2: item 0 is no text and no whole number\n",
    ),
    (Some(TURNED), Some("[\"a\"]"), 4, "input: line 1: 1 items\n"),
];

#[test]
fn reports_without_attempts(rt: HostRuntime) -> Result<(), Mismatch> {
    for (topology, input, want) in REPORTS {
        check_refusal(&rt, rt.alloc(), plain_of(topology, input), CALM, 0, want)?;
    }
    Ok(())
}

#[test]
fn nothing_fails_and_every_plan_is_taken(rt: HostRuntime) -> Result<(), Mismatch> {
    let alloc = rt.alloc();
    let want = "cell counts [\"a\"] 1\nok 1 records 1 batches\n";
    for (spout, state, op) in UNSTEADY {
        let topology = one_bolt(alloc, spout, state, op)?;
        let scene = plain_of(topology.as_str(), "[\"a\"]");
        check_refusal(&rt, alloc, scene, CALM, 0, want)?;
    }
    Ok(())
}

#[test]
fn refusals_of_files(rt: HostRuntime) -> Result<(), Mismatch> {
    for (topology, input, code, want) in REFUSED {
        let scene = Scene {
            words: &PLAIN,
            topology,
            input,
            schedule: None,
        };
        check_refusal(&rt, rt.alloc(), scene, CALM, code, want)?;
    }
    Ok(())
}

#[test]
fn a_plain_without_words(rt: HostRuntime) -> Result<(), Mismatch> {
    let alloc = rt.alloc();
    let mut shelf = shelf(alloc, plain_of(TURNED, "[7,\"x\"]\n[8,\"x\"]"), CALM)?;
    let mut sink = sink(alloc, CALM)?;
    let status = storm_plain(alloc, "t", "i", &mut shelf, &mut sink, &Backwards);
    assert!(rt; status == Status::Done);
    let text = taken(alloc, &sink)?;
    let want = "cell last [\"x\"] 8\nok 2 records 2 batches\n";
    compare(alloc, "a plain", text.as_str(), want)
}
