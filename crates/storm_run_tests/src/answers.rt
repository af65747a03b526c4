// What a call answers and writes where nothing outside fails.
use sample_topologies::{
    COPIES_TO_ALL, COUNTED_SENTENCES, LAST_VALUE, PAIRS, SENTENCES, TURNED, WORD_COUNT,
};
use std::alloc::Global;
use storm_test_kit::{CALM, Fate, RUN, Scene, call, check_call, check_refusal, run_of, run_over};
use storm_values::Root;
use test_kit::Mismatch;

// Inputs, and their reports in batches of two.
const REPORTS: [(&str, &str); 9] = [
    ("", "ok 0 records 0 batches\n"),
    (
        "[\"\"]",
        "attempt 1.1 records 1-1 ticks 0-0 committed
ok 1 records 1 batches
",
    ),
    // a line that ends with byte 13, and one without an end
    (
        "[\"a\"]\r\n[\"b\"]",
        "attempt 1.1 records 1-2 ticks 0-0 committed
cell counts [\"a\"] 1
cell counts [\"b\"] 1
ok 2 records 1 batches
",
    ),
    // a word twice in a batch, keys in the order of their texts' bytes, and a
    // number, which has no word
    (
        "[\" b  a a! a\"]\n[7]\n",
        "attempt 1.1 records 1-2 ticks 0-0 committed
cell counts [\"a!\"] 1
cell counts [\"a\"] 2
cell counts [\"b\"] 1
ok 2 records 1 batches
",
    ),
    // one short batch, one whole batch, and so on
    (
        "[\"a\"]\n",
        "attempt 1.1 records 1-1 ticks 0-0 committed
cell counts [\"a\"] 1
ok 1 records 1 batches
",
    ),
    (
        "[\"a\"]\n[\"a\"]\n",
        "attempt 1.1 records 1-2 ticks 0-0 committed
cell counts [\"a\"] 2
ok 2 records 1 batches
",
    ),
    (
        "[\"a\"]\n[\"a\"]\n[\"a\"]\n",
        "attempt 1.1 records 1-2 ticks 0-0 committed
attempt 2.1 records 3-3 ticks 0-0 committed
cell counts [\"a\"] 3
ok 3 records 2 batches
",
    ),
    (
        "[\"a\"]\n[\"a\"]\n[\"a\"]\n[\"a\"]\n",
        "attempt 1.1 records 1-2 ticks 0-0 committed
attempt 2.1 records 3-4 ticks 0-0 committed
cell counts [\"a\"] 4
ok 4 records 2 batches
",
    ),
    (
        "[\"a\"]\n[\"a\"]\n[\"a\"]\n[\"a\"]\n[\"a\"]\n",
        "attempt 1.1 records 1-2 ticks 0-0 committed
attempt 2.1 records 3-4 ticks 0-0 committed
attempt 3.1 records 5-5 ticks 0-0 committed
cell counts [\"a\"] 5
ok 5 records 3 batches
",
    ),
];

// Files, the status that they end with, and the line.
const NOT_READ: [(Option<&str>, Option<&str>, u8, &str); 6] = [
    (None, None, 5, "read fault topology\n"),
    (None, Some("[]"), 5, "read fault topology\n"),
    (Some(WORD_COUNT), None, 5, "read fault input\n"),
    (Some("{\"version\":1"), None, 3, "topology: no JSON\n"),
    (
        Some("{\"version\":1}"),
        Some("[]"),
        3,
        "topology: missing \"spout\"\n",
    ),
    (Some(""), Some(""), 3, "topology: no JSON\n"),
];

// Inputs of a sentence a line, and the lines that refuse them.
const REFUSED_INPUTS: [(&str, &str); 7] = [
    (
        "[\"a\"]\n[1.5]",
        "input: line 2: item 0 is no text and no whole number\n",
    ),
    ("[\"a\"]\n\n{", "input: line 2: no JSON\n"),
    ("[\"a\"]\n[\"a\"]\n\"a\"\n", "input: line 3: no array\n"),
    ("[]\n", "input: line 1: 0 items\n"),
    ("[\"a\", 1]\n[1.5]\n", "input: line 1: 2 items\n"),
    (
        "[9223372036854775807]\n[9223372036854775808]\n",
        "input: line 2: item 0 is no text and no whole number\n",
    ),
    (
        "[\"a\", null]",
        "input: line 1: item 1 is no text and no whole number\n",
    ),
];

const USAGE: &str = "usage: storm check T | plain T I | replay T I S | run T I [W] \
     | load N SEED | track T I [W] | fold T I [W]\n";

// Words that are no command.
const NO_COMMANDS: [&[&str]; 47] = [
    &[],
    &["run"],
    &["run", "t"],
    &["run", "t", "i", "0"],
    &["run", "t", "i", "65"],
    &["run", "t", "i", "000004"],
    &["run", "t", "i", "+4"],
    &["run", "t", "i", "4 "],
    &["run", "t", "i", ""],
    &["run", "t", "i", "4", "4"],
    &["run", "-t", "i"],
    &["run", "t", "-"],
    &["run", "", "i"],
    &["Run", "t", "i"],
    &["replay"],
    &["replay", "t", "i"],
    &["replay", "t", "i", ""],
    &["replay", "t", "i", "-s"],
    &["replay", "t", "-i", "s"],
    &["replay", "", "i", "s"],
    &["replay", "t", "i", "s", "4"],
    &["Replay", "t", "i", "s"],
    &["plain"],
    &["plain", "t"],
    &["plain", "t", "i", "4"],
    &["plain", "-t", "i"],
    &["plain", "t", ""],
    &["check"],
    &["check", "t", "i"],
    &["check", ""],
    &["check", "-t"],
    &["check", "--help"],
    &["Check", "t"],
    &["--help"],
    &["--version"],
    &["help"],
    &["--", "check", "t"],
    &["load"],
    &["load", "1"],
    &["load", "1", "1", "1"],
    &["load", "0", "1"],
    &["load", "10001", "1"],
    &["load", "1", "65536"],
    &["load", "-1", "1"],
    &["load", "1", "one"],
    &["Load", "1", "1"],
    &["t", "i"],
];

const COUNTED_PAIRS: &str = r#"attempt 1.1 records 1-2 ticks 0-0 committed
attempt 2.1 records 3-4 ticks 0-0 committed
attempt 3.1 records 5-5 ticks 0-0 committed
cell sums ["aa"] 8
cell sums ["b"] -5
cell most [1] -5
cell most [2] 7
cell all ["aa",1] 1
cell all ["aa",7] 1
cell all ["b",-5] 1
cell all ["b",20] 1
cell all ["ccc","x"] 1
ok 5 records 3 batches
"#;

// Topologies, inputs, and their reports.
const OTHER_REPORTS: [(&str, &str, &str); 4] = [
    (
        LAST_VALUE,
        "[\"a\",1]\n[\"b\",2]\n[\"a\",-3]\n",
        r#"attempt 1.1 records 1-1 ticks 0-0 committed
attempt 2.1 records 2-2 ticks 0-0 committed
attempt 3.1 records 3-3 ticks 0-0 committed
cell last ["a"] -3
cell last ["b"] 2
ok 3 records 3 batches
"#,
    ),
    (
        COPIES_TO_ALL,
        r#"["a b"]"#,
        r#"attempt 1.1 records 1-1 ticks 0-0 committed
cell counts ["a"] 3
cell counts ["b"] 3
ok 1 records 1 batches
"#,
    ),
    // the bolt between turns each row round
    (
        TURNED,
        "[7,\"x\"]",
        r#"attempt 1.1 records 1-1 ticks 0-0 committed
cell last ["x"] 7
ok 1 records 1 batches
"#,
    ),
    (
        PAIRS,
        "[\"aa\",1]\n[\"b\",20]\n[\"b\",-5]\n[\"aa\",7]\n[\"ccc\",\"x\"]\n",
        COUNTED_PAIRS,
    ),
];

// Numbers of workers among the words.
const WORKERS: [&[&str]; 4] = [
    &["run", "t", "i", "1"],
    &["run", "t", "i", "04"],
    &["run", "t", "i", "00064"],
    &["run", "t", "i", "64"],
];

fn committed(txid: u64, first: u64, last: u64) -> Fate {
    Fate {
        root: Root { txid, attempt: 1 },
        first,
        last,
        spans: 1,
        start: 0,
        finish: 0,
        committed: true,
    }
}

#[test]
fn the_words_of_three_sentences(rt: HostRuntime) -> Result<(), Mismatch> {
    check_call(
        &rt,
        rt.alloc(),
        run_over(SENTENCES),
        CALM,
        0,
        COUNTED_SENTENCES,
    )
}

#[test]
fn the_fates_of_three_sentences(rt: HostRuntime) -> Result<(), Mismatch> {
    let told = call(&rt, rt.alloc(), run_over(SENTENCES), CALM)?;
    let fates = [committed(1, 1, 2), committed(2, 3, 3)];
    assert!(rt; told.fates.as_slice() == fates.as_slice());
    Ok(())
}

#[test]
fn reports_of_inputs(rt: HostRuntime) -> Result<(), Mismatch> {
    for (input, want) in REPORTS {
        check_call(&rt, rt.alloc(), run_over(input), CALM, 0, want)?;
    }
    Ok(())
}

#[test]
fn files_that_are_not_read(rt: HostRuntime) -> Result<(), Mismatch> {
    for (topology, input, code, want) in NOT_READ {
        let scene = Scene {
            words: &RUN,
            topology,
            input,
            schedule: None,
        };
        check_refusal(&rt, rt.alloc(), scene, CALM, code, want)?;
    }
    Ok(())
}

#[test]
fn refusals_of_inputs(rt: HostRuntime) -> Result<(), Mismatch> {
    for (input, want) in REFUSED_INPUTS {
        check_refusal(&rt, rt.alloc(), run_over(input), CALM, 4, want)?;
    }
    Ok(())
}

#[test]
fn words_that_are_no_command(rt: HostRuntime) -> Result<(), Mismatch> {
    for words in NO_COMMANDS {
        let scene = Scene {
            words,
            ..run_over(SENTENCES)
        };
        check_refusal(&rt, rt.alloc(), scene, CALM, 2, USAGE)?;
    }
    Ok(())
}

#[test]
fn runs_of_other_topologies(rt: HostRuntime) -> Result<(), Mismatch> {
    for (topology, input, want) in OTHER_REPORTS {
        check_call(&rt, rt.alloc(), run_of(topology, input), CALM, 0, want)?;
    }
    Ok(())
}

#[test]
fn any_number_of_workers_prints_the_same(rt: HostRuntime) -> Result<(), Mismatch> {
    for words in WORKERS {
        let scene = Scene {
            words,
            ..run_over(SENTENCES)
        };
        check_call(&rt, rt.alloc(), scene, CALM, 0, COUNTED_SENTENCES)?;
    }
    Ok(())
}

// A line with one text of so many letters.
fn letters(alloc: Global, number: usize) -> Result<String, Mismatch> {
    let mut line = String::from_str(alloc, "[\"")?;
    line.push_str("a".repeat(alloc, number)?.as_str())?;
    line.push_str("\"]")?;
    Ok(line)
}

#[test]
fn lines_of_4096_bytes_and_more(rt: HostRuntime) -> Result<(), Mismatch> {
    let alloc = rt.alloc();
    let longest = letters(alloc, 4_092)?;
    let told = call(&rt, alloc, run_over(longest.as_str()), CALM)?;
    assert!(rt; told.status.code() == 0);
    let longer = letters(alloc, 4_093)?;
    let want = "input: line 1: longer than 4096 bytes\n";
    check_call(&rt, alloc, run_over(longer.as_str()), CALM, 4, want)
}
