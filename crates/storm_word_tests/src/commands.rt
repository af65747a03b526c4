// Words and the command that they are, by hand.
use std::alloc::{AllocError, Global};
use storm_words::{Command, USAGE, read_words};
use test_kit::{Mismatch, compare};

const NONE: &str = "none";

const USAGE_LINE: &str = "usage: storm check T | plain T I | replay T I S | run T I [W] \
     | load N SEED | track T I [W] | fold T I [W]\n";

// Words, and their command with its texts and numbers between bars.
const COMMANDS: [(&[&str], &str); 45] = [
    (&["check", "t"], "check|t"),
    (&["check", "check"], "check|check"),
    (&["check", "help"], "check|help"),
    (&["check", "two words"], "check|two words"),
    (&["check", " "], "check| "),
    (&["check", "t-"], "check|t-"),
    (&["check", "t=--help"], "check|t=--help"),
    (&["check", "a,b"], "check|a,b"),
    (&["check", "\"t\""], "check|\"t\""),
    (&["check", "é.json"], "check|é.json"),
    (&["check", "−h"], "check|−h"),
    (&["check", "\n"], "check|\n"),
    (&["plain", "t", "i"], "plain|t|i"),
    (&["plain", "t", "t"], "plain|t|t"),
    (&["plain", "plain", "run"], "plain|plain|run"),
    (&["plain", "топология", "ввод"], "plain|топология|ввод"),
    (&["replay", "t", "i", "s"], "replay|t|i|s"),
    (&["replay", "t", "i", "4"], "replay|t|i|4"),
    (&["replay", "help", "run", "load"], "replay|help|run|load"),
    (&["run", "t", "i"], "run|t|i|4"),
    (&["run", "4", "8"], "run|4|8|4"),
    (&["run", "t", "i", "1"], "run|t|i|1"),
    (&["run", "t", "i", "04"], "run|t|i|4"),
    (&["run", "t", "i", "10"], "run|t|i|10"),
    (&["run", "t", "i", "64"], "run|t|i|64"),
    (&["run", "t", "i", "00064"], "run|t|i|64"),
    (&["run", "run", "run", "1"], "run|run|run|1"),
    (&["load", "1", "0"], "load|1|0"),
    (&["load", "2", "1"], "load|2|1"),
    (&["load", "00001", "00000"], "load|1|0"),
    (&["load", "9999", "65534"], "load|9999|65534"),
    (&["load", "10000", "65535"], "load|10000|65535"),
    (&["load", "010", "0010"], "load|10|10"),
    (&["track", "t", "i"], "track|t|i|4"),
    (&["track", "t", "t"], "track|t|t|4"),
    (&["track", "t", "i", "1"], "track|t|i|1"),
    (&["track", "t", "i", "08"], "track|t|i|8"),
    (&["track", "t", "i", "00064"], "track|t|i|64"),
    (&["track", "track", "run", "64"], "track|track|run|64"),
    (&["fold", "t", "i"], "fold|t|i|4"),
    (&["fold", "t", "t"], "fold|t|t|4"),
    (&["fold", "t", "i", "1"], "fold|t|i|1"),
    (&["fold", "t", "i", "08"], "fold|t|i|8"),
    (&["fold", "t", "i", "00064"], "fold|t|i|64"),
    (&["fold", "fold", "track", "64"], "fold|fold|track|64"),
];

// Words that are no command: too few of them, or too many.
const TOO_FEW_OR_MANY: [&[&str]; 27] = [
    &[],
    &["check"],
    &["check", "t", "u"],
    &["check", "t", "check", "t"],
    &["plain"],
    &["plain", "t"],
    &["plain", "t", "i", "s"],
    &["replay"],
    &["replay", "t"],
    &["replay", "t", "i"],
    &["replay", "t", "i", "s", "4"],
    &["run"],
    &["run", "t"],
    &["run", "t", "i", "4", "4"],
    &["run", "t", "i", "4", "5", "6"],
    &["load"],
    &["load", "1"],
    &["load", "1", "1", "1"],
    &["track"],
    &["track", "t"],
    &["track", "t", "i", "4", "4"],
    &["track", "t", "i", "4", "5", "6"],
    &["fold"],
    &["fold", "t"],
    &["fold", "t", "i", "4", "4"],
    &["fold", "t", "i", "4", "5", "6"],
    &["storm", "check", "t"],
];

// No command has the name of the first of these.
const OTHER_NAMES: [&[&str]; 19] = [
    &["t"],
    &["t", "check"],
    &["help"],
    &["help", "check"],
    &["version"],
    &["Check", "t"],
    &["CHECK", "t"],
    &["Load", "1", "1"],
    &["Track", "t", "i"],
    &["trac", "t", "i"],
    &["tracks", "t", "i"],
    &["Fold", "t", "i"],
    &["fol", "t", "i"],
    &["folds", "t", "i"],
    &["chec", "t"],
    &["checks", "t"],
    &[" check", "t"],
    &["check "],
    &["check t"],
];

// A word that is empty or begins with `-` stands among these.
const NO_WORDS: [&[&str]; 28] = [
    &[""],
    &["", "t"],
    &["check", ""],
    &["check", "t", ""],
    &["plain", "", "i"],
    &["replay", "t", "i", ""],
    &["run", "t", "i", ""],
    &["load", "", "1"],
    &["track", "t", ""],
    &["track", "t", "i", ""],
    &["fold", "t", ""],
    &["fold", "t", "i", ""],
    &["-"],
    &["--"],
    &["-h"],
    &["-V"],
    &["--help"],
    &["--version"],
    &["--", "check", "t"],
    &["check", "-"],
    &["check", "--"],
    &["check", "--", "t"],
    &["check", "-h"],
    &["check", "t", "--help"],
    &["check", "--topology", "t"],
    &["check", "--topology=t"],
    &["run", "t", "i", "-4"],
    &["load", "-1", "1"],
];

// The last word of a run, a tracking or a fold, and words of a load, that are no number within its
// range.
const NO_WORKERS: [&str; 16] = [
    "0", "00000", "65", "00065", "99999", "100000", "000004", "+4", "4.0", "4 ", " 4", "four",
    "0x4", "1e1", "4,0", "٤",
];

const NO_LOADS: [&[&str]; 9] = [
    &["load", "0", "1"],
    &["load", "10001", "1"],
    &["load", "000001", "1"],
    &["load", "one", "1"],
    &["load", "1", "65536"],
    &["load", "1", "99999"],
    &["load", "1", "000000"],
    &["load", "1", "1 "],
    &["load", "1_000", "1"],
];

fn owned(alloc: Global, words: &[&str]) -> Result<Vec<String>, AllocError> {
    let mut owned = Vec::new(alloc);
    for word in words {
        owned.push(String::from_str(alloc, word)?)?;
    }
    Ok(owned)
}

// The command of some words, as the table writes it.
fn told(alloc: Global, words: &[&str]) -> Result<String, Mismatch> {
    let words = owned(alloc, words)?;
    let text = match read_words(alloc, words.as_slice())? {
        None => String::from_str(alloc, NONE)?,
        Some(Command::Check { topology }) => format!(in alloc; "check|{topology}")?,
        Some(Command::Plain { topology, input }) => format!(in alloc; "plain|{topology}|{input}")?,
        Some(
            Command::Replay {
                topology,
                input,
                schedule,
            },
        ) => format!(in alloc; "replay|{topology}|{input}|{schedule}")?,
        Some(
            Command::Run {
                topology,
                input,
                workers,
            },
        ) => format!(in alloc; "run|{topology}|{input}|{workers}")?,
        Some(Command::Load { records, seed }) => format!(in alloc; "load|{records}|{seed}")?,
        Some(
            Command::Track {
                topology,
                input,
                workers,
            },
        ) => format!(in alloc; "track|{topology}|{input}|{workers}")?,
        Some(
            Command::Fold {
                topology,
                input,
                workers,
            },
        ) => format!(in alloc; "fold|{topology}|{input}|{workers}")?,
    };
    Ok(text)
}

fn check(alloc: Global, words: &[&str], want: &str) -> Result<(), Mismatch> {
    let of = format!(in alloc; "{words:?}")?;
    let told = told(alloc, words)?;
    compare(alloc, of.as_str(), told.as_str(), want)
}

fn check_none(alloc: Global, table: &[&[&str]]) -> Result<(), Mismatch> {
    for words in table {
        check(alloc, words, NONE)?;
    }
    Ok(())
}

#[test]
fn words_of_commands(rt: HostRuntime) -> Result<(), Mismatch> {
    for (words, want) in COMMANDS {
        check(rt.alloc(), words, want)?;
    }
    Ok(())
}

#[test]
fn words_of_none(rt: HostRuntime) -> Result<(), Mismatch> {
    let alloc = rt.alloc();
    check_none(alloc, &TOO_FEW_OR_MANY)?;
    check_none(alloc, &OTHER_NAMES)?;
    check_none(alloc, &NO_WORDS)?;
    check_none(alloc, &NO_LOADS)?;
    for workers in NO_WORKERS {
        check(alloc, &["run", "t", "i", workers], NONE)?;
        check(alloc, &["track", "t", "i", workers], NONE)?;
        check(alloc, &["fold", "t", "i", workers], NONE)?;
    }
    Ok(())
}

#[test]
fn other_commands_are_told_apart(rt: HostRuntime) -> Result<(), Mismatch> {
    let alloc = rt.alloc();
    let other = check(alloc, &["check", "t"], "check|u");
    assert!(rt; matches!(other, Err(Mismatch::Told { .. })));
    Ok(())
}

#[test]
fn the_line_that_refuses_words(rt: HostRuntime) -> Result<(), Mismatch> {
    compare(rt.alloc(), "usage", USAGE, USAGE_LINE)
}
