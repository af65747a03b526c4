// The largest file, with every count at its limit, and what is printed where one of them is passed.
use crate::checks::{check_of, filled_up};
use std::alloc::Global;
use std::fmt::Write;
use storm_test_kit::{CALM, check_refusal};
use test_kit::{Mismatch, changed};

const SPOUT: &str = r#"{"version":1,
 "spout":{"name":"s","kind":"transactional",
   "fields":["a","b","c","d","e","f","g","h"],"batch":100000},
 "#;

const LARGEST: &str = "valid components 40 tasks 1024 weight 4096 depth 3\n";

// What stands in the largest file in the place of something else, and what is printed then.
const PASSED: [(&str, &str, &str); 8] = [
    (
        r#""fields":["a","#,
        r#""fields":["z","a","#,
        "topology: \"fields\" is 9, not from 1 to 8\n",
    ),
    (
        r#""batch":100000"#,
        r#""batch":100001"#,
        "topology: \"batch\" is 100001, not from 1 to 100000\n",
    ),
    (
        r#""bolts":["#,
        r#""bolts":[7,"#,
        "topology: \"bolts\" is 33, not from 0 to 32\n",
    ),
    (
        r#""name":"b32","inputs":["#,
        r#""name":"b32","inputs":[7,"#,
        "topology: \"inputs\" is 33, not from 1 to 32\n",
    ),
    (
        r#""states":["#,
        r#""states":[7,"#,
        "topology: \"states\" is 9, not from 1 to 8\n",
    ),
    (
        r#""name":"t8","inputs":["#,
        r#""name":"t8","inputs":["s","#,
        "topology: \"inputs\" is 34, not from 1 to 33\n",
    ),
    (
        r#""parts":12,"name":"t1""#,
        r#""parts":13,"name":"t1""#,
        "topology: \"tasks in all\" is 1025, not from 1 to 1024\n",
    ),
    (
        r#""name":"t7","inputs":["#,
        r#""name":"t7","inputs":["s","#,
        "topology: weight 4097, most 4096\n",
    ),
];

// 32 bolts of 29 tasks. All take from the spout, and the last from the other 31 too, 14 of which
// it gets copies of: there is one way to each of these, and 14 * 29 + 17 + 1 to the last.
fn write_bolts(text: &mut String) -> Result<(), Mismatch> {
    for number in 1..=31 {
        writeln!(
            text,
            r#"{{"name":"b{number}","inputs":[{{"from":"s","grouping":"shuffle"}}],
   "tasks":29,"op":{{"do":"custom"}}}},"#
        )?;
    }
    text.push_str(r#"{"name":"b32","inputs":["#)?;
    for number in 1..=31 {
        let grouping = if number <= 14 { "all" } else { "global" };
        writeln!(text, r#"{{"from":"b{number}","grouping":"{grouping}"}},"#)?;
    }
    text.push_str(r#"{"from":"s","grouping":"none"}],"tasks":29,"op":{"do":"custom"}}"#)?;
    Ok(())
}

// 8 states of 12 parts that take from all bolts, the last from the spout too: 455 ways to each, and
// one more to the last.
fn write_states(alloc: Global, text: &mut String) -> Result<(), Mismatch> {
    let mut names = String::from_str(alloc, "\"b1\"")?;
    for number in 2..=32 {
        write!(names, ",\"b{number}\"")?;
    }
    for number in 1..=8 {
        let (first, end) = if number == 8 {
            ("\"s\",", "")
        } else {
            ("", ",")
        };
        writeln!(
            text,
            r#"{{"parts":12,"name":"t{number}","inputs":[{first}{names}],
   "kind":"transactional","key":["a"],"fold":"count"}}{end}"#
        )?;
    }
    Ok(())
}

// Its weight is 31 + 424 + 8 * 455 + 1.
fn largest_file(alloc: Global) -> Result<String, Mismatch> {
    let mut text = String::from_str(alloc, SPOUT)?;
    text.push_str("\"bolts\":[")?;
    write_bolts(&mut text)?;
    text.push_str("],\n \"states\":[")?;
    write_states(alloc, &mut text)?;
    text.push_str("],\n \"ackers\":16,\"pending\":64,\"buckets\":16,\"attempts\":100}")?;
    Ok(text)
}

#[test]
fn a_check_of_the_largest_file(rt: HostRuntime) -> Result<(), Mismatch> {
    let alloc = rt.alloc();
    let file = filled_up(alloc, largest_file(alloc)?.as_str(), 65_536)?;
    assert!(rt; file.len() == 65_536);
    check_refusal(&rt, alloc, check_of(file.as_str()), CALM, 0, LARGEST)
}

#[test]
fn checks_of_files_with_one_more(rt: HostRuntime) -> Result<(), Mismatch> {
    let alloc = rt.alloc();
    let file = largest_file(alloc)?;
    for (part, other, want) in PASSED {
        let topology = changed(alloc, file.as_str(), part, other)?;
        check_refusal(&rt, alloc, check_of(topology.as_str()), CALM, 3, want)?;
    }
    Ok(())
}
