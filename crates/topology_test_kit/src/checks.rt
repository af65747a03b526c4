// Tables of changes of a valid file, a line a file, with `|` between the columns.
use crate::reading::check_told;
use std::alloc::Global;
use std::fmt::Write;
use test_kit::{Mismatch, changed, columns};

/// A valid file with each kind of member. Its tasks in all are 256.
pub const FILE: &str = r#"{"version":1,
 "spout":{"name":"s","kind":"transactional","fields":["a","b"],"batch":5},
 "bolts":[
  {"name":"p","tasks":60,"op":{"do":"filter","field":"a","test":"eq","value":"x"},
   "inputs":[{"from":"s","grouping":"fields","key":["a","b"]}]},
  {"name":"q","tasks":61,"op":{"do":"route","field":"b"},
   "inputs":[{"from":"p","grouping":"shuffle"}]},
  {"name":"r","tasks":62,"op":{"do":"project","fields":["b","a"]},
   "inputs":[{"from":"q","grouping":"direct"}]}],
 "states":[
  {"name":"t","kind":"transactional","parts":63,"key":["a"],"fold":"sum","amount":"b","inputs":["r"]},
  {"name":"u","kind":"opaque","parts":10,"key":["b"],"fold":"count","inputs":["q"]}],
 "ackers":6,"pending":7,"buckets":8,"attempts":9}
"#;

/// A valid file of version 2, whose spout has partitions.
pub const PARTITIONED: &str = r#"{"version":2,
 "spout":{"name":"s","kind":"opaque","fields":["a"],"batch":5,"partitions":4},
 "bolts":[],
 "states":[{"name":"t","kind":"opaque","parts":1,"key":["a"],"fold":"count","inputs":["s"]}]}
"#;

/// What the list of bolts begins with in the valid file.
const BOLTS: &str = r#""bolts":["#;

/// The operation of the first bolt of the valid file.
const OPERATION: &str = r#"{"do":"filter","field":"a","test":"eq","value":"x"}"#;

/// The valid file with 12 more bolts of 64 tasks, each of which gets a copy of each row of `p`. Its
/// tasks in all are 1,024, the most.
pub fn full_file(alloc: Global) -> Result<String, Mismatch> {
    let mut bolts = String::from_str(alloc, BOLTS)?;
    for number in 1..=12 {
        writeln!(
            bolts,
            r#"
  {{"name":"w{number}","tasks":64,"op":{{"do":"custom"}},
   "inputs":[{{"grouping":"all","from":"p"}}]}},"#
        )?;
    }
    changed(alloc, FILE, BOLTS, bolts.as_str())
}

fn bad_columns(alloc: Global, line: &str) -> Result<(), Mismatch> {
    Err(Mismatch::Case(String::from_str(alloc, line)?))
}

/// Reads the valid file with the changes of each line: a part and what stands in its place, as
/// often as the line says, and what is told of the file then.
pub fn check_changes(alloc: Global, table: &str) -> Result<(), Mismatch> {
    check_changes_of(alloc, FILE, table)
}

/// The same of another file.
pub fn check_changes_of(alloc: Global, file: &str, table: &str) -> Result<(), Mismatch> {
    for line in table.trim().split('\n') {
        check_change(alloc, file, line)?;
    }
    Ok(())
}

fn check_change(alloc: Global, file: &str, line: &str) -> Result<(), Mismatch> {
    let columns = columns(alloc, line)?;
    let mut text = String::from_str(alloc, file)?;
    for pair in columns.as_slice().chunks(2) {
        match pair {
            [part, other] => text = changed(alloc, text.as_str(), part, other)?,
            [want] => return check_told(alloc, text.as_str(), want),
            _ => {}
        }
    }
    bad_columns(alloc, line)
}

/// Reads the valid file with the first bolt's operation of each line, which ends with what
/// is told of the file then.
pub fn check_operations(alloc: Global, table: &str) -> Result<(), Mismatch> {
    for line in table.trim().split('\n') {
        check_operation(alloc, line)?;
    }
    Ok(())
}

fn check_operation(alloc: Global, line: &str) -> Result<(), Mismatch> {
    match columns(alloc, line)?.as_slice() {
        [operation, want] => {
            let text = changed(alloc, FILE, OPERATION, operation)?;
            check_told(alloc, text.as_str(), want)
        }
        _ => bad_columns(alloc, line),
    }
}

/// Reads the valid file with the two changes of each line, and with the second alone. Each change
/// stands with what is told of its fault, and the first is told before the second.
pub fn check_pairs(alloc: Global, table: &str) -> Result<(), Mismatch> {
    check_pairs_of(alloc, FILE, table)
}

/// The same of another file.
pub fn check_pairs_of(alloc: Global, file: &str, table: &str) -> Result<(), Mismatch> {
    for line in table.trim().split('\n') {
        check_pair(alloc, file, line)?;
    }
    Ok(())
}

fn check_pair(alloc: Global, file: &str, line: &str) -> Result<(), Mismatch> {
    match columns(alloc, line)?.as_slice() {
        [part, other, first, later_part, later_other, later] => {
            let one = changed(alloc, file, later_part, later_other)?;
            check_told(alloc, one.as_str(), later)?;
            let both = changed(alloc, one.as_str(), part, other)?;
            check_told(alloc, both.as_str(), first)
        }
        _ => bad_columns(alloc, line),
    }
}
