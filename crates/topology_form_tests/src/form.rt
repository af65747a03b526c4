// What a file without a fault says, and the first faults of some, read from its JSON value.
use serde_json::Value as Json;
use std::alloc::Global;
use std::test::*;
use topology_form::parts_from;

const GOOD: &str = r#"{"version":2,
 "spout":{"name":"lines","kind":"opaque","fields":["sentence","b"],"batch":2,"partitions":5},
 "bolts":[{"name":"split","tasks":2,"op":{"do":"split","field":"sentence","as":"word"},
   "inputs":[{"from":"lines","grouping":"fields","key":["b"]}]}],
 "states":[{"name":"counts","kind":"transactional","parts":2,"key":["word"],"fold":"last","amount":"b","inputs":["split"]}],
 "pending":4}"#;

#[test]
fn file_without_a_fault(rt: HostRuntime) -> Result<(), Fail> {
    let json = Json::from_str(rt.alloc(), GOOD).ok().ok_or("it is JSON")?;
    let parts = parts_from(rt.alloc(), json).ok().ok_or("it is a file")?;
    assert_eq!(rt; parts.spout.name.as_str(), "lines");
    assert_eq!(rt; parts.spout.batch, 2);
    assert_eq!(rt; parts.spout.partitions, 5);
    assert_eq!(rt; parts.spout.fields.len(), 2);
    assert_eq!(rt; parts.bolts.len(), 1);
    assert_eq!(rt; parts.states.len(), 1);
    assert_eq!(rt; parts.ackers, 1);
    assert_eq!(rt; parts.pending, 4);
    assert_eq!(rt; parts.buckets, 3);
    assert_eq!(rt; parts.attempts, 10);
    Ok(())
}

/// The printed text of the first fault of form.
fn fault_of(alloc: Global, text: &str) -> Result<String, Fail> {
    let json = Json::from_str(alloc, text).ok().ok_or("it is JSON")?;
    let fault = parts_from(alloc, json).err().ok_or("it has a fault")?;
    Ok(fault.text(alloc)?)
}

const STRANGE: &str =
    r#"{"version":1,"spout":{"name":"x","kind":"opaque","fields":["a"],"batch":1,"z":0,"b":1}}"#;

#[test]
fn first_faults(rt: HostRuntime) -> Result<(), Fail> {
    let cases = [
        ("[]", r#"wrong kind "topology""#),
        (r#"{"a":1}"#, r#"missing "version""#),
        (r#"{"version":3}"#, r#""version" is 3, not from 1 to 2"#),
        (
            r#"{"version":1,"spout":{"name":"x","kind":"y"}}"#,
            r#"unknown "y""#,
        ),
        (STRANGE, r#"unknown "b""#),
    ];
    for (file, told) in &cases {
        assert_eq!(rt; fault_of(rt.alloc(), file)?.as_str(), *told);
    }
    Ok(())
}
