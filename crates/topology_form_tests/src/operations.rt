// Faults of operations and of long lists and texts.
use std::alloc::Global;
use test_kit::{Mismatch, changed};
use topology_test_kit::{FILE, check_operations, check_told};

// Operations of the first bolt, and what is printed of the file's fault.
const OPERATIONS: &str = r#"
{} | missing "do"
{"do":"split"} | missing "field"
{"do":"split","field":"a"} | missing "as"
{"do":"project"} | missing "fields"
{"do":"filter","test":"eq","value":1} | missing "field"
{"do":"filter","field":"a","value":1} | missing "test"
{"do":"filter","field":"a","test":"eq"} | missing "value"
{"do":"set","value":1} | missing "field"
{"do":"set","field":"a"} | missing "value"
{"do":"len","as":"c"} | missing "field"
{"do":"len","field":"a"} | missing "as"
{"do":"route"} | missing "field"
{"do":"flaky"} | missing "below"
{"do":"mute"} | missing "below"
{"do":7} | wrong kind "do"
{"do":null} | wrong kind "do"
{"do":"split","field":"A","as":"c"} | wrong kind "field"
{"do":"split","field":"a","as":"C"} | wrong kind "as"
{"do":"project","fields":"a"} | wrong kind "fields"
{"do":"project","fields":["a",7]} | wrong kind "fields"
{"do":"project","fields":["a","b","c","d","e","f","g","h",""]} | wrong kind "fields"
{"do":"filter","field":null,"test":"eq","value":1} | wrong kind "field"
{"do":"filter","field":"a","test":1,"value":1} | wrong kind "test"
{"do":"filter","field":"a","test":"eq","value":null} | wrong kind "value"
{"do":"filter","field":"a","test":"eq","value":1.0} | wrong kind "value"
{"do":"set","field":1,"value":1} | wrong kind "field"
{"do":"set","field":"a","value":true} | wrong kind "value"
{"do":"set","field":"a","value":["x"]} | wrong kind "value"
{"do":"set","field":"a","value":-0} | wrong kind "value"
{"do":"set","field":"a","value":9223372036854775808} | wrong kind "value"
{"do":"len","field":{},"as":"c"} | wrong kind "field"
{"do":"len","field":"a","as":1} | wrong kind "as"
{"do":"route","field":""} | wrong kind "field"
{"do":"flaky","below":"2"} | wrong kind "below"
{"do":"mute","below":2.0} | wrong kind "below"
{"do":"join"} | unknown "join"
{"do":""} | unknown ""
{"do":"Split","field":"a","as":"c"} | unknown "Split"
{"do":"filter","field":"a","test":"gt","value":1} | unknown "gt"
{"do":"split","field":"a","as":"c","fields":["a"]} | unknown "fields"
{"do":"project","fields":["a","b"],"field":"a"} | unknown "field"
{"do":"filter","field":"a","test":"eq","value":1,"as":"c"} | unknown "as"
{"do":"set","field":"a","value":1,"test":"eq"} | unknown "test"
{"do":"len","field":"a","as":"c","value":1} | unknown "value"
{"do":"route","field":"a","as":"c"} | unknown "as"
{"do":"flaky","below":2,"field":"a"} | unknown "field"
{"do":"mute","below":2,"do_":1} | unknown "do_"
{"do":"custom","below":2} | unknown "below"
{"z":1,"do":"custom","y":1} | unknown "y"
{"do":"project","fields":[]} | "fields" is 0, not from 1 to 8
{"do":"project","fields":["a","b","c","d","e","f","g","h"]} | no field "c" at "p"
{"do":"project","fields":["a","b","c","d","e","f","g","h","i"]} | "fields" is 9, not from 1 to 8
{"do":"flaky","below":0} | "below" is 0, not from 1 to 100
{"do":"flaky","below":1} | no fault
{"do":"flaky","below":100} | no fault
{"do":"flaky","below":101} | "below" is 101, not from 1 to 100
{"do":"mute","below":0} | "below" is 0, not from 1 to 100
{"do":"mute","below":1} | no fault
{"do":"mute","below":100} | no fault
{"do":"mute","below":101} | "below" is 101, not from 1 to 100
{"do":"set","field":"a","value":""} | no fault
{"do":"set","field":"a","value":9223372036854775807} | no fault
{"do":"set","field":"b","value":-9223372036854775808} | no fault
{"do":"filter","field":"b","test":"ne","value":0} | no fault
{"do":"filter","field":"b","test":"lt","value":"é"} | no fault
{"do":"len","field":"b","as":"c"} | no fault
{"do":"route","field":"b"} | no fault
{"do":"custom"} | no fault
"#;

// A part of the valid file, what stands in its place: a start, a piece so many times, and a rest,
// and what is printed of the fault.
const LONG: [(&str, &str, &str, usize, &str, &str); 12] = [
    (
        "\"bolts\":[",
        "\"bolts\":[0",
        ",0",
        31,
        "],\"strange\":[",
        "wrong kind \"bolts\"",
    ),
    (
        "\"bolts\":[",
        "\"bolts\":[0",
        ",0",
        32,
        "],\"strange\":[",
        "\"bolts\" is 33, not from 0 to 32",
    ),
    (
        "\"inputs\":[{\"from\":\"p\"",
        "\"inputs\":[0",
        ",0",
        31,
        "],\"strange\":[{\"from\":\"p\"",
        "wrong kind \"inputs\"",
    ),
    (
        "\"inputs\":[{\"from\":\"p\"",
        "\"inputs\":[0",
        ",0",
        32,
        "],\"strange\":[{\"from\":\"p\"",
        "\"inputs\" is 33, not from 1 to 32",
    ),
    (
        "\"inputs\":[\"r\"",
        "\"inputs\":[\"r\"",
        ",\"r\"",
        32,
        "",
        "\"r\" twice",
    ),
    (
        "\"inputs\":[\"r\"",
        "\"inputs\":[\"r\"",
        ",\"r\"",
        33,
        "",
        "\"inputs\" is 34, not from 1 to 33",
    ),
    // the bytes of a constant are those of its text, without the escapes
    (
        "\"value\":\"x\"",
        "\"value\":\"",
        "x",
        256,
        "\"",
        "no fault",
    ),
    (
        "\"value\":\"x\"",
        "\"value\":\"",
        "x",
        257,
        "\"",
        "\"value\" is 257, not from 0 to 256",
    ),
    (
        "\"value\":\"x\"",
        "\"value\":\"",
        "é",
        128,
        "\"",
        "no fault",
    ),
    (
        "\"value\":\"x\"",
        "\"value\":\"",
        "é",
        129,
        "\"",
        "\"value\" is 258, not from 0 to 256",
    ),
    (
        "\"value\":\"x\"",
        "\"value\":\"",
        "\\n",
        256,
        "\"",
        "no fault",
    ),
    (
        "\"value\":\"x\"",
        "\"value\":\"",
        "\\u00e9",
        129,
        "\"",
        "\"value\" is 258, not from 0 to 256",
    ),
];

#[test]
fn faults_of_operations(rt: HostRuntime) -> Result<(), Mismatch> {
    check_operations(rt.alloc(), OPERATIONS)
}

// The valid file with a part of it changed to a start, a piece so many times, and a rest.
fn lengthened(
    alloc: Global,
    part: &str,
    start: &str,
    piece: &str,
    times: usize,
    rest: &str,
) -> Result<String, Mismatch> {
    let mut other = String::from_str(alloc, start)?;
    other.push_str(piece.repeat(alloc, times)?.as_str())?;
    other.push_str(rest)?;
    changed(alloc, FILE, part, other.as_str())
}

#[test]
fn long_lists_and_constants(rt: HostRuntime) -> Result<(), Mismatch> {
    let alloc = rt.alloc();
    for (part, start, piece, times, rest, want) in LONG {
        let text = lengthened(alloc, part, start, piece, times, rest)?;
        check_told(alloc, text.as_str(), want)?;
    }
    Ok(())
}
