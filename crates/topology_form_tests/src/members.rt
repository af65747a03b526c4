// Faults of a file's form. Each line of a table is a file: parts of the valid file, what stands in
// their places, and what is printed of the fault then.
use test_kit::Mismatch;
use topology_test_kit::{PARTITIONED, check_changes, check_changes_of, check_told};

const NO_TOPOLOGIES: [(&str, &str); 10] = [
    ("[]", "wrong kind \"topology\""),
    (" 7\n", "wrong kind \"topology\""),
    ("\"version\"", "wrong kind \"topology\""),
    ("true", "wrong kind \"topology\""),
    ("null", "wrong kind \"topology\""),
    ("[{\"version\":2}]", "wrong kind \"topology\""),
    ("{}", "missing \"version\""),
    ("{\"version\":1}", "missing \"spout\""),
    ("{\"version\":1,\"spout\":{}}", "missing \"name\""),
    ("{\"version\":1,\"spout\":[]}", "wrong kind \"spout\""),
];

const LACKING: &str = r#"
"version":1, | | missing "version"
"spout":{ | "spouts":{ | missing "spout"
"bolts":[ | "bolt":[ | missing "bolts"
"states":[ | "state":[ | missing "states"
"name":"s", | | missing "name"
"kind":"transactional","fields" | "fields" | missing "kind"
"fields":["a","b"], | | missing "fields"
,"batch":5 | | missing "batch"
"name":"p", | | missing "name"
"tasks":60, | | missing "tasks"
"op":{"do":"route","field":"b"}, | | missing "op"
"inputs":[{"from":"p" | "input":[{"from":"p" | missing "inputs"
{"from":"p", | { | missing "from"
,"grouping":"shuffle" | | missing "grouping"
,"key":["a","b"] | | missing "key"
"name":"t", | | missing "name"
"kind":"opaque", | | missing "kind"
"parts":63, | | missing "parts"
"key":["a"], | | missing "key"
"fold":"count", | | missing "fold"
"amount":"b", | | missing "amount"
"fold":"sum","amount":"b" | "fold":"last" | missing "amount"
"fold":"sum","amount":"b" | "fold":"max" | missing "amount"
"fold":"sum","amount":"b" | "fold":"custom" | missing "amount"
"fold":"sum" | "fold":"custom" | no fault
,"inputs":["r"] | | missing "inputs"
"ackers":6, | | no fault
"pending":7, | | no fault
"buckets":8, | | no fault
,"attempts":9 | | no fault
"#;

const WRONG_KINDS: &str = r#"
"version":1 | "version":"1" | wrong kind "version"
"version":1 | "version":1.0 | wrong kind "version"
"version":1 | "version":1e0 | wrong kind "version"
"version":1 | "version":-0 | wrong kind "version"
"version":1 | "version":null | wrong kind "version"
"version":1 | "version":true | wrong kind "version"
"version":1 | "version":[1] | wrong kind "version"
"version":1 | "version":9223372036854775808 | wrong kind "version"
"version":1 | "version":-9223372036854775809 | wrong kind "version"
"spout":{ | "spout":"s","strange":{ | wrong kind "spout"
"spout":{ | "spout":null,"strange":{ | wrong kind "spout"
"name":"s" | "name":7 | wrong kind "name"
"name":"s" | "name":null | wrong kind "name"
"s","kind":"transactional" | "s","kind":1 | wrong kind "kind"
"s","kind":"transactional" | "s","kind":null | wrong kind "kind"
"fields":["a","b"] | "fields":"a" | wrong kind "fields"
"fields":["a","b"] | "fields":{"a":"b"} | wrong kind "fields"
"fields":["a","b"] | "fields":["a",7] | wrong kind "fields"
"fields":["a","b"] | "fields":["a",null] | wrong kind "fields"
"fields":["a","b"] | "fields":["a",["b"]] | wrong kind "fields"
"fields":["a","b"] | "fields":["a","b","c","d","e","f","g","h",7] | wrong kind "fields"
"fields":["a","b"] | "fields":["a","b","c","d","e","f","g","h","I"] | wrong kind "fields"
"batch":5 | "batch":"5" | wrong kind "batch"
"batch":5 | "batch":1e2 | wrong kind "batch"
"bolts":[ | "bolts":7,"strange":[ | wrong kind "bolts"
"bolts":[ | "bolts":{},"strange":[ | wrong kind "bolts"
"bolts":[ | "bolts":null,"strange":[ | wrong kind "bolts"
"bolts":[ | "bolts":[7, | wrong kind "bolts"
"bolts":[ | "bolts":[[], | wrong kind "bolts"
"name":"p" | "name":["p"] | wrong kind "name"
"tasks":60 | "tasks":60.0 | wrong kind "tasks"
"tasks":60 | "tasks":null | wrong kind "tasks"
"op":{"do":"route","field":"b"} | "op":"route" | wrong kind "op"
"op":{"do":"route","field":"b"} | "op":["route","b"] | wrong kind "op"
"op":{"do":"route","field":"b"} | "op":null | wrong kind "op"
"inputs":[{"from":"p" | "inputs":"p","strange":[{"from":"p" | wrong kind "inputs"
"inputs":[{"from":"p" | "inputs":[null,{"from":"p" | wrong kind "inputs"
{"from":"p","grouping":"shuffle"} | "p" | wrong kind "inputs"
"from":"p" | "from":7 | wrong kind "from"
"from":"p" | "from":"P" | wrong kind "from"
"grouping":"shuffle" | "grouping":null | wrong kind "grouping"
"grouping":"shuffle" | "grouping":["shuffle"] | wrong kind "grouping"
"key":["a","b"] | "key":"a" | wrong kind "key"
"key":["a","b"] | "key":["a",7] | wrong kind "key"
"key":["a","b"] | "key":null | wrong kind "key"
"states":[ | "states":"t","strange":[ | wrong kind "states"
"states":[ | "states":null,"strange":[ | wrong kind "states"
"states":[ | "states":["t", | wrong kind "states"
"name":"t" | "name":{} | wrong kind "name"
"t","kind":"transactional" | "t","kind":null | wrong kind "kind"
"parts":63 | "parts":"63" | wrong kind "parts"
"parts":63 | "parts":-0 | wrong kind "parts"
"key":["a"] | "key":{} | wrong kind "key"
"key":["a"] | "key":["a",""] | wrong kind "key"
"fold":"sum" | "fold":["sum"] | wrong kind "fold"
"fold":"sum" | "fold":null | wrong kind "fold"
"amount":"b" | "amount":7 | wrong kind "amount"
"amount":"b" | "amount":"" | wrong kind "amount"
"amount":"b" | "amount":null | wrong kind "amount"
"inputs":["r"] | "inputs":"r" | wrong kind "inputs"
"inputs":["r"] | "inputs":["r",7] | wrong kind "inputs"
"inputs":["r"] | "inputs":["r",{"from":"q"}] | wrong kind "inputs"
"ackers":6 | "ackers":null | wrong kind "ackers"
"ackers":6 | "ackers":"6" | wrong kind "ackers"
"pending":7 | "pending":null | wrong kind "pending"
"pending":7 | "pending":7.5 | wrong kind "pending"
"buckets":8 | "buckets":null | wrong kind "buckets"
"buckets":8 | "buckets":[] | wrong kind "buckets"
"attempts":9 | "attempts":null | wrong kind "attempts"
"attempts":9 | "attempts":9e0 | wrong kind "attempts"
"#;

// The names of a state, which nothing refers to.
const NAMES: &str = r#"
"name":"t" | "name":"a" | no fault
"name":"t" | "name":"z-_09az" | no fault
"name":"t" | "name":"a2345678901234567890123456789012" | no fault
"name":"t" | "name":"\u0061" | no fault
"name":"t" | "name":"a23456789012345678901234567890123" | wrong kind "name"
"name":"t" | "name":"" | wrong kind "name"
"name":"t" | "name":"T" | wrong kind "name"
"name":"t" | "name":"tT" | wrong kind "name"
"name":"t" | "name":"1t" | wrong kind "name"
"name":"t" | "name":"_t" | wrong kind "name"
"name":"t" | "name":"-t" | wrong kind "name"
"name":"t" | "name":"t t" | wrong kind "name"
"name":"t" | "name":"t.t" | wrong kind "name"
"name":"t" | "name":"t\u0000" | wrong kind "name"
"name":"t" | "name":"té" | wrong kind "name"
"name":"t" | "name":"{t" | wrong kind "name"
"name":"t" | "name":"t`" | wrong kind "name"
"#;

const UNKNOWN: &str = r#"
"s","kind":"transactional" | "s","kind":"exact" | unknown "exact"
"s","kind":"transactional" | "s","kind":"Transactional" | unknown "Transactional"
"s","kind":"transactional" | "s","kind":"" | unknown ""
"grouping":"shuffle" | "grouping":"sorted" | unknown "sorted"
"grouping":"shuffle" | "grouping":"a\"b\\" | unknown "a\"b\\"
"t","kind":"transactional" | "t","kind":"opaque " | unknown "opaque "
"fold":"sum" | "fold":"min" | unknown "min"
"fold":"sum" | "fold":"Custom" | unknown "Custom"
"fold":"sum" | "fold":"first" | unknown "first"
"fold":"sum" | "fold":"\u00e9\u0001\/\n" | unknown "é\u0001/\n"
"version":1 | "version":1,"strange":0 | unknown "strange"
"version":1 | "version":1,"strange":null | unknown "strange"
"version":1 | "version":1,"Version":1 | unknown "Version"
"version":1 | "version":1,"a\"b\\":1 | unknown "a\"b\\"
"name":"s" | "name":"s","tasks":1 | unknown "tasks"
"name":"p" | "name":"p","kind":"opaque" | unknown "kind"
"name":"t" | "name":"t","tasks":1 | unknown "tasks"
"from":"p" | "from":"p","name":"p" | unknown "name"
"grouping":"shuffle" | "grouping":"shuffle","key":["a"] | unknown "key"
"grouping":"shuffle" | "grouping":"all","key":["a"] | unknown "key"
"grouping":"shuffle" | "grouping":"global","key":["a"] | unknown "key"
"grouping":"shuffle" | "grouping":"direct","key":["a"] | unknown "key"
"grouping":"shuffle" | "grouping":"none","key":["a"] | unknown "key"
"grouping":"shuffle" | "grouping":"local_or_shuffle","key":null | unknown "key"
"fold":"count" | "fold":"count","amount":"b" | unknown "amount"
"fold":"count" | "fold":"count","amount":7 | unknown "amount"
"version":1 | "b":0,"version":1,"a":0,"B":0 | unknown "B"
"version":1 | "strange":0,"version":1,"strang":0 | unknown "strang"
"version":1 | "a":0,"version":1,"":0 | unknown ""
"version":1 | "é":0,"version":1,"z":0 | unknown "z"
"version":1 | "\uD83D\uDE00":0,"version":1,"\uFFEE":0 | unknown "￮"
"from":"p" | "z":0,"from":"p","y":0 | unknown "y"
"name":"u" | "z":0,"name":"u","y":0 | unknown "y"
"#;

// In each range the least and the most are good.
const RANGES: &str = r#"
"version":1 | "version":0 | "version" is 0, not from 1 to 2
"version":1 | "version":2 | no fault
"version":1 | "version":3 | "version" is 3, not from 1 to 2
"version":1 | "version":-1 | "version" is -1, not from 1 to 2
"version":1 | "version":9223372036854775807 | "version" is 9223372036854775807, not from 1 to 2
"version":1 | "version":-9223372036854775808 | "version" is -9223372036854775808, not from 1 to 2
"version":1 | "version":3,"version":1 | no fault
"version":1 | "version":1,"version":3 | "version" is 3, not from 1 to 2
"version":1 | "\u0076ersion":1 | no fault
"ackers":6 | "ackers":9223372036854775807 | "ackers" is 9223372036854775807, not from 1 to 16
"fields":["a","b"] | "fields":[] | "fields" is 0, not from 1 to 8
"fields":["a","b"] | "fields":["a","b","c","d","e","f","g","h"] | no fault
"fields":["a","b"] | "fields":["a","b","c","d","e","f","g","h","i"] | "fields" is 9, not from 1 to 8
"batch":5 | "batch":0 | "batch" is 0, not from 1 to 100000
"batch":5 | "batch":1 | no fault
"batch":5 | "batch":100000 | no fault
"batch":5 | "batch":100001 | "batch" is 100001, not from 1 to 100000
"tasks":60 | "tasks":0 | "tasks" is 0, not from 1 to 64
"tasks":60 | "tasks":1 | no fault
"tasks":60 | "tasks":64 | no fault
"tasks":60 | "tasks":65 | "tasks" is 65, not from 1 to 64
"inputs":[{"from":"p" | "inputs":[],"strange":[{"from":"p" | "inputs" is 0, not from 1 to 32
"key":["a","b"] | "key":[] | "key" is 0, not from 1 to 8
"key":["a","b"] | "key":["a"] | no fault
"key":["a","b"] | "key":["a","b","c","d","e","f","g","h"] | no field "c" at "p"
"key":["a","b"] | "key":["a","b","c","d","e","f","g","h","i"] | "key" is 9, not from 1 to 8
"states":[ | "states":[],"strange":[ | "states" is 0, not from 1 to 8
"states":[ | "states":[0,0,0,0,0,0,0,0],"strange":[ | wrong kind "states"
"states":[ | "states":[0,0,0,0,0,0,0,0,0],"strange":[ | "states" is 9, not from 1 to 8
"parts":63 | "parts":0 | "parts" is 0, not from 1 to 64
"parts":63 | "parts":1 | no fault
"parts":63 | "parts":64 | no fault
"parts":63 | "parts":65 | "parts" is 65, not from 1 to 64
"key":["a"] | "key":[] | "key" is 0, not from 1 to 8
"key":["a"] | "key":["a","b","c","d","e","f","g","h"] | no field "c" at "t"
"key":["a"] | "key":["a","b","c","d","e","f","g","h","i"] | "key" is 9, not from 1 to 8
"inputs":["r"] | "inputs":[] | "inputs" is 0, not from 1 to 33
"ackers":6 | "ackers":0 | "ackers" is 0, not from 1 to 16
"ackers":6 | "ackers":1 | no fault
"ackers":6 | "ackers":16 | no fault
"ackers":6 | "ackers":17 | "ackers" is 17, not from 1 to 16
"pending":7 | "pending":0 | "pending" is 0, not from 1 to 64
"pending":7 | "pending":1 | no fault
"pending":7 | "pending":64 | no fault
"pending":7 | "pending":65 | "pending" is 65, not from 1 to 64
"buckets":8 | "buckets":1 | "buckets" is 1, not from 2 to 16
"buckets":8 | "buckets":2 | no fault
"buckets":8 | "buckets":16 | no fault
"buckets":8 | "buckets":17 | "buckets" is 17, not from 2 to 16
"attempts":9 | "attempts":0 | "attempts" is 0, not from 1 to 100
"attempts":9 | "attempts":1 | no fault
"attempts":9 | "attempts":100 | no fault
"attempts":9 | "attempts":101 | "attempts" is 101, not from 1 to 100
"#;

// Of the file of version 2 whose spout has partitions.
const PARTITIONS: &str = r#"
"partitions":4 | "partitions":0 | "partitions" is 0, not from 1 to 16
"partitions":4 | "partitions":1 | no fault
"partitions":4 | "partitions":16 | no fault
"partitions":4 | "partitions":17 | "partitions" is 17, not from 1 to 16
"partitions":4 | "partitions":-1 | "partitions" is -1, not from 1 to 16
"partitions":4 | "partitions":0,"partitions":4 | no fault
"partitions":4 | "partitions":null | wrong kind "partitions"
"partitions":4 | "partitions":"4" | wrong kind "partitions"
"partitions":4 | "partitions":4.0 | wrong kind "partitions"
,"partitions":4 | | missing "partitions"
"partitions":4 | "Partitions":4 | missing "partitions"
"name":"t" | "name":"t","partitions":4 | unknown "partitions"
"version":2 | "version":2,"partitions":4 | unknown "partitions"
"name":"s" | "name":"s","z":0,"b":0 | unknown "b"
"#;

// Of the same file, changed to one whose spout has no partitions.
const NO_PARTITIONS: &str = r#"
"version":2 | "version":1 | unknown "partitions"
"version":2 | "version":1 | ,"partitions":4 | | no fault
"version":2 | "version":1 | "partitions":4 | "partitions":null | unknown "partitions"
"version":2 | "version":1 | "partitions":4 | "partitions":17 | unknown "partitions"
"version":2 | "version":1 | "name":"s" | "name":"s","b":0 | unknown "b"
"version":2 | "version":1 | "name":"s" | "name":"s","z":0 | unknown "partitions"
"s","kind":"opaque" | "s","kind":"transactional" | unknown "partitions"
"s","kind":"opaque" | "s","kind":"transactional" | ,"partitions":4 | | no fault
"s","kind":"opaque" | "s","kind":"transactional" | "partitions":4 | "partitions":0 | unknown "partitions"
"s","kind":"opaque" | "s","kind":"transactional" | "name":"s" | "name":"s","b":0 | unknown "b"
"s","kind":"opaque" | "s","kind":"transactional" | "name":"s" | "name":"s","z":0 | unknown "partitions"
"#;

#[test]
fn texts_that_are_no_topology(rt: HostRuntime) -> Result<(), Mismatch> {
    for (text, want) in NO_TOPOLOGIES {
        check_told(rt.alloc(), text, want)?;
    }
    Ok(())
}

#[test]
fn members_that_are_not_there(rt: HostRuntime) -> Result<(), Mismatch> {
    check_changes(rt.alloc(), LACKING)
}

#[test]
fn members_of_a_wrong_kind(rt: HostRuntime) -> Result<(), Mismatch> {
    check_changes(rt.alloc(), WRONG_KINDS)
}

#[test]
fn well_and_badly_formed_names(rt: HostRuntime) -> Result<(), Mismatch> {
    check_changes(rt.alloc(), NAMES)
}

#[test]
fn unknown_words_and_strange_members(rt: HostRuntime) -> Result<(), Mismatch> {
    check_changes(rt.alloc(), UNKNOWN)
}

#[test]
fn ends_of_the_ranges(rt: HostRuntime) -> Result<(), Mismatch> {
    check_changes(rt.alloc(), RANGES)
}

#[test]
fn partitions_of_an_opaque_spout(rt: HostRuntime) -> Result<(), Mismatch> {
    check_changes_of(rt.alloc(), PARTITIONED, PARTITIONS)
}

#[test]
fn partitions_of_other_spouts(rt: HostRuntime) -> Result<(), Mismatch> {
    check_changes_of(rt.alloc(), PARTITIONED, NO_PARTITIONS)
}
