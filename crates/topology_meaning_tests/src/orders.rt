// Files with two faults: the one that stands first in the order of the checks is told. A line of a
// table of pairs has two changes of the valid file, each with what is printed of its fault.
use test_kit::Mismatch;
use topology_test_kit::{
    PARTITIONED, check_changes, check_operations, check_pairs, check_pairs_of, full_file,
};

const WALK_TO_BOLTS: &str = r#"
"version":1 | "version":0 | "version" is 0, not from 1 to 2 | "spout":{ | "spout":7,"strange":{ | wrong kind "spout"
"name":"s" | "name":"S" | wrong kind "name" | "kind":"transactional","fields" | "kind":"exact","fields" | unknown "exact"
"kind":"transactional","fields" | "fields" | missing "kind" | ["a","b"],"batch" | [],"batch" | "fields" is 0, not from 1 to 8
"fields":["a","b"] | "fields":"a" | wrong kind "fields" | "batch":5 | "batch":0 | "batch" is 0, not from 1 to 100000
"batch":5 | "batch":null | wrong kind "batch" | "name":"s" | "Name":0,"name":"s" | unknown "Name"
"name":"s" | "Name":0,"name":"s" | unknown "Name" | "bolts":[ | "bolts":7,"strange":[ | wrong kind "bolts"
"#;

// Of the file of version 2 whose spout has partitions.
const WALK_TO_PARTITIONS: &str = r#"
"version":2 | "version":3 | "version" is 3, not from 1 to 2 | "partitions":4 | "partitions":0 | "partitions" is 0, not from 1 to 16
"s","kind":"opaque" | "s","kind":"exact" | unknown "exact" | ,"partitions":4 | | missing "partitions"
"batch":5 | "batch":0 | "batch" is 0, not from 1 to 100000 | "partitions":4 | "partitions":null | wrong kind "partitions"
"partitions":4 | "partitions":17 | "partitions" is 17, not from 1 to 16 | "name":"s" | "a":0,"name":"s" | unknown "a"
,"partitions":4 | | missing "partitions" | "name":"s" | "a":0,"name":"s" | unknown "a"
"partitions":4 | "partitions":"4" | wrong kind "partitions" | "bolts":[] | "bolts":7 | wrong kind "bolts"
"version":2 | "version":1 | unknown "partitions" | "bolts":[] | "bolts":7 | wrong kind "bolts"
,"partitions":4 | | missing "partitions" | "t","kind":"opaque" | "t","kind":"transactional" | not exactly once "t"
"#;

const WALK_OF_BOLTS: &str = r#"
"bolts":[ | "bolts":[7, | wrong kind "bolts" | "name":"p" | "name":null | wrong kind "name"
"name":"p" | "name":"" | wrong kind "name" | "tasks":60 | "tasks":0 | "tasks" is 0, not from 1 to 64
"tasks":60 | "tasks":65 | "tasks" is 65, not from 1 to 64 | "op":{"do":"filter" | "op":7,"strange":{"do":"filter" | wrong kind "op"
"op":{"do":"filter" | "op":7,"strange":{"do":"filter" | wrong kind "op" | "inputs":[{"from":"s" | "inputs":7,"other":[{"from":"s" | wrong kind "inputs"
"do":"filter" | "do":"join" | unknown "join" | "field":"a" | "field":"A" | wrong kind "field"
"field":"a" | "field":7 | wrong kind "field" | "test":"eq" | "test":"gt" | unknown "gt"
"test":"eq" | "test":null | wrong kind "test" | "value":"x" | "value":1.5 | wrong kind "value"
,"value":"x" | | missing "value" | "do":"filter" | "as":0,"do":"filter" | unknown "as"
"do":"filter" | "as":0,"do":"filter" | unknown "as" | "inputs":[{"from":"s" | "inputs":7,"other":[{"from":"s" | wrong kind "inputs"
"inputs":[{"from":"s" | "inputs":[7,{"from":"s" | wrong kind "inputs" | "key":["a","b"] | "key":7 | wrong kind "key"
"from":"s" | "from":"S" | wrong kind "from" | "grouping":"fields" | "grouping":7 | wrong kind "grouping"
"grouping":"fields" | "grouping":"sorted" | unknown "sorted" | "key":["a","b"] | "key":7 | wrong kind "key"
"key":["a","b"] | "key":[] | "key" is 0, not from 1 to 8 | "from":"s" | "as":0,"from":"s" | unknown "as"
{"from":"p" | {"as":0,"from":"s","grouping":"all"},{"from":"p" | unknown "as" | "grouping":"shuffle" | "grouping":7 | wrong kind "grouping"
{"from":"p" | {"from":"s","grouping":"all"},7,{"from":"p" | wrong kind "inputs" | "grouping":"shuffle" | "grouping":7 | wrong kind "grouping"
"from":"s" | "as":0,"from":"s" | unknown "as" | "name":"p" | "Name":0,"name":"p" | unknown "Name"
"name":"p" | "strange":0,"name":"p" | unknown "strange" | "name":"q" | "name":"Q" | wrong kind "name"
"grouping":"shuffle" | "grouping":"sorted" | unknown "sorted" | "name":"r" | "name":"" | wrong kind "name"
"grouping":"shuffle" | "grouping":"sorted" | unknown "sorted" | {"name":"r" | 7,{"name":"r" | wrong kind "bolts"
"name":"r" | "z":0,"name":"r" | unknown "z" | "states":[ | "states":7,"strange":[ | wrong kind "states"
"#;

const WALK_FROM_STATES: &str = r#"
"states":[ | "states":[7, | wrong kind "states" | "name":"t" | "name":"T" | wrong kind "name"
"name":"t" | "name":7 | wrong kind "name" | "transactional","parts" | "exact","parts" | unknown "exact"
"transactional","parts" | "exact","parts" | unknown "exact" | "parts":63 | "parts":0 | "parts" is 0, not from 1 to 64
"parts":63 | "parts":65 | "parts" is 65, not from 1 to 64 | "key":["a"] | "key":[] | "key" is 0, not from 1 to 8
"key":["a"] | "key":["A"] | wrong kind "key" | "fold":"sum" | "fold":"min" | unknown "min"
"fold":"sum" | "fold":"min" | unknown "min" | "amount":"b" | "amount":7 | wrong kind "amount"
"fold":"sum","amount":"b" | "fold":"custom" | missing "amount" | "inputs":["r"] | "inputs":[] | "inputs" is 0, not from 1 to 33
"amount":"b" | "amount":null | wrong kind "amount" | "inputs":["r"] | "inputs":[] | "inputs" is 0, not from 1 to 33
"inputs":["r"] | "inputs":[7] | wrong kind "inputs" | "name":"t" | "a":0,"name":"t" | unknown "a"
"inputs":["q"] | "inputs":"q" | wrong kind "inputs" | "fold":"count" | "fold":"count","amount":0 | unknown "amount"
"name":"t" | "z":0,"name":"t" | unknown "z" | "name":"u" | "name":7 | wrong kind "name"
"name":"t" | "z":0,"name":"t" | unknown "z" | {"name":"u" | 7,{"name":"u" | wrong kind "states"
"name":"u" | "z":0,"name":"u" | unknown "z" | "ackers":6 | "ackers":0 | "ackers" is 0, not from 1 to 16
"ackers":6 | "ackers":null | wrong kind "ackers" | "pending":7 | "pending":65 | "pending" is 65, not from 1 to 64
"pending":7 | "pending":0 | "pending" is 0, not from 1 to 64 | "buckets":8 | "buckets":"8" | wrong kind "buckets"
"buckets":8 | "buckets":1 | "buckets" is 1, not from 2 to 16 | "attempts":9 | "attempts":0 | "attempts" is 0, not from 1 to 100
"attempts":9 | "attempts":101 | "attempts" is 101, not from 1 to 100 | "version":1 | "a":0,"version":1 | unknown "a"
"version":1 | "version":1,"z":0 | unknown "z" | "name":"p" | "name":"s" | "s" twice
"#;

// Operations of the first bolt with two faults each, also where their members stand in another
// order.
const OPERATIONS: &str = r#"
{"a":0} | missing "do"
{"a":0,"do":7} | wrong kind "do"
{"a":0,"do":"join"} | unknown "join"
{"as":7,"do":"split"} | missing "field"
{"a":0,"as":"C","field":"a","do":"split"} | wrong kind "as"
{"a":0,"fields":[],"do":"project"} | "fields" is 0, not from 1 to 8
{"value":1.5,"test":"gt","field":"A","do":"filter"} | wrong kind "field"
{"value":1.5,"test":"gt","field":"a","do":"filter"} | unknown "gt"
{"a":0,"value":1.5,"test":"lt","field":"a","do":"filter"} | wrong kind "value"
{"value":1.5,"do":"set"} | missing "field"
{"a":0,"value":1.5,"field":"a","do":"set"} | wrong kind "value"
{"as":7,"field":"","do":"len"} | wrong kind "field"
{"a":0,"field":"a","do":"len"} | missing "as"
{"a":0,"do":"route"} | missing "field"
{"a":0,"below":0,"do":"flaky"} | "below" is 0, not from 1 to 100
{"a":0,"do":"mute"} | missing "below"
{"do":"len","field":"c","as":"a"} | no field "c" at "p"
{"do":"project","fields":["c","a","a"]} | "a" twice
"#;

// Objects whose members stand in another order than the tables', all with faults.
const TURNED: &str = r#"
{"name":"s","kind":"transactional","fields":["a","b"],"batch":5} | {"a":0,"batch":0,"fields":[],"kind":"","name":""} | wrong kind "name"
{"name":"s","kind":"transactional","fields":["a","b"],"batch":5} | {"a":0,"batch":0,"fields":[],"kind":"","name":"s"} | unknown ""
{"name":"s","kind":"transactional","fields":["a","b"],"batch":5} | {"a":0,"batch":0,"fields":[],"kind":"opaque","name":"s"} | "fields" is 0, not from 1 to 8
{"name":"s","kind":"transactional","fields":["a","b"],"batch":5} | {"a":0,"batch":0,"fields":["a"],"kind":"opaque","name":"s"} | "batch" is 0, not from 1 to 100000
{"from":"p","grouping":"shuffle"} | {"a":0,"key":7,"grouping":"fields","from":7} | wrong kind "from"
{"from":"p","grouping":"shuffle"} | {"a":0,"key":7,"grouping":7,"from":"p"} | wrong kind "grouping"
{"from":"p","grouping":"shuffle"} | {"a":0,"key":7,"grouping":"fields","from":"p"} | wrong kind "key"
{"from":"p","grouping":"shuffle"} | {"key":7,"grouping":"all","a":0,"from":"p"} | unknown "a"
"bolts":[ | "bolts":[{"a":0,"inputs":7,"op":7,"tasks":0,"name":7}, | wrong kind "name"
"bolts":[ | "bolts":[{"a":0,"inputs":7,"op":7,"tasks":0,"name":"o"}, | "tasks" is 0, not from 1 to 64
"bolts":[ | "bolts":[{"a":0,"inputs":7,"op":7,"tasks":1,"name":"o"}, | wrong kind "op"
"bolts":[ | "bolts":[{"a":0,"inputs":7,"op":{"do":"custom"},"tasks":1,"name":"o"}, | wrong kind "inputs"
"states":[ | "states":[{"a":0,"inputs":7,"amount":7,"fold":"","key":7,"parts":0,"kind":"","name":7}, | wrong kind "name"
"states":[ | "states":[{"a":0,"inputs":7,"amount":7,"fold":"","key":7,"parts":0,"kind":"","name":"v"}, | unknown ""
"states":[ | "states":[{"a":0,"inputs":7,"amount":7,"fold":"","key":7,"parts":0,"kind":"opaque","name":"v"}, | "parts" is 0, not from 1 to 64
"states":[ | "states":[{"a":0,"inputs":7,"amount":7,"fold":"","key":7,"parts":1,"kind":"opaque","name":"v"}, | wrong kind "key"
"states":[ | "states":[{"a":0,"inputs":7,"amount":7,"fold":"","key":["a"],"parts":1,"kind":"opaque","name":"v"}, | unknown ""
"states":[ | "states":[{"a":0,"inputs":7,"amount":7,"fold":"max","key":["a"],"parts":1,"kind":"opaque","name":"v"}, | wrong kind "amount"
"states":[ | "states":[{"amount":7,"inputs":7,"fold":"count","key":["a"],"parts":1,"kind":"opaque","name":"v"}, | wrong kind "inputs"
"states":[ | "states":[{"amount":7,"b":0,"inputs":["s"],"fold":"count","key":["a"],"parts":1,"kind":"opaque","name":"v"}, | unknown "amount"
"#;

const NAMES: &str = r#"
"name":"u" | "name":"s" | "s" twice | "fields":["a","b"] | "fields":["a","b","b"] | "b" twice
"fields":["a","b"] | "fields":["a","b","b"] | "b" twice | {"from":"s" | {"from":"s","grouping":"all"},{"from":"s" | "s" twice
{"from":"s" | {"from":"s","grouping":"all"},{"from":"s" | "s" twice | "key":["a","b"] | "key":["b","b"] | "b" twice
{"from":"s" | {"from":"q","grouping":"fields","key":["a","a"]},{"from":"s" | "a" twice | "key":["a","b"] | "key":["b","b"] | "b" twice
"key":["a","b"] | "key":["b","b"] | "b" twice | {"do":"filter","field":"a","test":"eq","value":"x"} | {"do":"project","fields":["a","a"]} | "a" twice
{"do":"filter","field":"a","test":"eq","value":"x"} | {"do":"project","fields":["a","a"]} | "a" twice | {"from":"p" | {"from":"p","grouping":"all"},{"from":"p" | "p" twice
"fields":["b","a"] | "fields":["b","b"] | "b" twice | "key":["a"] | "key":["a","a"] | "a" twice
"key":["a"] | "key":["a","a"] | "a" twice | "inputs":["r"] | "inputs":["r","r"] | "r" twice
"inputs":["r"] | "inputs":["r","r"] | "r" twice | "key":["b"] | "key":["b","b"] | "b" twice
"inputs":["q"] | "inputs":["q","q"] | "q" twice | "from":"s" | "from":"x" | no source "x"
"from":"s" | "from":"x" | no source "x" | "from":"p" | "from":"y" | no source "y"
{"from":"p" | {"from":"x","grouping":"all"},{"from":"p" | no source "x" | "grouping":"shuffle"} | "grouping":"shuffle"},{"from":"y","grouping":"all"} | no source "y"
"from":"q" | "from":"x" | no source "x" | "inputs":["r"] | "inputs":["y"] | no source "y"
"inputs":["r"] | "inputs":["x"] | no source "x" | "inputs":["q"] | "inputs":["y"] | no source "y"
"inputs":["q"] | "inputs":["x"] | no source "x" | "from":"p" | "from":"q" | cycle at "q"
"from":"s" | "from":"p" | cycle at "p" | "from":"q" | "from":"r" | cycle at "r"
"from":"q" | "from":"r" | cycle at "r" | "key":["a","b"] | "key":["a","c"] | no field "c" at "p"
"#;

const FIELDS: &str = r#"
"key":["a","b"] | "key":["a","c"] | no field "c" at "p" | "field":"a" | "field":"d" | no field "d" at "p"
"key":["a","b"] | "key":["a","c"] | no field "c" at "p" | {"do":"filter","field":"a","test":"eq","value":"x"} | {"do":"len","field":"a","as":"b"} | "b" twice
{"do":"filter","field":"a","test":"eq","value":"x"} | {"do":"len","field":"a","as":"b"} | "b" twice | "grouping":"shuffle" | "grouping":"direct" | wrong kind "grouping"
{"from":"p" | {"from":"s","grouping":"fields","key":["c"]},{"from":"p" | no field "c" at "q" | "grouping":"shuffle" | "grouping":"direct" | wrong kind "grouping"
{"from":"p" | {"from":"s","grouping":"direct"},{"from":"p" | wrong kind "grouping" | "grouping":"shuffle" | "grouping":"fields","key":["c"] | no field "c" at "q"
"grouping":"shuffle" | "grouping":"direct" | wrong kind "grouping" | "field":"b" | "field":"c" | no field "c" at "q"
"field":"b" | "field":"c" | no field "c" at "q" | "fields":["b","a"] | "fields":["d"] | no field "d" at "r"
"fields":["b","a"] | "fields":["a","b","c"] | no field "c" at "r" | "key":["b"] | "key":["d"] | no field "d" at "u"
"key":["b"] | "key":["d"] | no field "d" at "u" | "key":["a"] | "key":["c"] | no field "c" at "t"
"inputs":["r"] | "inputs":["r","q"] | fields differ at "t" | "key":["a"] | "key":["c"] | no field "c" at "t"
"key":["a"] | "key":["c"] | no field "c" at "t" | "amount":"b" | "amount":"d" | no field "d" at "t"
"amount":"b" | "amount":"c" | no field "c" at "t" | "s","kind":"transactional" | "s","kind":"opaque" | not exactly once "t"
"#;

// Of the file whose tasks in all are 1,024. The ways to `p` and to the other four are 60 each, and
// to the 12 bolts that get copies of its rows 60 * 64.
const SIZES: &str = r#"
"s","kind":"transactional" | "s","kind":"opaque" | not exactly once "t" | "parts":10 | "parts":11 | "tasks in all" is 1025, not from 1 to 1024
"parts":10 | "parts":11 | "tasks in all" is 1025, not from 1 to 1024 | "grouping":"fields","key":["a","b"] | "grouping":"all" | weight 46380, most 4096
"#;

// Faults of two components, or two of one, that take more changes.
const DEPTHS: &str = r#"
"from":"s" | "from":"q" | {"from":"p" | {"from":"s" | "key":["a","b"] | "key":["c"] | "field":"b" | "field":"d" | no field "d" at "q"
"inputs":["q"] | "inputs":["s"] | "key":["b"] | "key":["d"] | "field":"b" | "field":"e" | no field "d" at "u"
"inputs":["q"] | "inputs":["s"] | "key":["b"] | "key":["d"] | "key":["a","b"] | "key":["c"] | no field "c" at "p"
"inputs":["r"] | "inputs":["q"] | "key":["a"] | "key":["c"] | "key":["b"] | "key":["d"] | no field "c" at "t"
"inputs":["r"] | "inputs":["q","s"] | "key":["a"] | "key":["c"] | "inputs":["q"] | "inputs":["p"] | "key":["b"] | "key":["d"] | no field "d" at "u"
{"do":"filter","field":"a","test":"eq","value":"x"} | {"do":"project","fields":["b","a"]} | {"from":"p" | {"from":"s","grouping":"fields","key":["c"]},{"from":"p" | fields differ at "q"
"fields":["a","b"] | "fields":["a","b","c","d","e","f","g","h"] | {"do":"filter","field":"a","test":"eq","value":"x"} | {"do":"len","field":"a","as":"a"} | "a" twice
"fields":["a","b"] | "fields":["a","b","c","d","e","f","g","h"] | {"do":"filter","field":"a","test":"eq","value":"x"} | {"do":"len","field":"i","as":"i"} | no field "i" at "p"
"fields":["a","b"] | "fields":["a","b","c","d","e","f","g","h"] | {"do":"filter","field":"a","test":"eq","value":"x"} | {"do":"len","field":"a","as":"i"} | "field":"b" | "field":"j" | "fields" is 9, not from 1 to 8
"#;

#[test]
fn walk_to_the_bolts(rt: HostRuntime) -> Result<(), Mismatch> {
    check_pairs(rt.alloc(), WALK_TO_BOLTS)
}

#[test]
fn walk_to_the_partitions(rt: HostRuntime) -> Result<(), Mismatch> {
    check_pairs_of(rt.alloc(), PARTITIONED, WALK_TO_PARTITIONS)
}

#[test]
fn walk_of_the_bolts(rt: HostRuntime) -> Result<(), Mismatch> {
    check_pairs(rt.alloc(), WALK_OF_BOLTS)
}

#[test]
fn walk_from_the_states(rt: HostRuntime) -> Result<(), Mismatch> {
    check_pairs(rt.alloc(), WALK_FROM_STATES)
}

#[test]
fn walk_of_operations(rt: HostRuntime) -> Result<(), Mismatch> {
    check_operations(rt.alloc(), OPERATIONS)
}

#[test]
fn members_in_another_order(rt: HostRuntime) -> Result<(), Mismatch> {
    check_changes(rt.alloc(), TURNED)
}

#[test]
fn names_before_sources_before_cycles(rt: HostRuntime) -> Result<(), Mismatch> {
    check_pairs(rt.alloc(), NAMES)
}

#[test]
fn fields_before_replays(rt: HostRuntime) -> Result<(), Mismatch> {
    check_pairs(rt.alloc(), FIELDS)
}

#[test]
fn replays_before_tasks_before_weight(rt: HostRuntime) -> Result<(), Mismatch> {
    let alloc = rt.alloc();
    check_pairs_of(alloc, full_file(alloc)?.as_str(), SIZES)
}

#[test]
fn fields_by_depth_and_then_in_file_order(rt: HostRuntime) -> Result<(), Mismatch> {
    check_changes(rt.alloc(), DEPTHS)
}
