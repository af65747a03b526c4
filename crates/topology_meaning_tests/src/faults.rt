// Faults of what a file says. Each line of a table of changes is a file: parts of the valid file,
// what stands in their places, and what is printed of the fault then.
use test_kit::Mismatch;
use topology_test_kit::{check_changes, check_changes_of, check_operations, full_file};

const TWICE: &str = r#"
"name":"p" | "name":"s" | "s" twice
"name":"q" | "name":"p" | "p" twice
"name":"t" | "name":"s" | "s" twice
"name":"t" | "name":"r" | "r" twice
"name":"u" | "name":"t" | "t" twice
"name":"r" | "name":"q" | "name":"t" | "name":"p" | "q" twice
"fields":["a","b"] | "fields":["a","a"] | "a" twice
"fields":["a","b"] | "fields":["a","b","b","a"] | "b" twice
{"from":"p" | {"from":"p","grouping":"all"},{"from":"p" | "p" twice
{"from":"p" | {"from":"p","grouping":"all"},{"from":"s","grouping":"all"},{"from":"s","grouping":"all"},{"from":"p" | "s" twice
"key":["a","b"] | "key":["b","b"] | "b" twice
"key":["a","b"] | "key":["a","b","b","a"] | "b" twice
"fields":["b","a"] | "fields":["b","b"] | "b" twice
"fields":["b","a"] | "fields":["b","a","a","b"] | "a" twice
"key":["a"] | "key":["a","a"] | "a" twice
"key":["a"] | "key":["a","b","b","a"] | "b" twice
"inputs":["r"] | "inputs":["r","r"] | "r" twice
"inputs":["r"] | "inputs":["r","q","q","r"] | "q" twice
"#;

const SOURCES: &str = r#"
"from":"s" | "from":"x" | no source "x"
"from":"p" | "from":"t" | no source "t"
"from":"q" | "from":"u" | no source "u"
"from":"p" | "from":"a" | no source "a"
{"from":"p" | {"from":"s","grouping":"all"},{"from":"x","grouping":"all"},{"from":"y" | no source "x"
"inputs":["r"] | "inputs":["x"] | no source "x"
"inputs":["r"] | "inputs":["t"] | no source "t"
"inputs":["r"] | "inputs":["r","u","x"] | no source "u"
"inputs":["r"] | "inputs":["s"] | no fault
"#;

const CYCLES: &str = r#"
"from":"p" | "from":"q" | cycle at "q"
"from":"q" | "from":"r" | cycle at "r"
"from":"s" | "from":"q" | cycle at "p"
"from":"s" | "from":"r" | cycle at "p"
"from":"p" | "from":"r" | cycle at "q"
"from":"s" | "from":"r" | "from":"p" | "from":"r" | cycle at "q"
{"from":"p" | {"from":"r","grouping":"all"},{"from":"p" | cycle at "q"
{"from":"p" | {"from":"p","grouping":"all"},{"from":"q" | cycle at "q"
"from":"s" | "from":"q" | {"from":"p" | {"from":"s" | no fault
{"from":"q" | {"from":"p","grouping":"shuffle"},{"from":"q" | no fault
"#;

const FIELDS: &str = r#"
"inputs":["r"] | "inputs":["r","q"] | fields differ at "t"
"inputs":["r"] | "inputs":["s","p","q","r"] | fields differ at "t"
"inputs":["r"] | "inputs":["s","p","q"] | no fault
"inputs":["q"] | "inputs":["r","s"] | fields differ at "u"
"fields":["b","a"] | "fields":["a","b"] | "inputs":["r"] | "inputs":["r","q"] | no fault
{"do":"filter","field":"a","test":"eq","value":"x"} | {"do":"len","field":"a","as":"c"} | {"from":"p" | {"from":"s","grouping":"all"},{"from":"p" | fields differ at "q"
"key":["a","b"] | "key":["a","c"] | no field "c" at "p"
"key":["a","b"] | "key":["d","c"] | no field "d" at "p"
"fields":["a","b"] | "fields":["a"] | no field "b" at "p"
"field":"b" | "field":"c" | no field "c" at "q"
"fields":["b","a"] | "fields":["b","c","d"] | no field "c" at "r"
"key":["a"] | "key":["a","c","d"] | no field "c" at "t"
"amount":"b" | "amount":"c" | no field "c" at "t"
"fold":"sum","amount":"b" | "fold":"custom","amount":"c" | no field "c" at "t"
"key":["b"] | "key":["c"] | no field "c" at "u"
"fields":["b","a"] | "fields":["b"] | no field "a" at "t"
"fields":["b","a"] | "fields":["a"] | no field "b" at "t"
"grouping":"fields","key":["a","b"] | "grouping":"direct" | wrong kind "grouping"
"grouping":"shuffle" | "grouping":"direct" | wrong kind "grouping"
{"do":"route","field":"b"} | {"do":"custom"} | wrong kind "grouping"
{"from":"q" | {"from":"s","grouping":"direct"},{"from":"q" | wrong kind "grouping"
{"do":"filter","field":"a","test":"eq","value":"x"} | {"do":"route","field":"a"} | "grouping":"shuffle" | "grouping":"direct" | no fault
"fields":["a","b"] | "fields":["a","b","c","d","e","f","g"] | {"do":"filter","field":"a","test":"eq","value":"x"} | {"do":"len","field":"a","as":"i"} | no fault
"fields":["a","b"] | "fields":["a","b","c","d","e","f","g","h"] | {"do":"filter","field":"a","test":"eq","value":"x"} | {"do":"len","field":"a","as":"i"} | "fields" is 9, not from 1 to 8
"#;

// Operations of the first bolt, and what is printed of the file's fault.
const OPERATIONS: &str = r#"
{"do":"split","field":"c","as":"d"} | no field "c" at "p"
{"do":"split","field":"a","as":"c"} | no field "b" at "q"
{"do":"split","field":"a","as":"b"} | no field "a" at "r"
{"do":"project","fields":["a","c","d"]} | no field "c" at "p"
{"do":"project","fields":["c","d","d","c"]} | "d" twice
{"do":"project","fields":["a"]} | no field "b" at "q"
{"do":"filter","field":"c","test":"eq","value":1} | no field "c" at "p"
{"do":"set","field":"c","value":1} | no field "c" at "p"
{"do":"len","field":"c","as":"d"} | no field "c" at "p"
{"do":"len","field":"a","as":"a"} | "a" twice
{"do":"len","field":"a","as":"b"} | "b" twice
{"do":"route","field":"c"} | no field "c" at "p"
"#;

const REPLAYS: &str = r#"
"s","kind":"transactional" | "s","kind":"opaque" | not exactly once "t"
"s","kind":"transactional" | "s","kind":"opaque" | "u","kind":"opaque" | "u","kind":"transactional" | not exactly once "t"
"s","kind":"transactional" | "s","kind":"opaque" | "t","kind":"transactional" | "t","kind":"opaque" | no fault
"s","kind":"transactional" | "s","kind":"opaque" | "transactional","parts" | "opaque","parts" | "u","kind":"opaque" | "u","kind":"transactional" | not exactly once "u"
"t","kind":"transactional" | "t","kind":"opaque" | no fault
"#;

// Of the file whose tasks in all are 1,024.
const TASKS: &str = r#"
"parts":10 | "parts":9 | no fault
"parts":10 | "parts":11 | "tasks in all" is 1025, not from 1 to 1024
"tasks":60 | "tasks":64 | "tasks in all" is 1028, not from 1 to 1024
"parts":10 | "parts":9 | "tasks":60 | "tasks":61 | no fault
"#;

// Of `p`, `q`, `r`, `t` and `u` the ways are 60 and four times 60 * 61; then 45, 45 * 22 twice, and
// of the states 45 * 22 + 45 and one more. The last two files differ in one input of a state.
const WEIGHTS: &str = r#"
"grouping":"fields","key":["a","b"] | "grouping":"all" | "grouping":"shuffle" | "grouping":"all" | weight 14700, most 4096
"tasks":60 | "tasks":45 | "tasks":61 | "tasks":22 | "grouping":"fields","key":["a","b"] | "grouping":"all" | "grouping":"shuffle" | "grouping":"all" | "fields":["b","a"] | "fields":["a","b"] | "inputs":["r"] | "inputs":["r","p"] | "inputs":["q"] | "inputs":["q","p","s"] | no fault
"tasks":60 | "tasks":45 | "tasks":61 | "tasks":22 | "grouping":"fields","key":["a","b"] | "grouping":"all" | "grouping":"shuffle" | "grouping":"all" | "fields":["b","a"] | "fields":["a","b"] | "inputs":["r"] | "inputs":["r","p","s"] | "inputs":["q"] | "inputs":["q","p","s"] | weight 4097, most 4096
"#;

#[test]
fn names_that_stand_twice(rt: HostRuntime) -> Result<(), Mismatch> {
    check_changes(rt.alloc(), TWICE)
}

#[test]
fn inputs_without_a_source(rt: HostRuntime) -> Result<(), Mismatch> {
    check_changes(rt.alloc(), SOURCES)
}

#[test]
fn bolts_that_reach_themselves(rt: HostRuntime) -> Result<(), Mismatch> {
    check_changes(rt.alloc(), CYCLES)
}

#[test]
fn fields_that_differ_or_lack(rt: HostRuntime) -> Result<(), Mismatch> {
    check_changes(rt.alloc(), FIELDS)
}

#[test]
fn fields_of_operations(rt: HostRuntime) -> Result<(), Mismatch> {
    check_operations(rt.alloc(), OPERATIONS)
}

#[test]
fn transactional_states_of_an_opaque_spout(rt: HostRuntime) -> Result<(), Mismatch> {
    check_changes(rt.alloc(), REPLAYS)
}

#[test]
fn tasks_in_all_above_the_most(rt: HostRuntime) -> Result<(), Mismatch> {
    let alloc = rt.alloc();
    check_changes_of(alloc, full_file(alloc)?.as_str(), TASKS)
}

#[test]
fn weights_above_the_most(rt: HostRuntime) -> Result<(), Mismatch> {
    check_changes(rt.alloc(), WEIGHTS)
}
